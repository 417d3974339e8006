// Plays a whole script.
use crate::plan::Plan;
use commands::fault::ScriptFault;
use std::alloc::Global;
use std::io::{BufRead, BufReader, Read, Write};

// Plays the script `input`: an answer a command to `out`; which lines are no command goes to `notes` too.
pub fn play<I: Read + Drop, O: Write, N: Write>(
    heap: Global,
    input: I,
    out: &mut O,
    notes: &mut N,
) -> anyhow::Result<()> {
    let mut plan = Plan::new(heap)?;
    for (before, line) in BufReader::new(heap, input)?.split(heap, b'\n').enumerate() {
        let bytes = line?;
        // a line that is no text is no command
        let text = std::str::from_utf8(bytes.as_slice()).unwrap_or("?");
        if !answer_line(&mut plan, text, out)? {
            let number = before.saturating_add(1);
            writeln!(notes, "line {number}: no command of the language")?;
        }
    }
    out.flush()?;
    Ok(())
}

// Answers one line. False where it is no command.
fn answer_line<O: Write>(plan: &mut Plan, line: &str, out: &mut O) -> anyhow::Result<bool> {
    match plan.answer(line) {
        Ok(None) => Ok(true),
        Ok(Some(answer)) => {
            writeln!(out, "{answer}")?;
            Ok(true)
        }
        Err(ScriptFault::Memory) => Err(ScriptFault::Memory.into()),
        Err(fault) => {
            writeln!(out, "{fault}")?;
            Ok(!matches!(fault, ScriptFault::BadCommand))
        }
    }
}
