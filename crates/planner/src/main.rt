// Plays a plan script: the file named, or standard input.
#![tactic(auto)]

use anyhow::anyhow;
use replies::normal::normalise;
use script::play::play;
use std::env;
use std::fs::File;
use std::io::BufWriter;
use std::process::ExitCode;
use transforms::transform::Transform;

const HELP: &str = "planner: plays a plan script and prints one answer for each command

  planner                    the script on standard input
  planner FILE               the script in a file
  planner normalise TEXT..   each transform text: its printed form and whether it was that, or its refusal;
                             of several texts, whether they are one transform
  planner --help             this text

Commands of a script:
  columns    column ID TYPE NAME [marked], columns clear, regular, sheet HEX, select ID.., select all
  texts      name NAME, transform TEXT, strict TEXT, result TEXT TYPE, preserves TEXT,
             satisfies TEXT TEXT, alike TEXT TEXT
  drafts     unbound, spec-id N, add SOURCE ID|- NAME TEXT, batch N, close
  orders     sort-new, sort-id N, sort SOURCE TEXT asc|desc first|last, sort-build, sort-build-unbound
The others of the language answer not-yet. docs/SCRIPT.md has the language, and examples/ has scripts to run.";

// The status is 1 where a run fails, and standard error says why.
fn main(rt: HostRuntime) -> anyhow::Result<ExitCode> {
    match run(&rt) {
        Ok(()) => Ok(ExitCode::SUCCESS),
        Err(e) => {
            eprintln!(rt; "planner: {e}")?;
            Ok(ExitCode::FAILURE)
        }
    }
}

fn run(rt: &HostRuntime) -> anyhow::Result<()> {
    let heap = rt.alloc();
    let args: Vec<String> = env::args(rt)?.collect(heap)?;
    let mut words: Vec<&str> = Vec::new(heap);
    for arg in args.iter().skip(1) {
        words.push(arg.as_str())?;
    }
    match words.as_slice() {
        [] => play_input(rt),
        ["--help"] => Ok(rt.println(HELP)?),
        ["normalise"] => Err(anyhow!("normalise wants at least one text: see planner --help")),
        ["normalise", texts @ ..] => show_normal(rt, texts),
        [path] => play_file(rt, path),
        _ => Err(anyhow!("one file, or none: see planner --help")),
    }
}

fn play_input(rt: &HostRuntime) -> anyhow::Result<()> {
    let mut out = BufWriter::new(rt.alloc(), rt.stdout())?;
    let mut notes = rt.stderr();
    play(rt.alloc(), rt.stdin(), &mut out, &mut notes)
}

fn play_file(rt: &HostRuntime, path: &str) -> anyhow::Result<()> {
    let file = about(rt, path, File::open(rt, path).map_err(anyhow::Error::from))?;
    let mut out = BufWriter::new(rt.alloc(), rt.stdout())?;
    let mut notes = rt.stderr();
    about(rt, path, play(rt.alloc(), file, &mut out, &mut notes))
}

// What was made, or its error with the path that it is about.
fn about<T>(rt: &HostRuntime, path: &str, made: anyhow::Result<T>) -> anyhow::Result<T> {
    // kept: no plainer with map_err: making the message can run out of memory, and `?` does not leave a closure
    match made {
        Ok(made) => Ok(made),
        Err(e) => Err(anyhow!(format!(in rt.alloc(); "{e}: {path}")?)),
    }
}

// A line for each text, and of several whether they are one transform.
fn show_normal(rt: &HostRuntime, texts: &[&str]) -> anyhow::Result<()> {
    for text in texts {
        match normalise(text.as_bytes()) {
            Ok(normal) => println!(rt; "{text}: {normal}")?,
            Err(refusal) => println!(rt; "{text}: {refusal}")?,
        }
    }
    if texts.len() > 1 {
        rt.println(if are_one(texts) {
            "one transform"
        } else {
            "not one transform"
        })?;
    }
    Ok(())
}

fn are_one(texts: &[&str]) -> bool {
    let Some(meant) = texts.first().and_then(|text| meaning(text)) else {
        return false;
    };
    texts.iter().all(|text| meaning(text) == Some(meant))
}

fn meaning(text: &str) -> Option<Transform> {
    Some(normalise(text.as_bytes()).ok()?.transform())
}
