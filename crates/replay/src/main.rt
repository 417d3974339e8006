// Plays the script on standard input, which holds what the published crate was asked; its answers are stored beside it.
#![tactic(auto)]

use script::play::play;
use std::io::BufWriter;

fn main(rt: HostRuntime) -> anyhow::Result<()> {
    let mut out = BufWriter::new(rt.alloc(), rt.stdout())?;
    let mut notes = rt.stderr();
    play(rt.alloc(), rt.stdin(), &mut out, &mut notes)
}
