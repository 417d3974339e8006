// A plan script: one command to a line, one answer to a command.
#![tactic(auto)]

mod columns;
mod draft;
mod lines;
mod order;
mod plan;
pub mod play;
