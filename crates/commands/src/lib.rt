// The commands of a plan script, read from its lines.
#![tactic(auto)]

pub mod command;
pub mod fault;
mod types;
mod verb;
mod word;
