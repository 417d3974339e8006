// Plan records: an unbound spec as bytes.
#![tactic(auto)]

mod entry;
pub mod fault;
pub mod recorded;
pub mod worked;
pub mod write;
