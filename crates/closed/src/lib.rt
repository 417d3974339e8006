// Closed partition specs: every field has its id.
#![tactic(auto)]

pub mod field;
pub mod recorded;
pub mod spec;
pub mod types;
