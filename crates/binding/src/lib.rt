// Binding: an unbound spec becomes a closed one on a schema.
#![tactic(auto)]

pub mod bind;
pub mod fault;
