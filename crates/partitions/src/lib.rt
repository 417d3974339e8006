// Partition fields, the checks that every holder of them shares, and unbound drafts and specs.
#![tactic(auto)]

pub mod batch;
pub mod builder;
pub mod fault;
pub mod field;
pub mod fields;
pub mod sought;
pub mod spec;
pub mod validator;
pub mod ways;
