// The texts of transforms: what is read loosely or strictly, and what is printed.
#![tactic(auto)]

pub mod fault;
pub mod print;
pub mod read;
