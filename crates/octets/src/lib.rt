// Big-endian numbers in bytes.
#![tactic(auto)]

pub mod put;
pub mod read;
