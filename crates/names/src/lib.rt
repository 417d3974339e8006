// Names: their bytes checked, kept in place, and found in an area of bytes.
#![tactic(auto)]

pub mod name;
#[cfg(test)]
mod tests;
pub mod utf8;
