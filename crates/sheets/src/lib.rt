// Column sheets: a table's columns in bytes.
#![tactic(auto)]

pub mod sheet;
#[cfg(test)]
mod tests;
