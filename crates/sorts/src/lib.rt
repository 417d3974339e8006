// Sort orders: what the rows of a table are sorted by.
#![tactic(auto)]

pub mod sort;
#[cfg(test)]
mod tests;
