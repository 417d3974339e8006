// Bound partition drafts: fields are added that the columns of a schema admit.
#![tactic(auto)]

mod bound;
pub mod builder;
pub mod laws;
#[cfg(test)]
mod tests;
