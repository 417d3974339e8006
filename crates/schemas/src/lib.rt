// What a table's columns are: lookups by id and by name, and schemas that show them.
#![tactic(auto)]

pub mod schema;
pub mod selection;
pub mod table;
