// Types of columns, transforms of columns, and what a transform makes of a type.
#![tactic(auto)]

pub mod datatypes;
pub mod shown;
pub mod transform;
