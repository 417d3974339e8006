// The ids of partition fields: the missing ones are given, and those that are there are asked about.
#![tactic(auto)]

ghost use Rattle.std.specs.Prelude.{◌≡◌};

mod numbers;
mod questions;
mod worked;

pub use numbers::number;
pub use questions::{has_sequential_ids, highest_field_id};
pub use worked::worked_examples_stand;

// What has a field id: an `i32`, or an `Option<i32>` where the id may be missing.
pub trait Identified<Id> {
    ghost id: { Self → Id };

    fn field_id(&self) -> Id
        ensures { result ≡ id self.now };
}

// Why fields are not numbered.
#[derive(Clone, Copy, PartialEq, Eq)]
pub enum NumberFault {
    // there is less room than there are fields
    Short,
    // no number is permitted for the field at the index
    NoNumber { index: usize },
}
