// Selections: a schema of which only some ids are shown.
ghost use Rattle.std.specs.Prelude.{◌≤◌, length};
ghost use Rattle.schemas.specs.Ids.{Distinct};

use crate::schema::Schema;
use bounded::Bounded;

mod fault;
mod select;
mod shown;

// The most ids that can be selected.
pub const MAX_IDS: usize = 64;

#[derive(Clone, Copy, PartialEq, Eq)]
pub enum SelectionFault {
    Full,
}

#[derive(Drop)]
pub struct Selection<'a, S: Schema> {
    under: &'a S,
    // in the order in which they were selected
    ids: Bounded<i32, MAX_IDS>,
    ghost few: { length ids ≤ 64 },
    ghost distinct: { Distinct ids },
}
