// Closed partition specs, and what every one keeps.
ghost use Rattle.std.specs.Prelude.{◌≤◌, length};
ghost use Rattle.partitions.specs.Buildable.{SameName, BothAlike, SameId};
ghost use Rattle.partitions.specs.Places.{Apart};
ghost use Rattle.closed.specs.Opened.{openeds};

use crate::field::PartitionField;
use bounded::Bounded;
use partitions::validator::MAX_FIELDS;

mod calls;
mod closes;
mod compares;
mod opens;
mod questions;
mod types;

#[derive(Drop)]
pub struct PartitionSpec {
    spec_id: i32,
    fields: Bounded<PartitionField, MAX_FIELDS>,
    // kept: as in FieldList, since it is said of every spec, with no call
    ghost few: { length fields ≤ 64 },
    ghost names: { Apart SameName (openeds fields) },
    ghost sources: { Apart BothAlike (openeds fields) },
    ghost ids: { Apart SameId (openeds fields) },
}
