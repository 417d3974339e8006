// Partition fields that keep the rules among themselves.
ghost use Rattle.std.specs.Prelude.{◌≤◌, length};
ghost use Rattle.partitions.specs.Buildable.{SameName, BothAlike, SameId};
ghost use Rattle.partitions.specs.Places.{Apart};
ghost use Rattle.partitions.specs.Views.{papers};

use crate::field::UnboundPartitionField;
use crate::validator::MAX_FIELDS;
use bounded::Bounded;

mod batches;
mod calls;

// The fields of an unbound draft or spec.
#[derive(Drop)]
pub struct FieldList {
    fields: Bounded<UnboundPartitionField, MAX_FIELDS>,
    // kept: no plainer without: Bounded keeps it too, and tells it in a call alone, but it is said of every list, with no call
    ghost few: { length fields ≤ 64 },
    ghost names: { Apart SameName (papers fields) },
    ghost sources: { Apart BothAlike (papers fields) },
    ghost ids: { Apart SameId (papers fields) },
}
