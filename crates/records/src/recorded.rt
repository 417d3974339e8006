// What can be written as a record.
ghost use Rattle.std.specs.Prelude.{◌≡◌, ◌-◌, length};
ghost use Rattle.std.specs.Iterator.{YieldsFirstBy, at_most};
ghost use Rattle.std.specs.List.{slice_get};
ghost use Rattle.std.specs.Option.{option_map};
ghost use Rattle.partitions.specs.Buildable.{Buildable};
ghost use Rattle.partitions.specs.Fields.{PaperSpec};
ghost use Rattle.partitions.specs.Specs.{paper_spec};
ghost use Rattle.partitions.specs.Views.{paper_field};
ghost use Rattle.records.specs.Left.{entries_left};

use partitions::field::UnboundPartitionField;
use partitions::spec::UnboundPartitionSpec;
use std::ops::Range;

pub trait Recorded {
    // the spec whose record is written
    ghost plan: { Self → PaperSpec };

    fn recorded_id(&self) -> Option<i32>
        ensures { result ≡ (plan self.now).spec_id };

    fn entry_count(&self) -> usize
        ensures count { result ≡ length (plan self.now).fields }
        ensures buildable { Buildable (plan self.now).fields };

    // None past the end.
    fn entry_at(&self, index: usize) -> Option<UnboundPartitionField>
        ensures { option_map paper_field result ≡ slice_get (plan self.now).fields index };

    final fn entries(&self) -> Entries<'_, Self>
    where
        Self: Sized,
        ensures of { result.plan.now ≡ self.now }
        ensures all { entries_left (plan self.now) result.places.start result.places.end ≡ (plan self.now).fields }
        ensures buildable { Buildable (plan self.now).fields }
    {
        Entries {
            plan: self,
            places: 0..self.entry_count(),
        }
    }
}

// The entries of a plan, from a place on.
#[derive(Drop)]
pub struct Entries<'a, R> {
    plan: &'a R,
    places: Range<usize>,
}

impl<'a, R: Recorded> Iterator for Entries<'a, R> {
    type Item = UnboundPartitionField;

    ghost next_gives = { YieldsFirstBy paper_field (λ s. entries_left (R.Recorded.plan s.plan.now) s.places.start s.places.end) };

    ghost remaining = { λ s. at_most (s.places.end - s.places.start) };

    fn next(&mut self) -> Option<UnboundPartitionField> {
        self.plan.entry_at(self.places.next()?)
    }
}

impl Recorded for UnboundPartitionSpec {
    ghost plan = { paper_spec };

    fn recorded_id(&self) -> Option<i32> {
        self.spec_id()
    }

    fn entry_count(&self) -> usize {
        self.fields().len()
    }

    fn entry_at(&self, index: usize) -> Option<UnboundPartitionField> {
        self.fields().get(index).copied()
    }
}
