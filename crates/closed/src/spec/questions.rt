// What is asked of a closed spec.
ghost use Rattle.std.specs.Prelude.{◌≡◌, [], Decides, MatchOption};
ghost use Rattle.numbering.specs.Ids.{Sequential, Highest};
ghost use Rattle.closed.specs.Closed.{paper_closed, closed_ids};
ghost use Rattle.closed.specs.Questions.{Unpartitioned};

use super::PartitionSpec;

impl PartitionSpec {
    // Whether it has no fields, or only void ones.
    pub fn is_unpartitioned(&self) -> bool
        ensures { Decides result (Unpartitioned (paper_closed self.now).fields) }
    {
        self.fields().iter().all(|field| field.is_void())
    }

    // Whether the fields' ids count up from 1000.
    pub fn has_sequential_ids(&self) -> bool
        ensures { Decides result (Sequential (closed_ids self.now)) }
    {
        numbering::has_sequential_ids(self.fields())
    }

    // None where there are no fields.
    pub fn highest_field_id(&self) -> Option<i32>
        ensures { MatchOption result ((paper_closed self.now).fields ≡ []) (λ id. Highest (closed_ids self.now) id) }
    {
        numbering::highest_field_id(self.fields())
    }
}
