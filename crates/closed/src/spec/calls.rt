// What a closed spec is made as, and what it holds.
ghost use Rattle.std.specs.Prelude.{◌≡◌, [], pos, IfOk, Some};
ghost use Rattle.numbering.specs.Ids.{Distinct};
ghost use Rattle.numbering.specs.Numbering.{AllState};
ghost use Rattle.partitions.specs.Buildable.{Buildable};
ghost use Rattle.closed.specs.Bare.{stateds};
ghost use Rattle.closed.specs.Closed.{paper_closed, closed_ids};
ghost use Rattle.closed.specs.Opened.{openeds, ids_of};

use super::PartitionSpec;
use crate::field::PartitionField;
use bounded::Bounded;
use std::alloc::{AllocError, Global};

impl PartitionSpec {
    // The id 0 and no fields. No later call wants memory.
    pub fn new(heap: Global) -> Result<PartitionSpec, AllocError>
        ensures { IfOk result (λ s. paper_closed s ≡ record { spec_id = Some (pos 0); fields = [] }) }
    {
        let fields = Bounded::new(heap)?;
        Ok(PartitionSpec { spec_id: 0, fields })
    }

    pub fn spec_id(&self) -> i32
        ensures { Some result ≡ (paper_closed self.now).spec_id }
    {
        self.spec_id
    }

    // Every closed spec's fields are fields that a draft can build, and no two have one id.
    pub fn fields(&self) -> &[PartitionField]
        ensures same { openeds result.now ≡ (paper_closed self.now).fields }
        ensures ids { ids_of result.now ≡ closed_ids self.now }
        ensures state { AllState (stateds (openeds result.now)) (ids_of result.now) }
        ensures distinct { Distinct (ids_of result.now) }
        ensures buildable { Buildable (openeds result.now) }
    {
        self.fields.as_slice()
    }
}
