// Unbound drafts: fields are added, each checked against those before it, and built into a spec.
ghost use Rattle.std.specs.Prelude.{◌≡◌, IfOk, Some};
ghost use Rattle.partitions.specs.Adds.{Adds};
ghost use Rattle.partitions.specs.AddRules.{add_rules};
ghost use Rattle.partitions.specs.Batches.{entries_of, AddsAll};
ghost use Rattle.partitions.specs.Views.{seen};
ghost use Rattle.partitions.specs.Specs.{paper_draft, paper_spec, blank};

use crate::batch::{Batch, BatchFault};
use crate::fault::DraftFault;
use crate::field::FieldView;
use crate::spec::UnboundPartitionSpec;
use crate::ways::Unbound;
use std::alloc::{AllocError, Global};

#[derive(Drop)]
pub struct UnboundPartitionSpecBuilder {
    // what it would build now
    spec: UnboundPartitionSpec,
}

impl UnboundPartitionSpecBuilder {
    // No id and no fields. No later call wants memory.
    pub fn new(heap: Global) -> Result<UnboundPartitionSpecBuilder, AllocError>
        ensures { IfOk result (λ d. paper_draft d ≡ blank) }
    {
        let spec = UnboundPartitionSpec::new(heap)?;
        Ok(UnboundPartitionSpecBuilder { spec })
    }

    pub fn with_spec_id(&mut self, spec_id: i32)
        ensures { paper_draft self.new ≡ record { spec_id = Some spec_id; fields = (paper_draft self.old).fields } }
    {
        self.spec.spec_id = Some(spec_id);
    }

    // Refuses with the first rule that the field breaks; else it stands at the end.
    pub fn add_partition_field(&mut self, field: &FieldView<'_>) -> Result<(), DraftFault>
        ensures fields { Adds (paper_draft self.old).fields (seen field.now) result (paper_draft self.new).fields }
        ensures spec_id { (paper_draft self.new).spec_id ≡ (paper_draft self.old).spec_id }
    {
        self.spec.add_partition_field(field)
    }

    // Adds the fields of a batch, all or none.
    pub fn add_partition_fields(&mut self, batch: &Batch<'_>) -> Result<(), BatchFault>
        ensures fields { AddsAll add_rules (paper_draft self.old).fields (entries_of batch.now) result (paper_draft self.new).fields }
        ensures spec_id { (paper_draft self.new).spec_id ≡ (paper_draft self.old).spec_id }
    {
        self.spec.fields.add_all(&Unbound, batch)
    }

    // What a draft holds is always a spec.
    pub fn build(self) -> UnboundPartitionSpec
        ensures { paper_spec result ≡ paper_draft self }
    {
        let UnboundPartitionSpecBuilder { spec } = self;
        spec
    }
}
