// Bound partition drafts: each field that is added suits the schema that is passed with it.
ghost use Rattle.std.specs.Prelude.{◌≡◌, [], IfOk, None};
ghost use Rattle.partitions.specs.Batches.{entries_of};
ghost use Rattle.partitions.specs.Views.{seen};
ghost use Rattle.drafts.specs.Calls.{Call, Step, Ran, Continues};
ghost use Rattle.drafts.specs.Drafts.{paper, answer_of, batch_answer_of};
ghost use Rattle.drafts.specs.Paper.{blank_paper};

use crate::bound::OnSchema;
use partitions::batch::{Batch, BatchFault};
use partitions::fault::DraftFault;
use partitions::field::FieldView;
use partitions::fields::FieldList;
use partitions::ways::Adding;
use schemas::schema::Schema;
use std::alloc::{AllocError, Global};
use transforms::transform::Transform;

mod close;
mod shown;
mod taking;

// The id that comes before the first that is counted.
const BEFORE_FIRST_FIELD_ID: i32 = 999;

#[derive(Drop)]
pub struct PartitionSpecBuilder {
    spec_id: i32,
    last_assigned_field_id: i32,
    fields: FieldList,
}

impl PartitionSpecBuilder {
    // Spec id 0 and no fields. No later call wants memory.
    pub fn new(heap: Global) -> Result<PartitionSpecBuilder, AllocError>
        ensures blank { IfOk result (λ d. paper d ≡ blank_paper) }
        ensures history { IfOk result (λ d. Ran [] [] (paper d)) }
    {
        let fields = FieldList::new(heap)?;
        Ok(PartitionSpecBuilder {
            spec_id: 0,
            last_assigned_field_id: BEFORE_FIRST_FIELD_ID,
            fields,
        })
    }

    pub fn with_spec_id(&mut self, spec_id: i32)
        ensures step { Step (paper self.old) (Call.set_spec_id spec_id) None (paper self.new) }
        ensures history { Continues (paper self.old) (Call.set_spec_id spec_id) None (paper self.new) }
    {
        self.spec_id = spec_id;
    }

    // Ids that are not stated are counted from the next on.
    pub fn with_last_assigned_field_id(&mut self, last_assigned_field_id: i32)
        ensures step { Step (paper self.old) (Call.set_start last_assigned_field_id) None (paper self.new) }
        ensures history { Continues (paper self.old) (Call.set_start last_assigned_field_id) None (paper self.new) }
    {
        self.last_assigned_field_id = last_assigned_field_id;
    }

    // Refuses with the first rule that the field breaks; else it stands at the end.
    pub fn add_unbound_field<S: Schema>(
        &mut self,
        schema: &S,
        field: &FieldView<'_>,
    ) -> Result<(), DraftFault>
        ensures step { Step (paper self.old) (Call.add_field (S.Schema.columns schema.now) (seen field.now)) (answer_of result) (paper self.new) }
        ensures history { Continues (paper self.old) (Call.add_field (S.Schema.columns schema.now) (seen field.now)) (answer_of result) (paper self.new) }
    {
        OnSchema { schema }.add_to(&mut self.fields, field)
    }

    // Adds a field on the column that the source's name leads to, with no id stated.
    pub fn add_partition_field<S: Schema>(
        &mut self,
        schema: &S,
        source_name: &[u8],
        name: &[u8],
        transform: Transform,
    ) -> Result<(), DraftFault>
        ensures step { Step (paper self.old) (Call.add_named (S.Schema.columns schema.now) source_name.now name.now transform) (answer_of result) (paper self.new) }
        ensures history { Continues (paper self.old) (Call.add_named (S.Schema.columns schema.now) source_name.now name.now transform) (answer_of result) (paper self.new) }
    {
        OnSchema { schema }.add_named(&mut self.fields, source_name, name, transform)
    }

    // Adds the fields of a batch, all or none.
    pub fn add_unbound_fields<S: Schema>(
        &mut self,
        schema: &S,
        batch: &Batch<'_>,
    ) -> Result<(), BatchFault>
        ensures step { Step (paper self.old) (Call.add_batch (S.Schema.columns schema.now) (entries_of batch.now)) (batch_answer_of result) (paper self.new) }
        ensures history { Continues (paper self.old) (Call.add_batch (S.Schema.columns schema.now) (entries_of batch.now)) (batch_answer_of result) (paper self.new) }
    {
        self.fields.add_all(&OnSchema { schema }, batch)
    }
}
