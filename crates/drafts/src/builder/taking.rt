// Drafts that take an unbound spec over.
ghost use Rattle.std.specs.Prelude.{◌≡◌, [], ◌∷◌, ◌++◌, IfOk};
ghost use Rattle.partitions.specs.Specs.{paper_spec};
ghost use Rattle.drafts.specs.Calls.{Step, Ran};
ghost use Rattle.drafts.specs.Drafts.{paper};
ghost use Rattle.drafts.specs.Paper.{with_fields};
ghost use Rattle.drafts.specs.Taking.{identified, id_answers, taking_batch, taking_calls, taking_answer, taken};

use super::{BEFORE_FIRST_FIELD_ID, PartitionSpecBuilder};
use crate::bound::OnSchema;
use partitions::batch::BatchFault;
use partitions::spec::UnboundPartitionSpec;
use schemas::schema::Schema;

impl PartitionSpecBuilder {
    // Takes an unbound spec over: its id, and its fields as a batch. It wants no memory, since the spec's fields keep the
    // rules among themselves, and only the schema is asked.
    pub fn new_from_unbound<S: Schema>(
        unbound: UnboundPartitionSpec,
        schema: &S,
    ) -> Result<PartitionSpecBuilder, BatchFault>
        ensures step { Step (identified (paper_spec unbound).spec_id) (taking_batch (S.Schema.columns schema.now) (paper_spec unbound).fields) (taking_answer result) (taken (paper_spec unbound).spec_id result) }
        ensures history { Ran (taking_calls (S.Schema.columns schema.now) (paper_spec unbound)) (id_answers (paper_spec unbound).spec_id ++ taking_answer result ∷ []) (taken (paper_spec unbound).spec_id result) }
        ensures fields { IfOk result (λ d. paper d ≡ with_fields (paper_spec unbound).fields (identified (paper_spec unbound).spec_id)) }
    {
        let (spec_id, fields) = unbound.into_parts();
        OnSchema { schema }.check_all(fields.as_slice())?;
        Ok(PartitionSpecBuilder {
            spec_id: spec_id.unwrap_or(0),
            last_assigned_field_id: BEFORE_FIRST_FIELD_ID,
            fields,
        })
    }
}
