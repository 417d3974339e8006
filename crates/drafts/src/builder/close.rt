// Drafts are closed into specs.
ghost use Rattle.std.specs.Prelude.{OnOk};
ghost use Rattle.closed.specs.Closed.{paper_closed, closed_ids};
ghost use Rattle.closed.specs.Closing.{Closes, ClosingLaws};
ghost use Rattle.drafts.specs.Closings.{FitWhenClosed};
ghost use Rattle.drafts.specs.Drafts.{paper};

use super::PartitionSpecBuilder;
use closed::spec::PartitionSpec;
use partitions::fault::DraftFault;

impl PartitionSpecBuilder {
    // Fills the caller's spec. The draft is gone, also where a field has no permitted number and the spec is as it was.
    pub fn build(self, spec: &mut PartitionSpec) -> Result<(), DraftFault>
        ensures closes { Closes (paper self).spec_id (paper self).start (paper self).fields spec.old spec.new result }
        ensures laws { ClosingLaws (paper self).start (paper self).fields (paper_closed spec.new).fields (closed_ids spec.new) result }
        ensures fit { OnOk result (FitWhenClosed (paper self) (paper_closed spec.new).fields) }
    {
        let PartitionSpecBuilder {
            spec_id,
            last_assigned_field_id,
            fields,
        } = self;
        spec.close(spec_id, last_assigned_field_id, &fields)
    }
}
