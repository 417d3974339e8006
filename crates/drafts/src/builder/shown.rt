// What a draft holds.
ghost use Rattle.std.specs.Prelude.{◌≡◌};
ghost use Rattle.partitions.specs.Buildable.{Buildable};
ghost use Rattle.partitions.specs.Views.{papers};
ghost use Rattle.drafts.specs.Drafts.{paper};
ghost use Rattle.drafts.specs.Laws.{FitOnEverySuitingSchema};

use super::PartitionSpecBuilder;
use partitions::field::UnboundPartitionField;

impl PartitionSpecBuilder {
    pub fn spec_id(&self) -> i32
        ensures { result ≡ (paper self.now).spec_id }
    {
        self.spec_id
    }

    pub fn last_assigned_field_id(&self) -> i32
        ensures { result ≡ (paper self.now).start }
    {
        self.last_assigned_field_id
    }

    // Whatever calls led to the draft, its fields fit each schema that shows what the passed ones showed.
    pub fn fields(&self) -> &[UnboundPartitionField]
        ensures same { papers result.now ≡ (paper self.now).fields }
        ensures buildable { Buildable (papers result.now) }
        ensures fit { FitOnEverySuitingSchema (paper self.now) }
    {
        self.fields.as_slice()
    }
}
