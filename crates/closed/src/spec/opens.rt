// Opening: a closed spec as an unbound one, which states every id.
ghost use Rattle.std.specs.Prelude.{◌≡◌};
ghost use Rattle.partitions.specs.Specs.{paper_spec};
ghost use Rattle.closed.specs.Closed.{paper_closed};

use super::PartitionSpec;
use partitions::field::UnboundPartitionField;
use partitions::spec::UnboundPartitionSpec;

impl PartitionSpec {
    // Fills the caller's spec. Fields of a closed spec are never refused.
    pub fn to_unbound(&self, unbound: &mut UnboundPartitionSpec)
        ensures { paper_spec unbound.new ≡ paper_closed self.now }
    {
        unbound.restart(Some(self.spec_id));
        let fields = self.fields();
        for field in fields {
            let _ = unbound.add_partition_field(&UnboundPartitionField::from(*field).view());
        }
    }

    pub fn into_unbound(self, unbound: &mut UnboundPartitionSpec)
        ensures { paper_spec unbound.new ≡ paper_closed self }
    {
        self.to_unbound(unbound);
    }
}
