// A closed spec's record is that of its opened form.
ghost use Rattle.closed.specs.Closed.{paper_closed};

use crate::spec::PartitionSpec;
use partitions::field::UnboundPartitionField;
use records::recorded::Recorded;

impl Recorded for PartitionSpec {
    ghost plan = { paper_closed };

    fn recorded_id(&self) -> Option<i32> {
        Some(self.spec_id())
    }

    fn entry_count(&self) -> usize {
        self.fields().len()
    }

    fn entry_at(&self, index: usize) -> Option<UnboundPartitionField> {
        self.fields()
            .get(index)
            .map(|field| UnboundPartitionField::from(*field))
    }
}
