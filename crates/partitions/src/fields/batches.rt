// Fields are added by the batch, all or none.
ghost use Rattle.partitions.specs.Batches.{entry, entries_of, AddsEntry, AddsAll};
ghost use Rattle.partitions.specs.Listed.{listed};

use super::FieldList;
use crate::batch::{Batch, BatchCause, BatchFault, BatchField};
use crate::validator::CorePartitionSpecValidator;
use crate::ways::Adding;

impl FieldList {
    // Each field is checked after those before it; where one is refused, none stays.
    pub fn add_all<A: Adding>(&mut self, adding: &A, batch: &Batch<'_>) -> Result<(), BatchFault>
        ensures { AddsAll (A.Adding.rules adding.now) (listed self.old) (entries_of batch.now) result (listed self.new) }
    {
        let count = self.field_count();
        for (index, field) in batch.fields.iter().enumerate() {
            // kept: no plainer with `?`, since the fields are put back before the refusal goes on
            if let Err(cause) = self.add_entry(adding, field, batch.area) {
                self.truncate(count);
                return Err(BatchFault { index, cause });
            }
        }
        Ok(())
    }

    fn add_entry<A: Adding>(
        &mut self,
        adding: &A,
        field: &BatchField,
        area: &[u8],
    ) -> Result<(), BatchCause>
        ensures { AddsEntry (A.Adding.rules adding.now) (listed self.old) (entry area.now field.now) result (listed self.new) }
    {
        let field = field.view(area).ok_or(BatchCause::PlaceOutside)?;
        adding.add_to(self, &field)?;
        Ok(())
    }
}
