// Closing: the fields of a draft get the ids that they lack.
ghost use Rattle.std.specs.Prelude.{◌≡◌, ◌≤◌, length, take};
ghost use Rattle.partitions.specs.Listed.{listed};
ghost use Rattle.partitions.specs.Views.{papers};
ghost use Rattle.closed.specs.Bare.{bares};
ghost use Rattle.closed.specs.Closed.{paper_closed, closed_ids};
ghost use Rattle.closed.specs.Closing.{Closes, ClosingLaws};
ghost use Rattle.closed.specs.Opened.{openeds, ids_of};

use super::PartitionSpec;
use crate::field::PartitionField;
use bounded::Bounded;
use numbering::number;
use partitions::fault::DraftFault;
use partitions::field::UnboundPartitionField;
use partitions::fields::FieldList;
use partitions::validator::MAX_FIELDS;

impl PartitionSpec {
    // Becomes the draft's fields, with the id that is passed. A field without an id gets its least permitted number,
    // counted from `start`; where one has none the spec is as it was.
    pub fn close(&mut self, spec_id: i32, start: i32, fields: &FieldList) -> Result<(), DraftFault>
        ensures answer { Closes spec_id start (listed fields.now) self.old self.new result }
        ensures laws { ClosingLaws start (listed fields.now) (paper_closed self.new).fields (closed_ids self.new) result }
    {
        let fields = fields.as_slice();
        // kept: fixed memory, filled by `number` from the front
        let mut ids = [0i32; MAX_FIELDS];
        number(start, fields, &mut ids).map_err(|_| DraftFault::NoNumber)?;
        fill(&mut self.fields, fields, &ids);
        self.spec_id = spec_id;
        Ok(())
    }
}

// The fields, each with its id.
fn fill(
    closed: &mut Bounded<PartitionField, MAX_FIELDS>,
    fields: &[UnboundPartitionField],
    ids: &[i32],
)
    requires few { length fields.now ≤ 64 }
    requires enough { length fields.now ≤ length ids.now }
    ensures len { length closed.new ≡ length fields.now }
    ensures rest { bares (openeds closed.new) ≡ bares (papers fields.now) }
    ensures ids { ids_of closed.new ≡ take (length fields.now) ids.now }
{
    closed.clear();
    for (field, id) in fields.iter().zip(ids) {
        // there is room, so this is never refused
        let _ = closed.push(PartitionField {
            source_id: field.source_id,
            field_id: *id,
            name: field.name,
            transform: field.transform,
        });
    }
}
