// Fields are added one by one, each checked against those before it.
ghost use Rattle.std.specs.Prelude.{◌≡◌, [], take, IfOk};
ghost use Rattle.names.specs.NameBytes.{name_bytes};
ghost use Rattle.partitions.specs.AddRules.{Judged, add_rules};
ghost use Rattle.partitions.specs.Adds.{Adds};
ghost use Rattle.partitions.specs.Buildable.{Buildable, BuildableExactlyWhenBuilt};
ghost use Rattle.partitions.specs.Listed.{listed};
ghost use Rattle.partitions.specs.Views.{papers, seen};

use super::FieldList;
use crate::fault::DraftFault;
use crate::field::{FieldView, UnboundPartitionField};
use crate::validator::CorePartitionSpecValidator;
use bounded::Bounded;
use names::name::Name;
use std::alloc::{AllocError, Global};

impl FieldList {
    // No fields, and room for the most.
    pub fn new(heap: Global) -> Result<FieldList, AllocError>
        ensures { IfOk result (λ l. listed l ≡ []) }
    {
        let fields = Bounded::new(heap)?;
        Ok(FieldList { fields })
    }

    // Refuses with the first rule that the field breaks beside those that are there; else it stands at the end.
    pub fn add(&mut self, field: &FieldView<'_>) -> Result<(), DraftFault>
        ensures { Adds (listed self.old) (seen field.now) result (listed self.new) }
    {
        let name = self.check(field)?;
        self.fields
            .push(UnboundPartitionField {
                source_id: field.source_id,
                field_id: field.field_id,
                name,
                transform: field.transform,
            })
            .map_err(|_| DraftFault::Full)
    }

    // No fields; the room stays.
    pub fn clear(&mut self)
        ensures { listed self.new ≡ [] }
    {
        self.fields.clear();
    }

    // Whatever the list has become, it is one that adds can make.
    // kept: no plainer: `buildable` stands wherever fields are handed out (here, of specs, drafts, closed specs and plans), and a
    // type of slice of its own would be unwrapped at each use
    pub fn as_slice(&self) -> &[UnboundPartitionField]
        ensures same { papers result.now ≡ listed self.now }
        ensures buildable { Buildable (papers result.now) }
        ensures law { BuildableExactlyWhenBuilt }
    {
        self.fields.as_slice()
    }

    // The name to keep of a field that breaks no rule.
    fn check(&self, field: &FieldView<'_>) -> Result<Name, DraftFault>
        ensures rules { Judged (add_rules (listed self.now) (seen field.now)) result }
        ensures name { IfOk result (λ kept. name_bytes kept ≡ (seen field.now).name) }
    {
        let kept = Name::new(field.name)?;
        self.check_used(field)?;
        self.check_last(field)?;
        Ok(kept)
    }

    // Keeps the first `count` fields.
    pub fn truncate(&mut self, count: usize)
        ensures { listed self.new ≡ take count (listed self.old) }
    {
        self.fields.truncate(count);
    }
}

impl CorePartitionSpecValidator for FieldList {
    ghost held = { listed };

    fn field_count(&self) -> usize {
        self.fields.len()
    }

    fn field_at(&self, index: usize) -> Option<FieldView<'_>> {
        self.fields.as_slice().get(index).map(|field| field.view())
    }
}
