// The checks of a new field against those that are there, written once for every holder of fields.
ghost use Rattle.std.specs.Prelude.{◌≡◌, List, length};
ghost use Rattle.std.specs.List.{slice_get};
ghost use Rattle.std.specs.Option.{option_map};
ghost use Rattle.partitions.specs.AddRules.{Judged, used_rules, last_rules};
ghost use Rattle.partitions.specs.Fields.{PaperField, Named, AlikeOn, HasId};
ghost use Rattle.partitions.specs.Places.{Finds, Tells};
ghost use Rattle.partitions.specs.Views.{seen};

use crate::fault::DraftFault;
use crate::field::FieldView;
use crate::sought::{AlikeTo, Called, Sought, WithId};
use transforms::transform::Transform;

// The most fields that a spec may have.
pub const MAX_FIELDS: usize = 64;

pub trait CorePartitionSpecValidator {
    // the fields that it holds, in their order
    ghost held: { Self → List PaperField };

    fn field_count(&self) -> usize
        ensures { result ≡ length (held self.now) };

    // None past the end.
    fn field_at(&self, index: usize) -> Option<FieldView<'_>>
        ensures { option_map seen result ≡ slice_get (held self.now) index };

    // The index of the first field that is sought.
    fn first<S: Sought>(&self, sought: &S) -> Option<usize>
        ensures { Finds (S.Sought.meets sought.now) (held self.now) result }
    {
        (0..self.field_count()).find(|index| {
            self.field_at(*index).is_some_and(|field| sought.is(&field))
        })
    }

    // The index of the first field with the name.
    fn name_used(&self, name: &[u8]) -> Option<usize>
        ensures { Finds (Named name.now) (held self.now) result }
    {
        self.first(&Called(name))
    }

    // The index of the first field on the source whose transform is alike.
    fn alike_used(&self, source_id: i32, transform: Transform) -> Option<usize>
        ensures { Finds (AlikeOn source_id transform) (held self.now) result }
    {
        self.first(&AlikeTo {
            source_id,
            transform,
        })
    }

    // Whether a field has the id.
    fn id_used(&self, field_id: i32) -> bool
        ensures { Tells (HasId field_id) (held self.now) result }
    {
        self.first(&WithId(field_id)).is_some()
    }

    // Whether a new field's name, or its source with an alike transform, is in use.
    fn check_used(&self, field: &FieldView<'_>) -> Result<(), DraftFault>
        ensures { Judged (used_rules (held self.now) (seen field.now)) result }
    {
        if let Some(index) = self.name_used(field.name) {
            return Err(DraftFault::NameUsed { index });
        }
        if let Some(index) = self.alike_used(field.source_id, field.transform) {
            return Err(DraftFault::Alike { index });
        }
        Ok(())
    }

    // Whether a new field's stated id is in use, and whether there is room for the field.
    fn check_last(&self, field: &FieldView<'_>) -> Result<(), DraftFault>
        ensures { Judged (last_rules (held self.now) (seen field.now)) result }
    {
        if let Some(field_id) = field.field_id {
            if self.id_used(field_id) {
                return Err(DraftFault::IdUsed);
            }
        }
        if self.field_count() >= MAX_FIELDS {
            return Err(DraftFault::Full);
        }
        Ok(())
    }
}
