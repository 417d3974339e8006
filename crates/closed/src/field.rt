// Partition fields that have their ids.
ghost use Rattle.std.specs.Prelude.{◌≡◌, Decides};
ghost use Rattle.partitions.specs.Views.{paper_field};
ghost use Rattle.transforms.specs.declared.transform.Transform.TheVariants.{Void};
ghost use Rattle.closed.specs.Bare.{bare};
ghost use Rattle.closed.specs.Opened.{opened};
ghost use Rattle.closed.specs.Equals.{field_eq, FieldsAreEqualExactlyWhenTheSame};
ghost use Rattle.closed.specs.EqualLaws.{field_eq_laws};

use names::name::Name;
use numbering::Identified;
use partitions::field::UnboundPartitionField;
use transforms::transform::Transform;

// kept: no plainer as one generic Field<Id, Name> with unbound fields, views and fields of batches: each has methods and impls
// of its own, which such a type would have at one instance only, and another crate than its own could give it none
#[derive(Clone, Copy)]
pub struct PartitionField {
    pub source_id: i32,
    pub field_id: i32,
    pub name: Name,
    pub transform: Transform,
}

impl PartitionField {
    // Whether both have one source, one name and one transform, whatever their ids.
    pub fn is_compatible_with(&self, other: &PartitionField) -> bool
        ensures { Decides result (bare (opened self.now) ≡ bare (opened other.now)) }
    {
        self.source_id == other.source_id
            && self.name == other.name
            && self.transform == other.transform
    }

    pub fn is_void(&self) -> bool
        ensures { Decides result ((opened self.now).transform ≡ Void) }
    {
        self.transform == Transform::Void
    }
}

// The field of a draft that states the id.
impl From<PartitionField> for UnboundPartitionField {
    ghost from_gives = { λ f r. paper_field r ≡ opened f };

    fn from(field: PartitionField) -> UnboundPartitionField {
        UnboundPartitionField {
            source_id: field.source_id,
            field_id: Some(field.field_id),
            name: field.name,
            transform: field.transform,
        }
    }
}

// kept: no plainer: a derived `==` promises `value` alone, and `decides` and `exactly` must stay
impl PartialEq for PartitionField {
    ghost eq = { field_eq };

    ghost laws = { field_eq_laws };

    fn eq(&self, other: &PartitionField) -> bool
        ensures value { result ≡ field_eq self.now other.now }
        ensures decides { Decides result (opened self.now ≡ opened other.now) }
        ensures exactly { FieldsAreEqualExactlyWhenTheSame }
    {
        self.field_id == other.field_id && self.is_compatible_with(other)
    }
}

impl Identified<i32> for PartitionField {
    ghost id = { λ f. f.field_id };

    fn field_id(&self) -> i32 {
        self.field_id
    }
}
