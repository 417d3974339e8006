// Partition fields: as a draft keeps them, and as a holder of fields shows them.
ghost use Rattle.std.specs.Prelude.{◌≡◌, Decides};
ghost use Rattle.partitions.specs.Views.{paper_field, seen};
ghost use Rattle.partitions.specs.Equals.{field_eq, FieldsAreEqualExactlyWhenTheSame};
ghost use Rattle.partitions.specs.EqualLaws.{field_eq_laws};

use names::name::Name;
use numbering::Identified;
use transforms::transform::Transform;

// A partition field as a draft keeps it: its id is stated or not.
#[derive(Clone, Copy)]
pub struct UnboundPartitionField {
    pub source_id: i32,
    pub field_id: Option<i32>,
    pub name: Name,
    pub transform: Transform,
}

// A partition field as it is seen in whatever holds it.
#[derive(Clone, Copy)]
pub struct FieldView<'a> {
    pub source_id: i32,
    pub field_id: Option<i32>,
    pub name: &'a [u8],
    pub transform: Transform,
}

impl UnboundPartitionField {
    // kept: no plainer by From: an impl for a reference has to name its lifetime, and `view` needs none
    pub fn view(&self) -> FieldView<'_>
        ensures { seen result ≡ paper_field self.now }
    {
        FieldView {
            source_id: self.source_id,
            field_id: self.field_id,
            name: self.name.as_bytes(),
            transform: self.transform,
        }
    }
}

// kept: no plainer: a derived `==` promises `value` alone, and `decides` and `exactly` must stay
impl PartialEq for UnboundPartitionField {
    ghost eq = { field_eq };

    ghost laws = { field_eq_laws };

    #[tactic(auto, using(crate::proofs::Same::fields_decided))]
    fn eq(&self, other: &UnboundPartitionField) -> bool
        ensures value { result ≡ field_eq self.now other.now }
        ensures decides { Decides result (paper_field self.now ≡ paper_field other.now) }
        ensures exactly { FieldsAreEqualExactlyWhenTheSame }
    {
        self.source_id == other.source_id
            && self.field_id == other.field_id
            && self.name == other.name
            && self.transform == other.transform
    }
}

impl Identified<Option<i32>> for UnboundPartitionField {
    ghost id = { λ f. f.field_id };

    fn field_id(&self) -> Option<i32> {
        self.field_id
    }
}
