// What a field can be sought by among those that are there.
ghost use Rattle.std.specs.Prelude.{Decides};
ghost use Rattle.partitions.specs.Fields.{PaperField, Named, AlikeOn, HasId};
ghost use Rattle.partitions.specs.Views.{seen};

use crate::field::FieldView;
use transforms::transform::Transform;

pub trait Sought {
    // of which fields it holds
    ghost meets: { Self → PaperField → Type 0 };

    fn is(&self, field: &FieldView<'_>) -> bool
        ensures { Decides result (meets self.now (seen field.now)) };
}

// A name.
#[derive(Clone, Copy)]
pub struct Called<'a>(pub &'a [u8]);

// A source, and a transform that it may not have beside an alike one.
#[derive(Clone, Copy)]
pub struct AlikeTo {
    pub source_id: i32,
    pub transform: Transform,
}

// An id that is stated.
#[derive(Clone, Copy)]
pub struct WithId(pub i32);

impl Sought for Called<'_> {
    ghost meets = { λ s f. Named s.0.now f };

    fn is(&self, field: &FieldView<'_>) -> bool {
        field.name == self.0
    }
}

impl Sought for AlikeTo {
    ghost meets = { λ s f. AlikeOn s.source_id s.transform f };

    fn is(&self, field: &FieldView<'_>) -> bool {
        field.source_id == self.source_id && field.transform.alike(&self.transform)
    }
}

impl Sought for WithId {
    ghost meets = { λ s f. HasId s.0 f };

    fn is(&self, field: &FieldView<'_>) -> bool {
        field.field_id == Some(self.0)
    }
}
