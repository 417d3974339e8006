// What a selection shows: the columns of its ids.
ghost use Rattle.schemas.specs.Selected.{selected};
ghost use Rattle.schemas.specs.Sound.{selected_sound};

use super::Selection;
use super::select::is_among;
use crate::schema::{Column, Schema};

impl<'a, S: Schema> Schema for Selection<'a, S> {
    ghost columns = { λ s. selected s.ids (S.Schema.columns s.under.now) };

    ghost sound = { λ s. selected_sound s.ids (S.Schema.columns s.under.now) (S.Schema.sound s.under.now) };

    fn field_by_id(&self, id: i32) -> Option<Column> {
        let ids = self.ids.as_slice();
        // the few ids are asked first, since what lies under may be long
        is_among(ids, id)
            .then(|| self.under.field_by_id(id))
            .flatten()
    }

    fn id_by_name(&self, name: &[u8]) -> Option<i32> {
        let ids = self.ids.as_slice();
        self.under.id_by_name(name).filter(|id| is_among(ids, *id))
    }
}
