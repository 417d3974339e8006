// Selecting ids, one by one.
ghost use Rattle.std.specs.Prelude.{◌≡◌, [], IfOk};
ghost use Rattle.schemas.specs.Ids.{has};
ghost use Rattle.schemas.specs.SelectRules.{Selects};

use super::{Selection, SelectionFault};
use crate::schema::Schema;
use bounded::Bounded;
use std::alloc::{AllocError, Global};

impl<'a, S: Schema> Selection<'a, S> {
    // Nothing is selected at first.
    pub fn new(heap: Global, under: &'a S) -> Result<Selection<'a, S>, AllocError>
        ensures { IfOk result (λ s. (s.ids ≡ []) × (s.under.now ≡ under.now)) }
    {
        let ids = Bounded::new(heap)?;
        Ok(Selection { under, ids })
    }

    // An id that is selected already is accepted without change, even where there is no room.
    pub fn select(&mut self, id: i32) -> Result<(), SelectionFault>
        ensures selects { Selects self.old.ids id self.new.ids result }
        ensures under { self.new.under ≡ self.old.under }
    {
        if is_among(self.ids.as_slice(), id) {
            return Ok(());
        }
        self.ids.push(id).map_err(|_| SelectionFault::Full)
    }
}

pub(super) fn is_among(ids: &[i32], id: i32) -> bool
    ensures { result ≡ has ids.now id }
{
    ids.contains(&id)
}
