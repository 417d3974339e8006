// Orders: made and asked.
ghost use Rattle.std.specs.Prelude.{◌≡◌, ◌≤◌, length, IfOk, Decides};
ghost use Rattle.sorts.specs.Drafts.{order_of, unsorted};
ghost use Rattle.sorts.specs.Zero.{ZeroIsUnsorted};

use super::{SortField, SortOrder};
use bounded::Bounded;
use std::alloc::{AllocError, Global};

impl SortOrder {
    // The unsorted order, with room for the fields of any other.
    pub fn new(heap: Global) -> Result<SortOrder, AllocError>
        ensures { IfOk result (λ order. order_of order ≡ unsorted) }
    {
        let fields = Bounded::new(heap)?;
        Ok(SortOrder {
            order_id: 0,
            fields,
        })
    }

    pub fn order_id(&self) -> i64
        ensures id { result ≡ (order_of self.now).id }
        ensures zero { ZeroIsUnsorted result (order_of self.now).fields }
    {
        self.order_id
    }

    pub fn fields(&self) -> &[SortField]
        ensures fields { result.now ≡ (order_of self.now).fields }
        ensures few { length result.now ≤ 64 }
    {
        self.fields.as_slice()
    }

    pub fn is_unsorted(&self) -> bool
        ensures { Decides result (order_of self.now ≡ unsorted) }
    {
        self.fields.is_empty()
    }
}
