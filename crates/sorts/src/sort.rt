// Sort fields, drafts of sort orders, and sort orders.
ghost use Rattle.std.specs.Prelude.{◌≤◌, length};
ghost use Rattle.sorts.specs.Zero.{ZeroIsUnsorted};

use bounded::Bounded;
use transforms::transform::Transform;

mod builder;
mod check;
mod equal;
mod fault;
mod order;
mod renumber;

// The most fields of an order.
pub const MAX_FIELDS: usize = 64;

#[derive(Clone, Copy, PartialEq, Eq)]
pub enum SortDirection {
    Ascending,
    Descending,
}

#[derive(Clone, Copy, PartialEq, Eq)]
pub enum NullOrder {
    First,
    Last,
}

#[derive(Clone, Copy, PartialEq, Eq)]
pub struct SortField {
    pub source_id: i32,
    pub transform: Transform,
    pub direction: SortDirection,
    pub null_order: NullOrder,
}

#[derive(Clone, Copy, PartialEq, Eq)]
pub enum SortFault {
    // the schema has no column of the source's id
    SourceUnknown,
    SourceNotPrimitive,
    // the transform makes nothing of the source's type
    SourceUnfit,
    Full,
    IdWithoutFields,
    ZeroWithFields,
}

// A draft of an order: its id is stated or not.
#[derive(Drop)]
pub struct SortOrderBuilder {
    order_id: Option<i64>,
    fields: Bounded<SortField, MAX_FIELDS>,
    ghost few: { length fields ≤ 64 },
}

// The rows stand by the first field, those that are equal there by the second, and so on.
#[derive(Drop)]
pub struct SortOrder {
    order_id: i64,
    fields: Bounded<SortField, MAX_FIELDS>,
    ghost few: { length fields ≤ 64 },
    ghost zero: { ZeroIsUnsorted order_id fields },
}
