// A few drafts, built with no schema.
use crate::sort::{NullOrder, SortDirection, SortField, SortOrder, SortOrderBuilder};
use faults::Fault;
use std::alloc::{AllocError, Global};
use std::test::Fail;
use transforms::transform::Transform;

const BY_FIRST_COLUMN: SortField = SortField {
    source_id: 1,
    transform: Transform::Identity,
    direction: SortDirection::Ascending,
    null_order: NullOrder::First,
};

// The id of the order that the draft builds, or the number of the refusal.
fn built(heap: Global, draft: &SortOrderBuilder) -> Result<Result<i64, u8>, AllocError> {
    let mut order = SortOrder::new(heap)?;
    match draft.build_unbound(&mut order) {
        Ok(()) => Ok(Ok(order.order_id())),
        Err(fault) => Ok(Err(fault.number())),
    }
}

#[test]
fn zero_is_the_unsorted_orders_id(rt: HostRuntime) -> Result<(), Fail> {
    let mut draft = SortOrderBuilder::new(rt.alloc())?;
    draft.with_order_id(7);
    assert_eq!(rt; built(rt.alloc(), &draft)?, Err(31));
    draft.with_order_id(0);
    assert!(rt; draft.with_sort_field(BY_FIRST_COLUMN).is_ok());
    assert_eq!(rt; built(rt.alloc(), &draft)?, Err(32));
    Ok(())
}

#[test]
fn an_id_that_is_not_stated_is_one(rt: HostRuntime) -> Result<(), Fail> {
    let mut draft = SortOrderBuilder::new(rt.alloc())?;
    assert!(rt; draft.with_sort_field(BY_FIRST_COLUMN).is_ok());
    assert_eq!(rt; built(rt.alloc(), &draft)?, Ok(1));
    Ok(())
}
