// Another id for an order.
ghost use Rattle.sorts.specs.Drafts.{order_of, Renumbers};

use super::check::check_order_id;
use super::{SortFault, SortOrder};

impl SortOrder {
    // Refuses where 0 would then not be the unsorted order's alone.
    pub fn with_order_id(&mut self, order_id: i64) -> Result<(), SortFault>
        ensures { Renumbers order_id (order_of self.old) (order_of self.new) result }
    {
        check_order_id(Some(order_id), self.fields.as_slice())?;
        self.order_id = order_id;
        Ok(())
    }
}
