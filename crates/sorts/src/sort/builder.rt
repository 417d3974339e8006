// Drafts of orders: stated piece by piece, then built.
ghost use Rattle.std.specs.Prelude.{◌≡◌, IfOk, OnOk};
ghost use Rattle.faults.specs.Rules.{AllKept};
ghost use Rattle.sorts.specs.Drafts.{draft_of, order_of, blank, stated, closed, Adds, Builds, BuildsOn};
ghost use Rattle.sorts.specs.Promises.{FitOnEverySchemaThatShowsTheSame, SameAnswerOnEverySchemaThatShowsTheSame};
ghost use Rattle.sorts.specs.SortRules.{order_rules};

use super::check::{check_fields, check_order_id};
use super::{SortFault, SortField, SortOrder, SortOrderBuilder};
use bounded::Bounded;
use schemas::schema::Schema;
use std::alloc::{AllocError, Global};

impl SortOrderBuilder {
    // All the memory is taken here: no later call wants any.
    pub fn new(heap: Global) -> Result<SortOrderBuilder, AllocError>
        ensures { IfOk result (λ draft. draft_of draft ≡ blank) }
    {
        let fields = Bounded::new(heap)?;
        Ok(SortOrderBuilder {
            order_id: None,
            fields,
        })
    }

    pub fn with_order_id(&mut self, order_id: i64)
        ensures { draft_of self.new ≡ stated order_id (draft_of self.old) }
    {
        self.order_id = Some(order_id);
    }

    // Adds the field behind the others, where there is room.
    pub fn with_sort_field(&mut self, field: SortField) -> Result<(), SortFault>
        ensures { Adds field (draft_of self.old) (draft_of self.new) result }
    {
        self.fields.push(field).map_err(|_| SortFault::Full)
    }

    // Fills the order, whatever the schema.
    pub fn build_unbound(&self, order: &mut SortOrder) -> Result<(), SortFault>
        ensures { Builds (draft_of self.now) (order_of order.old) (order_of order.new) result }
    {
        check_order_id(self.order_id, self.fields.as_slice())?;
        self.fill(order);
        Ok(())
    }

    // Fills the order, where each field suits the schema.
    #[tactic(auto, using(crate::proofs::Fitting::fit_on_every))]
    pub fn build<S: Schema>(&self, schema: &S, order: &mut SortOrder) -> Result<(), SortFault>
        ensures built { BuildsOn (S.Schema.columns schema.now) (draft_of self.now) (order_of order.old) (order_of order.new) result }
        ensures fit { OnOk result (FitOnEverySchemaThatShowsTheSame (S.Schema.columns schema.now) (order_of order.new)) }
        ensures alike { SameAnswerOnEverySchemaThatShowsTheSame (S.Schema.columns schema.now) (draft_of self.now) result }
    {
        let fields = self.fields.as_slice();
        check_order_id(self.order_id, fields)?;
        check_fields(fields, schema)?;
        self.fill(order);
        Ok(())
    }

    #[tactic(auto, using(crate::proofs::Zeros::zero_after))]
    fn fill(&self, order: &mut SortOrder)
        requires { AllKept (order_rules (draft_of self.now).id (draft_of self.now).fields) }
        ensures { order_of order.new ≡ closed (draft_of self.now) }
    {
        order.order_id = self.closing_id();
        order.fields.copy_from(&self.fields);
    }

    // An id that is not stated is 1, or 0 where there are no fields.
    fn closing_id(&self) -> i64
        ensures { result ≡ (closed (draft_of self.now)).id }
    {
        let unstated = if self.fields.is_empty() { 0 } else { 1 };
        self.order_id.unwrap_or(unstated)
    }
}
