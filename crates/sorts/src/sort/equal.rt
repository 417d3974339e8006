// Equality of orders.
ghost use Rattle.std.specs.Prelude.{◌≡◌, Decides};
ghost use Rattle.std.specs.Cmp.{and_per, on_per, partial_equiv_from_equiv, int_eq_equiv};
ghost use Rattle.std.specs.Cmp.Lexicographic.{lists_per};
ghost use Rattle.sorts.specs.contracts.sort.SortFieldPartialEq.TheImpl.Laws.{laws-law};
ghost use Rattle.sorts.specs.Drafts.{order_of};
ghost use Rattle.sorts.specs.Equals.{order_eq, OrdersAreEqualExactlyWhenTheSame};

use super::SortOrder;

// kept: no plainer, because a derived `==` promises its `value` alone, and `decides` and `exactly` may not go
impl PartialEq for SortOrder {
    ghost eq = { order_eq };

    ghost laws = { and_per (on_per (λ o. o.order_id) (partial_equiv_from_equiv int_eq_equiv)) (on_per (λ o. o.fields) (lists_per laws-law)) };

    #[tactic(auto, using(crate::proofs::Equality::orders_decided))]
    fn eq(&self, other: &SortOrder) -> bool
        ensures value { result ≡ order_eq self.now other.now }
        ensures decides { Decides result (order_of self.now ≡ order_of other.now) }
        ensures exactly { OrdersAreEqualExactlyWhenTheSame }
    {
        self.order_id == other.order_id && self.fields() == other.fields()
    }
}
