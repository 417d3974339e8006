// What the refusal of a draft or an order tells.
ghost use Rattle.sorts.specs.SortRules.{told};

use super::SortFault;
use faults::Fault;
use faults::error::{ErrorKind, Layer};
use faults::refusal::Refusal;

impl Fault for SortFault {
    ghost told = { told };

    fn refusal(&self) -> Refusal {
        let (number, reason) = match *self {
            SortFault::SourceUnknown => (24, "source-unknown"),
            SortFault::SourceNotPrimitive => (25, "source-not-primitive"),
            SortFault::SourceUnfit => (26, "source-unfit"),
            SortFault::Full => (28, "full"),
            SortFault::IdWithoutFields => (31, "sort-id-without-fields"),
            SortFault::ZeroWithFields => (32, "sort-id-zero-with-fields"),
        };
        let kind = match *self {
            SortFault::Full => ErrorKind::PreconditionFailed,
            _ => ErrorKind::Unexpected,
        };
        Refusal::new(number, kind, Layer::Sort, reason)
    }
}
