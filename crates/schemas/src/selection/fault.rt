// What the refusal of an id tells.
ghost use Rattle.schemas.specs.SelectRules.{told};

use super::SelectionFault;
use faults::Fault;
use faults::error::{ErrorKind, Layer};
use faults::refusal::Refusal;

impl Fault for SelectionFault {
    ghost told = { told };

    fn refusal(&self) -> Refusal {
        match self {
            SelectionFault::Full => Refusal::new(
                34,
                ErrorKind::PreconditionFailed,
                Layer::Selection,
                "selection-full",
            ),
        }
    }
}
