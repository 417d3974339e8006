// A refusal as a value, whatever fault it comes from.
ghost use Rattle.std.specs.Prelude.{◌≡◌, Some};
ghost use Rattle.faults.specs.Refusals.{told_by, plain, refusal_text};

use crate::Fault;
use crate::error::{ErrorKind, Layer};
use std::fmt;

#[derive(Clone, Copy, Debug)]
pub struct Refusal {
    pub number: u8,
    pub kind: ErrorKind,
    pub layer: Layer,
    pub reason: &'static str,
    pub value: Option<usize>,
    pub index: Option<usize>,
}

impl Refusal {
    // A refusal with no value and no index.
    pub fn new(number: u8, kind: ErrorKind, layer: Layer, reason: &'static str) -> Refusal
        ensures { told_by result ≡ plain number kind layer reason.now }
    {
        Refusal {
            number,
            kind,
            layer,
            reason,
            value: None,
            index: None,
        }
    }
}

impl<F: Fault + Drop> From<F> for Refusal {
    ghost from_gives = { λ fault r. told_by r ≡ F.Fault.told fault };

    fn from(fault: F) -> Refusal {
        fault.refusal()
    }
}

// One line: the number, the kind, the layer, the reason, and the value and the index where there are any.
impl fmt::Display for Refusal {
    ghost output = { λ r. Some (refusal_text (told_by r)) };

    fn fmt<W: fmt::Write>(&self, f: &mut fmt::Formatter<W>) -> fmt::Result {
        write!(
            f,
            "refused {} {} {} {}",
            self.number, self.kind, self.layer, self.reason
        )?;
        if let Some(value) = self.value {
            write!(f, " {value}")?;
        }
        if let Some(index) = self.index {
            write!(f, " @{index}")?;
        }
        Ok(())
    }
}
