// Why a text is refused.
ghost use Rattle.texts.specs.Tells.{told};

use faults::Fault;
use faults::error::{ErrorKind, Layer};
use faults::refusal::Refusal;

#[derive(Clone, Copy, PartialEq, Eq)]
pub enum TextFault {
    // no word of a transform stands there
    WordUnknown,
    // nothing is left between the brackets
    WidthMissing,
    // a byte that is no digit, or a lone plus
    WidthNonDigit,
    // a digit that takes the width past 32 bits
    WidthOverflow,
    // no transform prints so
    NotPrinted,
}

impl Fault for TextFault {
    ghost told = { told };

    fn refusal(&self) -> Refusal {
        let (number, reason) = match *self {
            TextFault::WordUnknown => (4, "word-unknown"),
            TextFault::WidthMissing => (5, "width-missing"),
            TextFault::WidthNonDigit => (6, "width-non-digit"),
            TextFault::WidthOverflow => (7, "width-overflow"),
            TextFault::NotPrinted => (13, "not-printed"),
        };
        Refusal::new(number, ErrorKind::DataInvalid, Layer::Text, reason)
    }
}
