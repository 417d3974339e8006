// The check of a name, and what its refusals tell.
ghost use Rattle.std.specs.Result.{MatchResult};
ghost use Rattle.faults.specs.Rules.{FirstBroken};
ghost use Rattle.names.specs.GoodName.{GoodName};
ghost use Rattle.names.specs.NameRules.{name_rules, told};

use super::{MAX_LEN, NameFault};
use crate::utf8::check_utf8;
use faults::Fault;
use faults::error::{ErrorKind, Layer};
use faults::refusal::Refusal;

// Refuses with the first rule that the name breaks.
pub fn check_name(bytes: &[u8]) -> Result<(), NameFault>
    ensures { MatchResult result (λ _. GoodName bytes.now) (λ fault. FirstBroken (name_rules bytes.now) (told fault)) }
{
    if bytes.is_empty() {
        return Err(NameFault::Empty);
    }
    if bytes.len() > MAX_LEN {
        return Err(NameFault::Long);
    }
    check_utf8(bytes).map_err(|front| NameFault::NotUtf8 { front })
}

impl Fault for NameFault {
    ghost told = { told };

    fn refusal(&self) -> Refusal {
        let (number, reason, value) = match *self {
            NameFault::Empty => (1, "name-empty", None),
            NameFault::Long => (2, "name-long", None),
            NameFault::NotUtf8 { front } => (3, "name-not-utf8", Some(front)),
        };
        Refusal {
            value,
            ..Refusal::new(number, ErrorKind::DataInvalid, Layer::Name, reason)
        }
    }
}
