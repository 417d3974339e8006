// Why a call on a draft is refused.
ghost use Rattle.std.specs.Prelude.{◌≡◌};
ghost use Rattle.partitions.specs.DraftFaults.{told};
ghost use Rattle.partitions.specs.declared.fault.DraftFault.TheVariants.{Name};

use faults::Fault;
use faults::error::{ErrorKind, Layer};
use faults::refusal::Refusal;
use names::name::NameFault;

#[derive(Clone, Copy)]
pub enum DraftFault {
    Name(NameFault),
    // the field at the index has the name
    NameUsed { index: usize },
    // the field at the index has the source and an alike transform
    Alike { index: usize },
    NamedAsOtherColumn,
    NamedAsColumn,
    SourceUnknown,
    SourceNotPrimitive,
    SourceUnfit,
    IdUsed,
    Full,
    NoNumber,
    SourceNameUnknown,
    SourceMarked,
}

impl Fault for DraftFault {
    ghost told = { told };

    fn refusal(&self) -> Refusal {
        let (number, reason, value) = match *self {
            DraftFault::Name(fault) => return fault.refusal(),
            DraftFault::NameUsed { index } => (20, "name-used", Some(index)),
            DraftFault::Alike { index } => (21, "alike", Some(index)),
            DraftFault::NamedAsOtherColumn => (22, "identity-named-as-other-column", None),
            DraftFault::NamedAsColumn => (23, "named-as-column", None),
            DraftFault::SourceUnknown => (24, "source-unknown", None),
            DraftFault::SourceNotPrimitive => (25, "source-not-primitive", None),
            DraftFault::SourceUnfit => (26, "source-unfit", None),
            DraftFault::IdUsed => (27, "id-used", None),
            DraftFault::Full => (28, "full", None),
            DraftFault::NoNumber => (29, "no-number", None),
            DraftFault::SourceNameUnknown => (30, "source-name-unknown", None),
            DraftFault::SourceMarked => (33, "source-marked", None),
        };
        let kind = match *self {
            DraftFault::Full => ErrorKind::PreconditionFailed,
            _ => ErrorKind::DataInvalid,
        };
        Refusal {
            value,
            ..Refusal::new(number, kind, Layer::Draft, reason)
        }
    }
}

impl From<NameFault> for DraftFault {
    ghost from_gives = { λ fault r. r ≡ Name fault };

    fn from(fault: NameFault) -> DraftFault {
        DraftFault::Name(fault)
    }
}
