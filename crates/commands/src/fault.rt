// Why a line has no answer of its own.
ghost use Rattle.std.specs.Prelude.{◌≡◌, Some};
ghost use Rattle.commands.specs.Faults.{fault_text};
ghost use Rattle.commands.specs.declared.fault.ScriptFault.TheVariants.{Memory, BadCommand, Refused};

use faults::refusal::Refusal;
use std::alloc::{AllocError, AllocFailed};
use std::error::Error;
use std::fmt;
use std::num::ParseIntError;

#[derive(Clone, Copy, Debug)]
pub enum ScriptFault {
    Memory,
    // the line is no command of the language
    BadCommand,
    // what the line asks for is refused
    Refused(Refusal),
}

impl fmt::Display for ScriptFault {
    ghost output = { λ fault. Some (fault_text fault) };

    fn fmt<W: fmt::Write>(&self, f: &mut fmt::Formatter<W>) -> fmt::Result {
        match self {
            ScriptFault::Memory => f.write_str("out of memory"),
            ScriptFault::BadCommand => f.write_str("bad-command"),
            ScriptFault::Refused(refusal) => write!(f, "{refusal}"),
        }
    }
}

impl Error for ScriptFault {}

impl From<AllocError> for ScriptFault {
    ghost from_gives = { λ _ r. r ≡ Memory };

    fn from(_e: AllocError) -> ScriptFault {
        ScriptFault::Memory
    }
}

impl<T: Drop> From<AllocFailed<T>> for ScriptFault {
    ghost from_gives = { λ _ r. r ≡ Memory };

    fn from(_e: AllocFailed<T>) -> ScriptFault {
        ScriptFault::Memory
    }
}

impl From<Refusal> for ScriptFault {
    ghost from_gives = { λ refusal r. r ≡ Refused refusal };

    fn from(refusal: Refusal) -> ScriptFault {
        ScriptFault::Refused(refusal)
    }
}

impl From<ParseIntError> for ScriptFault {
    ghost from_gives = { λ _ r. r ≡ BadCommand };

    // a word that is no number where one must stand
    fn from(_e: ParseIntError) -> ScriptFault {
        ScriptFault::BadCommand
    }
}

impl From<fmt::Error> for ScriptFault {
    ghost from_gives = { λ _ r. r ≡ Memory };

    // text is written to memory, and fails for want of it alone
    fn from(_e: fmt::Error) -> ScriptFault {
        ScriptFault::Memory
    }
}
