// Why a record is not written or not read.
ghost use Rattle.records.specs.RecordFaults.{entry_told, record_told};

use faults::Fault;
use faults::error::{ErrorKind, Layer};
use faults::refusal::Refusal;
use names::name::NameFault;
use texts::fault::TextFault;

// What is wrong with an entry.
#[derive(Clone, Copy)]
pub enum EntryFault {
    // against the rules of an entry, or into the trailer
    Malformed,
    Text(TextFault),
    Name(NameFault),
    // the entry at the index has the name
    NameUsed { index: usize },
    // the entry at the index has the source and an alike transform
    Alike { index: usize },
    IdUsed,
}

#[derive(Clone, Copy)]
pub enum RecordFault {
    TrailerWrong,
    // the output is shorter than the record
    MemoryShort,
    Entry { index: usize, fault: EntryFault },
}

impl Fault for EntryFault {
    ghost told = { entry_told };

    fn refusal(&self) -> Refusal {
        let (number, reason, value) = match *self {
            EntryFault::Text(fault) => return fault.refusal(),
            EntryFault::Name(fault) => return fault.refusal(),
            EntryFault::Malformed => (11, "entry-wrong", None),
            EntryFault::NameUsed { index } => (20, "name-used", Some(index)),
            EntryFault::Alike { index } => (21, "alike", Some(index)),
            EntryFault::IdUsed => (27, "id-used", None),
        };
        Refusal {
            value,
            ..Refusal::new(number, ErrorKind::DataInvalid, Layer::Record, reason)
        }
    }
}

impl Fault for RecordFault {
    ghost told = { record_told };

    fn refusal(&self) -> Refusal {
        let (number, reason) = match *self {
            RecordFault::Entry { index, fault } => {
                return Refusal {
                    layer: Layer::Record,
                    index: Some(index),
                    ..fault.refusal()
                };
            }
            RecordFault::TrailerWrong => (10, "trailer-wrong"),
            RecordFault::MemoryShort => (12, "memory-short"),
        };
        Refusal::new(number, ErrorKind::DataInvalid, Layer::Record, reason)
    }
}
