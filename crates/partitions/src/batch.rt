// A batch of fields to add, whose names lie in one area of bytes, and why a batch is refused.
ghost use Rattle.std.specs.Prelude.{◌≡◌};
ghost use Rattle.std.specs.Option.{option_map};
ghost use Rattle.partitions.specs.BatchFaults.{cause_told, batch_told};
ghost use Rattle.partitions.specs.Batches.{entry};
ghost use Rattle.partitions.specs.Views.{seen};
ghost use Rattle.partitions.specs.declared.batch.BatchCause.TheVariants.{Add};

use crate::fault::DraftFault;
use crate::field::FieldView;
use faults::Fault;
use faults::error::{ErrorKind, Layer};
use faults::refusal::Refusal;
use names::name::NamePlace;
use transforms::transform::Transform;

#[derive(Clone, Copy)]
pub struct BatchField {
    pub source_id: i32,
    pub field_id: Option<i32>,
    pub name: NamePlace,
    pub transform: Transform,
}

// A batch: its fields, and the area that their names lie in.
#[derive(Clone, Copy)]
pub struct Batch<'a> {
    pub fields: &'a [BatchField],
    pub area: &'a [u8],
}

impl BatchField {
    // The field, with its name from the area; None where the name's place passes the area's end.
    pub fn view<'a>(&self, area: &'a [u8]) -> Option<FieldView<'a>>
        ensures { option_map seen result ≡ entry area.now self.now }
    {
        let name = self.name.of(area)?;
        Some(FieldView {
            source_id: self.source_id,
            field_id: self.field_id,
            name,
            transform: self.transform,
        })
    }
}

#[derive(Clone, Copy)]
pub enum BatchCause {
    // the name's place passes the end of the area
    PlaceOutside,
    // the add was refused
    Add(DraftFault),
}

// Which field of the batch was refused, and why.
#[derive(Clone, Copy)]
pub struct BatchFault {
    pub index: usize,
    pub cause: BatchCause,
}

impl Fault for BatchCause {
    ghost told = { cause_told };

    fn refusal(&self) -> Refusal {
        match self {
            BatchCause::PlaceOutside => {
                Refusal::new(9, ErrorKind::DataInvalid, Layer::Batch, "place-outside")
            }
            BatchCause::Add(fault) => fault.refusal(),
        }
    }
}

impl Fault for BatchFault {
    ghost told = { batch_told };

    fn refusal(&self) -> Refusal {
        Refusal {
            layer: Layer::Batch,
            index: Some(self.index),
            ..self.cause.refusal()
        }
    }
}

impl From<DraftFault> for BatchCause {
    ghost from_gives = { λ fault r. r ≡ Add fault };

    fn from(fault: DraftFault) -> BatchCause {
        BatchCause::Add(fault)
    }
}
