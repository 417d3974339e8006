// The type of a partition: its fields, and why there is none.
ghost use Rattle.std.specs.Prelude.{◌≡◌, map, Decides};
ghost use Rattle.numbering.specs.Ids.{Sequential};
ghost use Rattle.closed.specs.TypeFaults.{told};
ghost use Rattle.closed.specs.declared.types.TypeFault.TheVariants.{NoResult};

use faults::Fault;
use faults::error::{ErrorKind, Layer};
use faults::refusal::Refusal;
use numbering::Identified;
use transforms::datatypes::Type;
use transforms::transform::TypeFault as TransformFault;

// A field of a partition's type, which is always optional: the id, the result type, and the place in the spec.
#[derive(Clone, Copy)]
pub struct TypeField {
    pub field_id: i32,
    pub result_type: Type,
    pub place: usize,
}

#[derive(Clone, Copy)]
pub enum TypeFault {
    // the list is shorter than the fields
    MemoryShort,
    // the schema has no column of the source's id
    SourceUnknown,
    // the transform makes nothing of the source's type
    NoResult(TransformFault),
}

// Whether the fields' ids count up from 1000.
pub fn has_sequential_ids(fields: &[TypeField]) -> bool
    ensures { Decides result (Sequential (map (λ (f : TypeField). f.field_id) fields.now)) }
{
    numbering::has_sequential_ids(fields)
}

impl Identified<i32> for TypeField {
    ghost id = { λ f. f.field_id };

    fn field_id(&self) -> i32 {
        self.field_id
    }
}

impl Fault for TypeFault {
    ghost told = { told };

    fn refusal(&self) -> Refusal {
        let (number, kind, reason) = match *self {
            TypeFault::MemoryShort => (12, ErrorKind::DataInvalid, "memory-short"),
            TypeFault::SourceUnknown => (24, ErrorKind::Unexpected, "source-unknown"),
            TypeFault::NoResult(fault) => return fault.refusal(),
        };
        Refusal::new(number, kind, Layer::Type, reason)
    }
}

impl From<TransformFault> for TypeFault {
    ghost from_gives = { λ fault r. r ≡ NoResult fault };

    fn from(fault: TransformFault) -> TypeFault {
        TypeFault::NoResult(fault)
    }
}
