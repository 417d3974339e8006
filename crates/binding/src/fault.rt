// Why an unbound spec is not bound.
ghost use Rattle.std.specs.Prelude.{◌≡◌};
ghost use Rattle.binding.specs.BindFaults.{told};
ghost use Rattle.binding.specs.declared.fault.BindFault.TheVariants.{Batch, Draft};

use faults::Fault;
use faults::refusal::Refusal;
use partitions::batch::BatchFault;
use partitions::fault::DraftFault;

#[derive(Clone, Copy)]
pub enum BindFault {
    // the schema does not admit a field
    Batch(BatchFault),
    // the draft is not closed
    Draft(DraftFault),
}

impl Fault for BindFault {
    ghost told = { told };

    fn refusal(&self) -> Refusal {
        match self {
            BindFault::Batch(fault) => fault.refusal(),
            BindFault::Draft(fault) => fault.refusal(),
        }
    }
}

impl From<BatchFault> for BindFault {
    ghost from_gives = { λ fault r. r ≡ Batch fault };

    fn from(fault: BatchFault) -> BindFault {
        BindFault::Batch(fault)
    }
}

impl From<DraftFault> for BindFault {
    ghost from_gives = { λ fault r. r ≡ Draft fault };

    fn from(fault: DraftFault) -> BindFault {
        BindFault::Draft(fault)
    }
}
