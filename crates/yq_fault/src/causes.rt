//! The fault of a command for what each layer refuses.

use crate::fault::Fault;
use crate::named::EditError;
use std::alloc::AllocError;
use yq_core::ReadError;
use yq_journal::JournalError;

impl From<AllocError> for Fault {
    ghost use Rattle.std.specs.Prelude.{◌≡◌};
    ghost use Rattle.yq_fault.specs.declared.fault.Fault.TheVariants.{OutOfMemory};

    ghost from_gives = { λ _ e. e ≡ OutOfMemory };

    fn from(_refused: AllocError) -> Fault {
        Fault::OutOfMemory
    }
}

impl From<JournalError> for Fault {
    ghost use Rattle.std.specs.Prelude.{◌≡◌};
    ghost use Rattle.yq_fault.specs.Faults.{of_journal};

    ghost from_gives = { λ x e. e ≡ of_journal x };

    fn from(error: JournalError) -> Fault {
        match error {
            JournalError::Memory => Fault::OutOfMemory,
            JournalError::Fault(fault) => Fault::Journal(fault),
        }
    }
}

impl From<ReadError> for Fault {
    ghost use Rattle.std.specs.Prelude.{◌≡◌};
    ghost use Rattle.yq_fault.specs.Faults.{fault_of_reading};

    ghost from_gives = { λ x e. e ≡ fault_of_reading x };

    fn from(error: ReadError) -> Fault {
        match error {
            ReadError::Memory => Fault::OutOfMemory,
            ReadError::Fault(fault) => Fault::Unreadable(fault),
        }
    }
}

impl From<EditError> for Fault {
    ghost use Rattle.std.specs.Prelude.{◌≡◌};
    ghost use Rattle.yq_fault.specs.Faults.{fault_of_refusal};

    ghost from_gives = { λ x e. e ≡ fault_of_refusal x };

    fn from(error: EditError) -> Fault {
        match error {
            EditError::Memory => Fault::OutOfMemory,
            EditError::Fault(refused) => Fault::Refused(refused),
        }
    }
}
