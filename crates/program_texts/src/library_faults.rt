//! What the libraries refuse, as faults of the program: memory as memory, whoever asked for it.
ghost use Rattle.std.specs.Prelude.{◌≡◌};
ghost use Rattle.program_texts.specs.Faults.{cut_fault, energy_fault, label_fault, read_fault};
ghost use Rattle.program_texts.specs.declared.fault.Fault.TheVariants.{OutOfMemory, TermNotRegular};

use crate::fault::Fault;
use byte_streams::ReadError;
use cut_ways::SolveError;
use problem_files::{EnergyFault, LabelFault};
use regular::NotRegular;
use std::alloc::AllocError;

impl From<AllocError> for Fault {
    ghost from_gives = { λ _ fault. fault ≡ OutOfMemory };

    fn from(_error: AllocError) -> Fault {
        Fault::OutOfMemory
    }
}

impl From<ReadError> for Fault {
    ghost from_gives = { λ error fault. fault ≡ read_fault error };

    fn from(error: ReadError) -> Fault {
        match error {
            ReadError::OutOfMemory => Fault::OutOfMemory,
            ReadError::ReadFailed => Fault::ReadFailed,
            ReadError::InputTooLong => Fault::InputTooLong,
        }
    }
}

impl From<EnergyFault> for Fault {
    ghost from_gives = { λ error fault. fault ≡ energy_fault error };

    fn from(error: EnergyFault) -> Fault {
        match error {
            EnergyFault::OutOfMemory => Fault::OutOfMemory,
            reason => Fault::EnergyFile(reason),
        }
    }
}

impl From<NotRegular> for Fault {
    ghost from_gives = { λ failing fault. fault ≡ TermNotRegular failing };

    fn from(failing: NotRegular) -> Fault {
        Fault::TermNotRegular(failing)
    }
}

impl From<LabelFault> for Fault {
    ghost from_gives = { λ error fault. fault ≡ label_fault error };

    fn from(error: LabelFault) -> Fault {
        match error {
            LabelFault::OutOfMemory => Fault::OutOfMemory,
            reason => Fault::LabelFile(reason),
        }
    }
}

impl From<SolveError> for Fault {
    ghost from_gives = { λ error fault. fault ≡ cut_fault error };

    fn from(error: SolveError) -> Fault {
        match error {
            SolveError::OutOfMemory => Fault::OutOfMemory,
            SolveError::Workers => Fault::Workers,
            SolveError::BadOptions => Fault::BadOptions,
        }
    }
}
