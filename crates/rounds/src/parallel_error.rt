//! Why workers found no cut.
ghost use Rattle.std.specs.Prelude.{◌≡◌};
ghost use Rattle.rounds.specs.Refusals.{of_round};
ghost use Rattle.rounds.specs.declared.parallel_error.ParallelError.TheVariants.{OutOfMemory};

use block_workers::RoundError;
use std::alloc::AllocError;
use thiserror::Error;

/// Why no cut was found.
#[derive(Clone, Copy, PartialEq, Eq, Debug, Error)]
pub enum ParallelError {
    /// An option is out of its range.
    #[error("an option of the workers is out of range")]
    BadOptions,
    /// Memory was refused.
    #[error("out of memory")]
    OutOfMemory,
    /// The system refused to start a worker. Those that had started were joined.
    #[error("a worker could not be started")]
    Workers,
}

impl From<AllocError> for ParallelError {
    ghost from_gives = { λ _ e. e ≡ OutOfMemory };

    fn from(_: AllocError) -> ParallelError {
        ParallelError::OutOfMemory
    }
}

impl From<RoundError> for ParallelError {
    ghost from_gives = { λ round e. e ≡ of_round round };

    fn from(error: RoundError) -> ParallelError {
        match error {
            RoundError::OutOfMemory => ParallelError::OutOfMemory,
            RoundError::Workers => ParallelError::Workers,
        }
    }
}
