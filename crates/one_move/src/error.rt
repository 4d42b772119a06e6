//! Why a move or a run is refused.
ghost use Rattle.std.specs.Prelude.{◌≡◌};
ghost use Rattle.one_move.specs.declared.error.MoveError.TheVariants.{OutOfMemory};
ghost use Rattle.one_move.specs.Refusals.{cut_told};

use cut_ways::SolveError;
use std::alloc::{AllocError, AllocFailed};
use thiserror::Error;

/// Why a move was refused. The labelling is then as it was.
#[derive(Clone, Copy, Debug, PartialEq, Eq, Error)]
pub enum MoveError {
    /// A label of the move is not below the number of labels.
    #[error("there is no such label")]
    NoSuchLabel,
    /// A swap, where a label costs something by itself.
    #[error("a label costs something by itself, which a swap does not take")]
    LabelCostInSwap,
    /// The first pair whose term in the move is not regular, and the labels of the move: one of an
    /// expansion, two of a swap.
    #[error("the term of pair {pair} is not regular")]
    PairNotRegular {
        pair: usize,
        alpha: u32,
        beta: Option<u32>,
    },
    /// The system refused to start a worker.
    #[error("a worker could not be started")]
    Workers,
    /// An option is out of its limits.
    #[error("an option is out of its limits")]
    BadOptions,
    /// The smooth costs were not stored as a metric, or a label costs something by itself: no bound
    /// is known.
    #[error("no bound is known")]
    NoBound,
    /// Memory was refused.
    #[error("out of memory")]
    OutOfMemory,
}

impl<T: Drop> From<AllocFailed<T>> for MoveError {
    ghost from_gives = { λ _ e. e ≡ OutOfMemory };

    fn from(_failed: AllocFailed<T>) -> MoveError {
        MoveError::OutOfMemory
    }
}

impl From<SolveError> for MoveError {
    ghost from_gives = { λ failed e. e ≡ cut_told failed };

    fn from(failed: SolveError) -> MoveError {
        match failed {
            SolveError::OutOfMemory => MoveError::OutOfMemory,
            SolveError::Workers => MoveError::Workers,
            SolveError::BadOptions => MoveError::BadOptions,
        }
    }
}

impl From<AllocError> for MoveError {
    ghost from_gives = { λ _ e. e ≡ OutOfMemory };

    fn from(_failed: AllocError) -> MoveError {
        MoveError::OutOfMemory
    }
}
