//! Why a command on pictures was refused.
ghost use Rattle.std.specs.Prelude.{◌≡◌};
ghost use Rattle.moves.specs.Problems.{IsRunRefusal};
ghost use Rattle.vision.specs.Faults.{TellsRun, any_cut, image_error, write_error};
ghost use Rattle.vision.specs.declared.error.VisionError.TheVariants.{OutOfMemory};

use byte_streams::WriteFailed;
use moves::MoveError;
use pgm_image::{PgmError, WriteError};
use std::alloc::{AllocError, AllocFailed};
use thiserror::Error;

/// Why a command on pictures was refused: one case for each cause, and the first that holds in the
/// order image, sizes, seeds, levels, moves, writing, but that memory may be refused anywhere
/// before the first byte is written. The first image is looked at before the second. Positions
/// count bytes from the first one of the input, also those of the second image; indices count
/// samples, row by row, from 0.
#[derive(Clone, Copy, Debug, PartialEq, Eq, Error)]
pub enum VisionError {
    /// Memory was refused, whoever asked for it.
    #[error("out of memory")]
    OutOfMemory,
    /// No image stands where one is to begin, for a reason other than memory.
    #[error("{0}")]
    Image(PgmError),
    /// The two images differ in width or height.
    #[error("the images differ in size")]
    SizesDiffer,
    /// The seed with this index is the first that is not 0, 1 or 2.
    #[error("sample {0} is no seed")]
    BadSeed(usize),
    /// The picture to be restored has more than 256 grey levels.
    #[error("too many grey levels")]
    TooManyLevels,
    /// The first pair whose term in a move is not regular, and the labels of the move: one of an
    /// expansion, two of a swap.
    #[error("the term of pair {pair} is not regular")]
    PairNotRegular {
        pair: usize,
        alpha: u32,
        beta: Option<u32>,
    },
    /// Swaps are asked for, and a label costs something by itself.
    #[error("a label costs something by itself, which a swap does not take")]
    LabelCostInSwap,
    /// The system refused to start a worker.
    #[error("a worker could not be started")]
    Workers,
    /// An option of the workers is out of its limits.
    #[error("an option is out of its limits")]
    BadOptions,
    /// The writer failed within the picture.
    #[error("the writer failed after {} bytes", .0.count)]
    Write(WriteFailed),
}

impl From<PgmError> for VisionError {
    ghost from_gives = { λ reason e. e ≡ image_error reason };

    fn from(reason: PgmError) -> VisionError {
        match reason {
            PgmError::OutOfMemory => VisionError::OutOfMemory,
            reason => VisionError::Image(reason),
        }
    }
}

/// The error of a run of moves that was refused. A run refuses no label, and asks for no bound.
pub(crate) fn run_error(error: MoveError) -> VisionError
    requires { IsRunRefusal any_cut error }
    ensures { TellsRun error result }
{
    match error {
        MoveError::OutOfMemory => VisionError::OutOfMemory,
        MoveError::LabelCostInSwap => VisionError::LabelCostInSwap,
        MoveError::PairNotRegular { pair, alpha, beta } => {
            VisionError::PairNotRegular { pair, alpha, beta }
        }
        MoveError::Workers => VisionError::Workers,
        MoveError::BadOptions => VisionError::BadOptions,
        MoveError::NoSuchLabel => unreachable!(),
        MoveError::NoBound => unreachable!(),
    }
}

impl From<WriteError> for VisionError {
    ghost from_gives = { λ write e. e ≡ write_error write };

    fn from(error: WriteError) -> VisionError {
        let WriteError::WriteFailed(count) = error;
        VisionError::Write(WriteFailed { count })
    }
}

impl<T: Drop> From<AllocFailed<T>> for VisionError {
    ghost from_gives = { λ _ e. e ≡ OutOfMemory };

    fn from(_failed: AllocFailed<T>) -> VisionError {
        VisionError::OutOfMemory
    }
}

impl From<AllocError> for VisionError {
    ghost from_gives = { λ _ e. e ≡ OutOfMemory };

    fn from(_failed: AllocError) -> VisionError {
        VisionError::OutOfMemory
    }
}
