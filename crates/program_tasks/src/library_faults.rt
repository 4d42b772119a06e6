//! What the libraries of moves and of pictures refuse, as faults of the program: memory as memory,
//! whoever asked for it.
ghost use Rattle.std.specs.Prelude.{◌≡◌};
ghost use Rattle.moves.specs.Problems.{IsRunRefusal};
ghost use Rattle.vision.specs.Faults.{any_cut};
ghost use Rattle.program_tasks.specs.Faults.{TellsMove, picture_fault};

use moves::MoveError;
use program_texts::Fault;
use vision::VisionError;

/// The fault of an image command that was refused.
pub fn picture_fault(error: VisionError) -> Fault
    ensures { result ≡ picture_fault error }
{
    match error {
        VisionError::OutOfMemory => Fault::OutOfMemory,
        VisionError::Image(reason) => Fault::Image(reason),
        VisionError::SizesDiffer => Fault::SizesDiffer,
        VisionError::BadSeed(index) => Fault::BadSeed(index),
        VisionError::TooManyLevels => Fault::TooManyLevels,
        VisionError::PairNotRegular { pair, alpha, beta } => {
            Fault::PairNotRegular { pair, alpha, beta }
        }
        VisionError::LabelCostInSwap => Fault::LabelCostInSwap,
        VisionError::Workers => Fault::Workers,
        VisionError::BadOptions => Fault::BadOptions,
        VisionError::Write(failed) => Fault::Write(failed),
    }
}

/// The fault of a run of moves that was refused. A run refuses no label, and asks for no bound.
pub fn move_fault(error: MoveError) -> Fault
    requires { IsRunRefusal any_cut error }
    ensures { TellsMove error result }
{
    match error {
        MoveError::OutOfMemory => Fault::OutOfMemory,
        MoveError::LabelCostInSwap => Fault::LabelCostInSwap,
        MoveError::PairNotRegular { pair, alpha, beta } => {
            Fault::PairNotRegular { pair, alpha, beta }
        }
        MoveError::Workers => Fault::Workers,
        MoveError::BadOptions => Fault::BadOptions,
        MoveError::NoSuchLabel => unreachable!(),
        MoveError::NoBound => unreachable!(),
    }
}
