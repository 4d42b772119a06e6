//! Why a call was refused, and the numbers that tell it.
ghost use Rattle.std.specs.Prelude.{◌≡◌, ◌≢◌};
ghost use Rattle.gco_pictures.specs.Refusals.{image_place, image_status, refusal_bytes};
ghost use Rattle.gco_pictures.specs.Refusals.{refusal_labels, refusal_place, refusal_status};
ghost use Rattle.gco_pictures.specs.Refusals.{vision_refusal};

use pgm_image::PgmError;
use vision::VisionError;

/// Why a call was refused. Options go by their place in the order in which they are handed over,
/// positions count bytes from the first one of the input, indices count samples row by row, all
/// from 0.
#[derive(Clone, Copy)]
pub(crate) enum Refusal {
    /// Memory was refused.
    OutOfMemory,
    /// The first option out of its range.
    OptionRange(usize),
    /// No image stands where one is to begin.
    Image(PgmError),
    /// The two images differ in width or height.
    SizesDiffer,
    /// The seed with this index is the first that is not 0, 1 or 2.
    BadSeed(usize),
    /// The picture to be restored has more than 256 grey levels.
    TooManyLevels,
    /// The term of a pair is not regular in the move that is due.
    NotRegular {
        pair: usize,
        alpha: u32,
        beta: Option<u32>,
    },
    /// A swap, where a label costs something by itself.
    LabelCostInSwap,
    /// The picture has so many bytes, and the buffer fewer.
    NoRoom(usize),
}

impl Refusal {
    /// The number that a call answers for it.
    pub(crate) fn status(self) -> u32
        ensures value { result ≡ refusal_status self }
        ensures some { result ≢ 0 }
    {
        match self {
            Refusal::OutOfMemory => 1,
            Refusal::NotRegular { .. } => 24,
            Refusal::LabelCostInSwap => 27,
            Refusal::Image(reason) => image_status(reason),
            Refusal::SizesDiffer => 38,
            Refusal::BadSeed(_) => 39,
            Refusal::TooManyLevels => 40,
            Refusal::OptionRange(_) => 41,
            Refusal::NoRoom(_) => 42,
        }
    }

    /// The place that it tells, or 0.
    pub(crate) fn place(self) -> usize
        ensures { result ≡ refusal_place self }
    {
        match self {
            Refusal::NotRegular { pair, .. } => pair,
            Refusal::Image(reason) => image_place(reason),
            Refusal::BadSeed(index) => index,
            Refusal::OptionRange(place) => place,
            _ => 0,
        }
    }

    /// The labels of the move that it tells: twice the same of an expansion, and 0 and 0 of no
    /// move.
    pub(crate) fn labels(self) -> (u32, u32)
        ensures { result ≡ refusal_labels self }
    {
        match self {
            Refusal::NotRegular { alpha, beta, .. } => match beta {
                Some(beta) => (alpha, beta),
                None => (alpha, alpha),
            },
            _ => (0, 0),
        }
    }

    /// How many bytes it tells that are wanted, or 0.
    pub(crate) fn bytes(self) -> usize
        ensures { result ≡ refusal_bytes self }
    {
        match self {
            Refusal::NoRoom(bytes) => bytes,
            _ => 0,
        }
    }
}

fn image_status(reason: PgmError) -> u32
    ensures value { result ≡ image_status reason }
    ensures some { result ≢ 0 }
{
    match reason {
        PgmError::OutOfMemory => 1,
        PgmError::NotPgm => 30,
        PgmError::BadHeader(_) => 31,
        PgmError::ZeroSize => 32,
        PgmError::TooLarge => 33,
        PgmError::BadMaxval => 34,
        PgmError::Truncated => 35,
        PgmError::SampleAboveMax(_) => 36,
        PgmError::BadSample(_) => 37,
    }
}

fn image_place(reason: PgmError) -> usize
    ensures { result ≡ image_place reason }
{
    match reason {
        PgmError::BadHeader(at) => at,
        PgmError::SampleAboveMax(index) => index,
        PgmError::BadSample(at) => at,
        _ => 0,
    }
}

/// The refusal of a call whose image command was refused. No worker is started, and what the
/// picture is written to fails for want of memory alone.
pub(crate) fn refusal_of(error: VisionError) -> Refusal
    ensures { result ≡ vision_refusal error }
{
    match error {
        VisionError::Image(reason) => Refusal::Image(reason),
        VisionError::SizesDiffer => Refusal::SizesDiffer,
        VisionError::BadSeed(index) => Refusal::BadSeed(index),
        VisionError::TooManyLevels => Refusal::TooManyLevels,
        VisionError::PairNotRegular { pair, alpha, beta } => Refusal::NotRegular {
            pair,
            alpha,
            beta,
        },
        VisionError::LabelCostInSwap => Refusal::LabelCostInSwap,
        VisionError::Workers
        | VisionError::BadOptions
        | VisionError::Write(_)
        | VisionError::OutOfMemory => Refusal::OutOfMemory,
    }
}
