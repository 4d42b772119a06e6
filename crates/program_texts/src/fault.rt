//! The faults of the program.
use byte_streams::WriteFailed;
use command_line::OptionName;
use pgm_image::PgmError;
use problem_files::{EnergyFault, LabelFault};
use regular::NotRegular;

/// Why a run was refused. What a library says of an input stands as it says it, but that memory is
/// `OutOfMemory`, whoever asked for it. Pairs and samples go by their index from 0, bytes are
/// counted from the first one of the input.
#[derive(Clone, Copy, Drop)]
pub enum Fault {
    /// Memory was refused, whoever asked for it.
    OutOfMemory,
    /// No image stands where one is to begin.
    Image(PgmError),
    /// The writer stopped within the answer, or within help.
    Write(WriteFailed),
    /// The file names no energy.
    EnergyFile(EnergyFault),
    /// The file names no problem of labels.
    LabelFile(LabelFault),
    /// The energy is not regular.
    TermNotRegular(NotRegular),
    /// The system refused to start a worker.
    Workers,
    /// An option of the workers is out of its limits.
    BadOptions,
    /// The term of this pair is not regular in a move: an expansion of one label, or a swap of two.
    PairNotRegular {
        pair: usize,
        alpha: u32,
        beta: Option<u32>,
    },
    /// The two images differ in size.
    SizesDiffer,
    /// The seed with this index is the first that is not 0, 1 or 2.
    BadSeed(usize),
    /// Swaps are asked for, and a label costs something by itself.
    LabelCostInSwap,
    /// The value of this option is no name that it takes.
    BadOption(OptionName),
    /// The picture to be restored has too many grey levels.
    TooManyLevels,
    /// The source of the input failed.
    ReadFailed,
    /// The input is longer than an input may be.
    InputTooLong,
}
