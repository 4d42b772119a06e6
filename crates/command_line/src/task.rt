//! What a command line may ask for.
ghost use Rattle.std.specs.Prelude.{◌≡◌};
ghost use Rattle.command_line.specs.declared.task.NoTask.TheVariants.{OutOfMemory};

use run_options::{RestoreOptions, SegmentOptions, StereoOptions};
use std::alloc::AllocError;
use worker_options::Options;

/// What a command line asks for.
#[derive(Clone, Copy, Debug, PartialEq, Eq)]
pub enum Task {
    /// `gco energy`: the minimum of a yes-no energy.
    Energy,
    /// `gco label`: moves to labellings of lower energy.
    Label {
        /// Whether it is to be told how near the labelling is to the least energy.
        bound: bool,
    },
    /// One of the image commands: moves to labellings of the pixels, and the picture of the last
    /// one.
    Picture(PictureOptions),
}

/// Which image command, and its options.
#[derive(Clone, Copy, Debug, PartialEq, Eq)]
pub enum PictureOptions {
    /// `gco restore`: a picture with few and small jumps between neighbours.
    Restore(RestoreOptions),
    /// `gco stereo`: how far the pixels of a left picture have moved in the right one.
    Stereo(StereoOptions),
    /// `gco segment`: a picture in two parts.
    Segment(SegmentOptions),
}

/// What a command line asks for: a task, and the workers that do it, or none where one thread does.
#[derive(Clone, Copy, Debug, PartialEq, Eq)]
pub struct Request {
    /// What is to be done.
    pub task: Task,
    /// How workers share it, where they are asked for.
    pub workers: Option<Options>,
}

/// An option whose value is a name.
#[derive(Clone, Copy, Debug, PartialEq, Eq)]
pub enum OptionName {
    /// `--smooth`
    Smooth,
    /// `--neighbours`
    Neighbours,
    /// `--moves`
    Moves,
}

/// Why there is no task.
#[derive(Debug, Drop)]
pub enum NoTask {
    /// Memory was refused.
    OutOfMemory,
    /// The words ask for help, by `--help` or by the word `help`. `clap` makes the text, which is
    /// not empty.
    Help(String),
    /// The words are no command line of the program, or have the word `help`. `clap` says why by
    /// this text, which is not empty.
    Refused(String),
    /// This option's value is no name that it takes: the first such of `smooth`, `neighbours`,
    /// `moves`.
    BadOption(OptionName),
}

impl From<AllocError> for NoTask {
    ghost from_gives = { λ _ no_task. no_task ≡ OutOfMemory };

    fn from(_error: AllocError) -> NoTask {
        NoTask::OutOfMemory
    }
}
