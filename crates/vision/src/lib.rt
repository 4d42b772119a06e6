//! Pictures in, a picture out: restoring a picture, matching two, and parting one in two, each by
//! the moves of a problem of labels (Boykov, Veksler, Zabih, PAMI 2001, sections 1 and 8).
#![tactic(auto)]

mod error;
mod inputs;
mod job;
mod pairs;
mod report;
mod restore;
mod segment;
mod stereo;

pub use error::VisionError;
pub use report::Report;
pub use restore::run_restore;
pub use run_options::{Neighbours, RestoreOptions, SegmentOptions, Shape, StereoOptions};
pub use segment::run_segment;
pub use stereo::run_stereo;
