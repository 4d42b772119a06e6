//! The image commands for C and for all that calls C: one call for a whole picture, bytes of PGM in
//! and bytes of PGM out. A call keeps nothing when it returns, and is the test of all that it is
//! given, since nothing checks its caller.
#![tactic(auto)]

mod calls;
mod held;
mod making;
mod options;
mod refusal;
#[cfg(test)]
mod tests;
mod told;

pub use calls::{gco_restore_pgm, gco_segment_pgm, gco_stereo_pgm};
pub use options::{GcoRestore, GcoSegment, GcoStereo};
pub use told::GcoPictureTold;
