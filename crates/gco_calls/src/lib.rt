//! What each call of C does and tells, over the arrays that it was given. A call keeps nothing when
//! it returns.
#![tactic(auto)]

mod asked;
mod bound;
mod course;
mod label;
mod minimise;
mod moving;
mod outcome;
mod pair_bound;
mod pairs;
mod running;
mod stretch;

pub use bound::{GcoBound, answer_bound};
pub use course::{GcoCourse, zeros_begin};
pub use label::answer_run;
pub use minimise::{GcoMinimum, answer_minimum};
pub use moving::answer_move;
pub use outcome::GcoOutcome;
pub use pair_bound::answer_pair_bound;
pub use pairs::{answer_pair_move, answer_pair_run};
pub use stretch::answer_stretch;
