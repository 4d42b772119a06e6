//! Ways to cut a net: `How`, which callers choose, and `Alone`, which cuts on the caller's thread.
//! A move asks for `Sharing` beside it: strips, parts and who does these.
#![tactic(auto)]

mod fork;
mod how;
mod sharing;
mod solve_error;

pub use fork::{Fork, InOrder};
pub use how::{Alone, How};
pub use sharing::Sharing;
pub use solve_error::SolveError;
