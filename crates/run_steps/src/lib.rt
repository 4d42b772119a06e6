//! A run of moves that is under way: its next move, how it ended, and where it was left. One move
//! is made in `one_move`, and a later one near the changes in `later_expansions` or `later_swaps`.
#![tactic(auto)]

mod bookmark;
mod course;
mod resuming;
mod run_moves;
mod under_way;

pub use bookmark::{Bookmark, Mark};
pub use course::Ended;
pub use cut_ways::Sharing;
pub use one_move::MoveError;
pub use under_way::{RunUnderWay, Step};
