//! The least cut of a net, found over blocks that exchange parcels of flow, on one thread.
//!
//! `solve` opens a net in one block, and `finish` goes on from any state of the core
//! (`block_state`) to the end: whatever the blocks did before, with messages on the way and labels
//! that are not exact, the answer is the same. `take_in` takes what is on the way. The steps of
//! `finish` that others take too are `push_first`, here over the blocks side by side, `answer_of`
//! and `least_side`.
//!
//! `block_discharge` says what a block did in the block's own terms: places of its lists, and
//! messages. The laws of `histories` say the same in terms of the net: events of the core
//! (`block_events`) that the block does by itself, one after another, and when a turn does at least
//! one. Those of `loose` are of pushes that ask for less than the events do. Those of `seats` put
//! all blocks together that come back from running workers: with the messages that are left on the
//! way they are a round, so they show a sound state, and each stands in its seat for the next
//! round.
#![tactic(auto)]

mod flow;
pub mod histories;
pub mod loose;
mod messages;
mod opening;
mod orders;
mod passes;
pub mod seats;
mod solution;
mod solver;
mod turns;
mod way_ends;

pub use flow::flow_of;
pub use messages::take_in;
pub use opening::push_first;
pub use solution::{answer_of, least_side};
pub use solver::{finish, finish_side, solve};
