//! Turns and events of a block, and one least cut over a network in blocks. The crate has no code
//! of its own.
//!
//! `turn` does many events of a `Block`. `push_inner`, `push_sink`, `relabel`, `send`, `receive`
//! and `settle` do one each. `take_in` takes what is on the way, `finish` goes on from any
//! state to the least cut, and `solve` begins with a net.
#![tactic(auto)]

pub use block_discharge::{Block, push_inner, push_sink, receive, relabel, send, settle, turn};
pub use cut_in_blocks::{finish, solve, take_in};
