//! The blocks of a net laid out: what they hold of its nodes and directions, read and written by
//! the number of a node or by a direction.
//!
//! A `Blocks` has the net, its blocks, and where each node and each direction stands in them. What
//! is asked of a node or of a direction goes to the block that holds it (`block_net`): its calls
//! are the effects of events on the blocks. Those that send something answer the message, and of
//! the ways that it takes they know nothing.
#![tactic(auto)]

mod blocks;
mod by_block;
mod raise;

pub use blocks::{Blocks, copy_of, spot};
