//! One block's work: a list of its own enabled events.
//!
//! A `Bucketed` is a block of a net (`Cells` of `block_net`) and rows of its nodes (`Buckets` of
//! `node_buckets`). Each node that has excess and is not cut off stands in the bucket of its
//! label, or is set aside, and no other node stands anywhere: the type keeps that, and each call
//! that sets a label or an excess. The rows stand in the room that the block brings and takes with
//! it, which is made where a net is split. What opens a state, raises its labels or does its events
//! one by one goes over `Cells`, and keeps no rows.
//!
//! A `Block` is such a block, and `Ways` are its ends of the ways to and from the other blocks.
//! `push_inner`, `push_sink`, `relabel`, `send`, `receive` and `settle` are its events, one at
//! a time. `turn` does many of them. It takes the messages that came, and then discharges active
//! nodes, those of the highest label first. A node that got a new label rests until each other
//! active node was looked at, or until the next turn. Each step is an event of the block, and is
//! enabled by what the block holds and the message that it takes.
#![tactic(auto)]

mod active_nodes;
mod acts;
mod block;
mod bucket_places;
mod bucketed;
mod calls;
mod letter;
mod messages;
mod one_node;
mod ways;

pub use block::{Block, turn};
pub use bucket_places::is_active;
pub use bucketed::Bucketed;
pub use calls::{push_inner, push_sink, receive, relabel, send, settle};
pub use letter::Letter;
pub use ways::Ways;
