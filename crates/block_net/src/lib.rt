//! A net in blocks, each held in compact lists.
//!
//! A block (`Cells`) has of each of its nodes the excess, the label and what it can still give the
//! sink, and the directions that leave the node one after another: those within the block in 16
//! bytes each, and in a list of their own, in 48 bytes each, those to other blocks, which also keep
//! the label known of the far end and the parcel that is out. Its calls are the steps of the
//! push-relabel method on one block (Goldberg, Tarjan 1988, section 2). `Cells::new` makes a block
//! of its nodes and of the directions that leave them.
#![tactic(auto)]

mod cells;
mod compact;
mod lanes;
pub mod laws;
mod limits;
mod nodes;

pub use cells::Cells;
pub use compact::CompactBorder;
pub use lanes::{Border, InnerLane, opposite_of};
pub use limits::{ARC_LIMIT, BLOCK_LIMIT};
pub use nodes::Nodes;
