//! The blocks of a net, as they are at the opening.
//!
//! `Parts::split` makes them: each node has what its source sends it and the label 0, and each
//! direction stands in the block of the node that it leaves. The directions are ranked by their
//! nodes, those within blocks before those between blocks, by one counting sort. `Parts::split_by`
//! makes the same blocks side by side, where the net is large. `node_blocks_of` is the block of
//! each node.
#![tactic(auto)]

mod by_node;
mod ends;
mod net_to_split;
mod node_blocks;
mod one_by_one;
mod opening;
mod parts;
mod rows;
mod side_by_side;
mod slots;

pub use node_blocks::node_blocks_of;
pub use parts::Parts;
