//! Exact labels of a state of the core (`block_state`).
//!
//! The exact distance of a node is the least number of residual directions that lead from it to the
//! sink, within blocks and between them, whatever is on the way (Goldberg, Tarjan 1988, section 3).
//! `distances` finds it by levels from the sink, straight over what the blocks hold. `raise_all`
//! raises the labels to it. `sink_side` answers the nodes that reach the sink. A `Workspace` does
//! the same for many states of one net without memory, and `is_at_rest` tells by exact labels
//! whether a state is finished.
//!
//! A `BlockLabels` is one block's part of a search that blocks make side by side. What they find is
//! not trusted: `is_block_exact` tests it.
#![tactic(auto)]

ghost use Rattle.global_relabel.specs.Laws.{ExactAreDistances, LocalIsExact};

mod block_labels;
mod exact;
mod exactness;
mod node_blocks;
mod rest_test;
mod search;
mod workspace;

pub use block_labels::BlockLabels;
pub use exact::{distances, raise_all, sink_side};
pub use exactness::is_block_exact;
pub use node_blocks::write_node_blocks;
pub use rest_test::is_at_rest;
pub use workspace::Workspace;

/// A law: in a sound state with no message on the way, exact labels are the distances over the flow
/// that the state shows, and those distances are exact labels.
pub fn exact_are_distances()
    ensures { ExactAreDistances }
{}

/// A law: labels are exact where each node's is, by what the node can give the sink and by the
/// labels that its residual directions lead to. So each block can test its own labels by what it
/// holds and what its neighbours told.
pub fn local_exactness_is_exactness()
    ensures { LocalIsExact }
{}
