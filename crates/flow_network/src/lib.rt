//! Nets with a source and a sink, their cuts and preflows, and the test of a least cut.
//!
//! A cut is told by its set of nodes on the sink's side. Its capacity is what the source can send
//! the nodes in the set, what the nodes outside can send the sink, and what can enter the set by
//! arcs. `check_cut` tests a cut that was found elsewhere: where it says yes, no cut has a lower
//! capacity. `laws` has the reasons (Ford, Fulkerson 1956; Goldberg, Tarjan 1988).
#![tactic(auto)]

mod arc;
mod check;
mod graph;
pub mod laws;
mod limits;
mod net;
mod solved;

pub use arc::Arc;
pub use check::{check_cut, cut_capacity};
pub use graph::Graph;
pub use limits::{CAPACITY_LIMIT, NODE_LIMIT};
pub use net::Net;
pub use solved::Solved;
