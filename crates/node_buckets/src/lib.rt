//! Nodes in buckets.
//!
//! A `Buckets` has for so many nodes so many rows: one for each bucket, and one for the nodes that
//! are set aside. The nodes of a row stand in a circle with a place of the row's own, so that a
//! node joins and leaves a row by four writes, wherever it stands. Nodes, places and rows are
//! numbers: what a label is, the caller knows.
#![tactic(auto)]

mod buckets;
mod circles;

pub use buckets::Buckets;
