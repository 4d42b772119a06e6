//! A net that stands in rows, and no list of its arcs.
use crate::Cell;

/// A net whose arcs stand in rows.
#[derive(Drop)]
pub struct Laid {
    /// Where each node's row begins.
    pub starts: Vec<u32>,
    /// Where it ends. What stands from there to the next row means nothing.
    pub ends: Vec<u32>,
    /// The directions of the arcs by the nodes that they leave.
    pub cells: Vec<Cell>,
    /// Where each arc's direction from its first node stands.
    pub firsts: Vec<u32>,
    /// What the source can send each node.
    pub sources: Vec<u64>,
    /// What each node can send the sink.
    pub sinks: Vec<u64>,
}
