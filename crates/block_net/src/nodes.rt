//! The nodes of a block.

/// What a block holds of each of its nodes.
#[derive(Drop)]
pub struct Nodes {
    /// What it got and did not pass on.
    pub excess: Vec<u64>,
    /// Its label.
    pub labels: Vec<u32>,
    /// What it can still give the sink.
    pub rooms: Vec<u64>,
}
