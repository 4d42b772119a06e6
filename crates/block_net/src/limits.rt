//! The greatest sizes of a net in blocks.

/// The most blocks that a net is split into, more than there are processors to work on them.
pub const BLOCK_LIMIT: usize = 256;

/// The most arcs of a net that is split into blocks, 2^31: a place among their directions is a
/// `u32`.
pub const ARC_LIMIT: usize = 1 << 31;
