//! The ranges of the options.
/// The most threads that work side by side. The least is 1.
pub const THREAD_LIMIT: u32 = 64;

/// The most messages on the way from one block to another. The least is 1.
pub const RING_LIMIT: u32 = 65_536;

/// The most turns that are drawn in a round. The least is 0.
pub const TURN_LIMIT: u32 = 1_000_000;

/// The most rounds. The least is 0.
pub const ROUND_LIMIT: u32 = 10_000;
