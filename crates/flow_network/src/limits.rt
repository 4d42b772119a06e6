//! The greatest sizes of a net.

/// The most nodes that a net may have, 2^24: a node's number, and its label up to two more than
/// there are nodes, is a `u32`. `Net::fits` answers no for more.
pub const NODE_LIMIT: usize = 1 << 24;

/// The most that all capacities of a net may be together, one less than 2^62: then two sums of
/// capacities, flows or excess are together a `u64`, and the capacity of a cut is an `i64` with
/// room for a constant. `Net::fits` answers no for more.
pub const CAPACITY_LIMIT: u64 = (1 << 62) - 1;
