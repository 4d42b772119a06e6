//! The greatest sizes of an energy.

/// The most variables of an energy, 2^21: two for each pixel of an image of 1,024 by 1,024.
pub const VARIABLE_LIMIT: u32 = 2_097_152;

/// The most terms of an energy, 2^23: eight for each pixel of an image of 1,024 by 1,024.
pub const TERM_LIMIT: usize = 8_388_608;

/// A number of a term's table, and a constant in one call, is at most this, 10^9, and at least its
/// negative: it fits 32 bits, and the value of a whole energy stays far below 2^62.
pub const VALUE_LIMIT: u64 = 1_000_000_000;

/// The sum of an energy's constants is at most this, 10^15, and at least its negative.
pub const CONSTANT_LIMIT: u64 = 1_000_000_000_000_000;
