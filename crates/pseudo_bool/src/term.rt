//! Terms of an energy.

/// A term of an energy: its variables by number, and its table of whole numbers.
///
/// The first variable is the most significant digit of a number's place in the table. An energy
/// holds terms whose variables are its own, no two of them equal, and whose numbers are from
/// `-VALUE_LIMIT` to `VALUE_LIMIT`.
#[derive(Clone, Copy, Debug, PartialEq, Eq)]
pub enum Term {
    /// A variable, and the numbers where it is 0 and where it is 1.
    One(u32, [i64; 2]),
    /// Two variables, and the numbers at 00, 01, 10 and 11.
    Two(u32, u32, [i64; 4]),
    /// Three variables, and the numbers at 000, 001, 010, 011, 100, 101, 110 and 111.
    Three(u32, u32, u32, [i64; 8]),
}
