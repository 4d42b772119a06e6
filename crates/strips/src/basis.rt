//! What the strips of a move begin with.

use move_energy::Choice;

/// What a move's strips begin with: what was known when all sites were decided, and a number of
/// each site: the weight of each that was open then. What the others are means nothing.
#[derive(Clone, Copy)]
pub struct Basis<'a> {
    pub start: &'a [Choice],
    pub weights: &'a [i64],
}
