//! A weighted pair of sites.

/// Two sites, and the weight of their term in the energy (Boykov, Veksler, Zabih 2001, section 1).
/// It takes 12 bytes.
#[derive(Clone, Copy, Debug, PartialEq, Eq)]
pub struct Pair {
    /// The number of the first site, as it was given: it may be above the second.
    pub first: u32,
    /// The number of the second site. In a list it is never that of the first.
    pub second: u32,
    /// The factor of the term: in a list from 0 to `WEIGHT_LIMIT`. Where the pairs of a list are
    /// numbered, each has costs of its own, and this is its number: its place in the list.
    pub weight: u32,
}
