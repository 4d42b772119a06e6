//! Where an energy is not regular.

use thiserror::Error;

/// A variable of a term of three, and the value that it was fixed to.
#[derive(Clone, Copy, Debug, PartialEq, Eq)]
pub struct Fixed {
    /// The place of the variable among the term's, from 0: not its number in the energy.
    pub position: usize,
    /// The value.
    pub value: bool,
}

/// The first term that is not regular.
#[derive(Clone, Copy, Debug, PartialEq, Eq, Error)]
#[error("term {term} is not regular")]
pub struct NotRegular {
    /// Its place in the list of terms.
    pub term: usize,
    /// What was fixed in the first of its projections that is not regular: nothing, in a term of
    /// two variables.
    pub fixed: Option<Fixed>,
}
