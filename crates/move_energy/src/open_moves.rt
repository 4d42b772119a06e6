//! What the energy of a partly decided move is built from, each as one value.

use crate::Variables;
use cost_store::Problem;
use label_energies::Move;

/// A partly decided move whose open sites are numbered: a problem, the labels that the move begins
/// with, what the move is, and the variables of its sites.
#[derive(Drop)]
pub(crate) struct NumberedMove<'a, F, V> {
    pub problem: &'a Problem<F, V>,
    pub at: &'a [u8],
    pub change: Move,
    pub variables: &'a Variables,
}
