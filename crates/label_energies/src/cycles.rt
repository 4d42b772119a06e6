//! The moves of a run, and those of a cycle by their places.
ghost use Rattle.std.specs.Prelude.{◌≡◌, ◌<◌, ◌≤◌, length, slice_get, Some};
ghost use Rattle.label_field.specs.Limits.{label_limit};
ghost use Rattle.label_energies.specs.Moves.{IsMoveOf, IsSwap};
ghost use Rattle.label_energies.specs.Chains.{swaps, moves_of};
ghost use Rattle.label_energies.specs.Names.{moves_named};

use crate::Move;

/// The moves of a run (Boykov, Veksler, Zabih, PAMI 2001, section 3).
#[derive(Clone, Copy, Debug, PartialEq, Eq)]
pub enum Moves {
    /// To each label in rising order: any set of sites may take it.
    Expansion,
    /// Between each two labels in dictionary order: any set of the sites that have one of them may
    /// take the other.
    Swap,
}

impl Moves {
    /// The moves that go by a name, `expansion` or `swap`.
    pub fn from_name(name: &str) -> Option<Moves>
        ensures { result ≡ moves_named name.now }
    {
        match name {
            "expansion" => Some(Moves::Expansion),
            "swap" => Some(Moves::Swap),
            _ => None,
        }
    }

    /// How many moves a cycle has, of 1 to `label_field::LABEL_LIMIT` labels.
    pub fn count(self, labels: u32) -> u32
        requires { (1 ≤ labels) × (labels ≤ label_limit) }
        ensures { result ≡ length (moves_of self labels) }
    {
        match self {
            Moves::Expansion => labels,
            Moves::Swap => labels * (labels - 1) / 2,
        }
    }

    /// The move at a place of a cycle. The place is below `count`.
    pub fn move_at(self, labels: u32, place: u32) -> Move
        requires { place < length (moves_of self labels) }
        ensures at { slice_get (moves_of self labels) place ≡ Some result }
        ensures below { IsMoveOf labels result }
        ensures kind { IsSwap result → self ≡ Moves.Swap }
    {
        match self {
            Moves::Expansion => Move::Expand(place),
            Moves::Swap => swap_at(labels, place),
        }
    }
}

/// The swap at a place of a cycle: label by label, the swaps with greater labels are counted off.
fn swap_at(labels: u32, place: u32) -> Move
    requires { place < length (swaps labels) }
    ensures at { slice_get (swaps labels) place ≡ Some result }
    ensures below { IsMoveOf labels result }
{
    let mut left = place;
    for alpha in 0..labels {
        let partners = labels - 1 - alpha;
        if left < partners {
            return Move::Swap(alpha, alpha + 1 + left);
        }
        left -= partners;
    }
    unreachable!()
}
