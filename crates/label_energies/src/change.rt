//! A move, and what it does to the label of a site.
ghost use Rattle.std.specs.Prelude.{◌≡◌, ◌≢◌, ◌<◌, ◌↔◌, IsTrue, true, false};
ghost use Rattle.label_energies.specs.Moves.{label_after, favoured_label, IsMoveOf};

/// A move between labellings (Boykov, Veksler, Zabih, PAMI 2001, section 3.1).
#[derive(Clone, Copy, Debug, PartialEq, Eq)]
pub enum Move {
    /// Every site keeps its label or takes this one.
    Expand(u32),
    /// Every site that has one of the two labels takes either; every other keeps its label.
    Swap(u32, u32),
}

impl Move {
    /// The label that a site gets by the value of its variable: at 0 its own in an expansion and
    /// the first in a swap, at 1 the label of the expansion and the second of the swap.
    pub fn label(self, old: u32, bit: bool) -> u32
        ensures { result ≡ label_after self old bit }
    {
        match self {
            Move::Expand(alpha) => if bit { alpha } else { old },
            Move::Swap(alpha, beta) => {
                if old == alpha || old == beta {
                    if bit { beta } else { alpha }
                } else {
                    old
                }
            }
        }
    }

    /// Whether the move can change a label: whether the two values of its variable make two labels.
    pub fn can_change(self, old: u32) -> bool
        ensures { IsTrue result ↔ (label_after self old true ≢ label_after self old false) }
    {
        self.label(old, true) != self.label(old, false)
    }

    /// The label whose sites are kept few: of labellings of equal energy a move takes the one where
    /// they are fewest. It is the label of an expansion, and the second of a swap.
    pub fn favoured_label(self) -> u32
        ensures { result ≡ favoured_label self }
    {
        match self {
            Move::Expand(alpha) => alpha,
            Move::Swap(_, beta) => beta,
        }
    }

    /// Whether the labels of the move are below a number.
    pub fn is_below(self, labels: u32) -> bool
        ensures { IsTrue result ↔ IsMoveOf labels self }
    {
        match self {
            Move::Expand(alpha) => alpha < labels,
            Move::Swap(alpha, beta) => alpha < labels && beta < labels,
        }
    }
}
