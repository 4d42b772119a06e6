//! How the work of a move is shared out.
ghost use Rattle.std.specs.Prelude.{◌<◌};

use crate::fork::{Fork, InOrder};
use crate::how::{Alone, How};

/// The rows, labels and lists of so many open sites stand in a cache of one to two million bytes.
const STRIP_SITES: usize = 1 << 14;

/// A way to cut that also says how the work of a move is shared out. The answers are the same,
/// whatever it says. What is not said is as on the thread of the caller.
pub trait Sharing: How {
    /// What does the parts of a move.
    type Fork: Fork;

    /// Whether a move decides sites before its net is made. Only a test says no.
    fn decides_first(&self) -> bool {
        true
    }

    /// How many open sites a move closes in at once, each time by two cuts, before it asks for its
    /// last net; 0 where all that is open is one net.
    fn strip_sites(&self) -> usize {
        STRIP_SITES
    }

    /// In how many parts a move of so many sites is closed in at first, side by side.
    fn parts(&self, _sites: usize) -> usize
        ensures { 0 < result }
    {
        1
    }

    /// Whether several threads cut a net together. Then small nets are cut on the thread of the
    /// caller, in less time than threads take to share them.
    fn shares_nets(&self) -> bool {
        false
    }

    /// Whether the thread of the caller cuts each net as `Alone` does. Then a move lays what is
    /// left of it in rows, which that thread cuts, and asks for no net.
    fn is_alone(&self) -> bool {
        false
    }

    /// What does the parts of a move.
    fn fork(&self) -> Self::Fork
        requires ready { Self.ready self.now }
        ensures { Self.Fork.can_do result };
}

impl Sharing for Alone {
    type Fork = InOrder;

    fn is_alone(&self) -> bool {
        true
    }

    fn fork(&self) -> InOrder {
        InOrder
    }
}
