//! A law of the nets of energies. The function does nothing: its contract is the law.

ghost use Rattle.compile_cut.specs.Laws.{SmallestCutIsSmallestAssignment};

/// Where a net shows the values of an energy, the assignment that a smallest least cut shows is a
/// least one, its ones are among the ones of every least assignment, and its value is the cut's
/// capacity and the constant (Kolmogorov and Zabih, PAMI 2004, section 3).
pub fn smallest_cut_is_smallest_assignment()
    ensures { SmallestCutIsSmallestAssignment }
{}
