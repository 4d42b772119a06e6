//! Laws of deciding variables one after another: each function does nothing, and its contract is
//! the law. The first two are of submodular functions of an assignment, the next three of any
//! function, the last of the labellings that a move makes.

ghost use Rattle.site_bounds.specs.Laws.{PassingIsForced, PassedAreForced, PassedSitesAreForced};
ghost use Rattle.site_bounds.specs.Laws.{ForcedIsLeast, RestAndForcedIsLeast, HidingIsLeast};
ghost use Rattle.site_bounds.specs.Laws.{MoveIsSubmodular, MoveIsOverSites};

/// What passes the test is forced, in a function whose rises fall.
pub fn passed_is_forced()
    ensures one { PassingIsForced }
    ensures all { PassedAreForced }
{}

/// Each forced variable has its value in the least assignment with the fewest ones.
pub fn forced_is_least()
    ensures { ForcedIsLeast }
{}

/// The least assignment with the fewest ones of what is left, put together with the forced values,
/// is that of the whole.
pub fn rest_and_forced_is_least()
    ensures { RestAndForcedIsLeast }
{}

/// The least assignment with the fewest ones of a function that hides variables is, on the
/// variables that are not hidden, that of what it is least to.
pub fn hidden_is_least()
    ensures { HidingIsLeast }
{}

/// Of a move whose terms are regular, the energies of the labellings that it makes have rises that
/// fall, and depend on the sites alone. So a site that passes the test is forced.
pub fn move_is_submodular()
    ensures falls { MoveIsSubmodular }
    ensures sites { MoveIsOverSites }
    ensures passed { PassedSitesAreForced }
{}
