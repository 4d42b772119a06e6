//! Laws of swaps that are made once more: each function does nothing, and its contract is the law.
ghost use Rattle.near_swaps.specs.Laws.{ClosedSetHoldsChanges, ClosedSetEndsSwap};

/// A part of the sites that would get another label, by itself and with no fresh site, is empty. To
/// turn it would have changed the energy then by as much as now: not below, since the labels were
/// least, and not above, since the values are least now; and a part that changes nothing is in the
/// ones of neither.
pub fn closed_set_holds_changes()
    ensures { ClosedSetHoldsChanges }
{}

/// So all sites keep their labels outside a closed set of those that may get another one by two
/// bounds. Both bounds are the same in the set: beside it stand only sites that both keep.
pub fn closed_set_ends_swap()
    ensures { ClosedSetEndsSwap }
{}
