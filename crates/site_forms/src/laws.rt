//! The laws of a move as a form, and of what is read of it.
ghost use Rattle.site_forms.specs.MoveForms.{FormTellsMove, ToldIsSubmodular, ToldIsForm};
ghost use Rattle.site_forms.specs.MoveForms.{FormTellsDifference, PlacesFall};
ghost use Rattle.site_forms.specs.Numbers.{FormTellsRises};

/// A move's form tells the rises of its energies (`tells`), for expansions and for swaps, whatever
/// the smooth costs are. Where each pair's term is regular, a neighbour that turns makes no rise
/// larger (`places`), so the function that is told is submodular (`submodular`; Kolmogorov, Zabih,
/// PAMI 2004, theorem 4.1). The numbers tell the function but for its value where all is 0
/// (`value`), so of a move they tell the difference of two energies (`difference`).
pub fn form_laws()
    ensures tells { FormTellsMove }
    ensures places { PlacesFall }
    ensures submodular { ToldIsSubmodular }
    ensures value { ToldIsForm }
    ensures difference { FormTellsDifference }
{}

/// What was read of a move tells the rises of its energies, for expansions and for swaps, whatever
/// the smooth costs are.
pub fn form_tells_rises()
    ensures { FormTellsRises }
{}
