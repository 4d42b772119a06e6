//! Laws of expansions that are made once more: each function does nothing, and its contract is the
//! law. As in `site_bounds`, what labels cost by themselves is left out.

ghost use Rattle.std.specs.Prelude.{ℕ, List};
ghost use Rattle.label_energies.specs.declared.change.Move.TheVariants.{Expand};
ghost use Rattle.label_energies.specs.Energies.{Instance, AreLabelsFree, labelling};
ghost use Rattle.label_energies.specs.Moves.{IsBest};
ghost use Rattle.near_changes.specs.Fresh.{LowersNothing};
ghost use Rattle.near_changes.specs.Laws.{PartWithoutFreshIsEmpty, ClosedSetHoldsLeast};
ghost use Rattle.near_changes.specs.Laws.{ClosedSetIsLeast, ClosedStageEndsMove};
ghost use Rattle.near_changes.specs.Laws.{NotedMoveIsStamped};

/// After an expansion no expansion of its label lowers the energy (Boykov, Veksler, Zabih, PAMI
/// 2001), and so, where no label costs anything by itself, none lowers what the labels cost the
/// sites and the pairs.
pub fn best_lowers_nothing()
    ensures { (m : Instance) (a : ℕ) (f g : List ℕ) → AreLabelsFree m → IsBest m (Expand a) f g →
        LowersNothing m a (labelling g) }
{}

/// Each part of the sites that take the label that stands by itself holds a fresh site, one that
/// changed since the label's last expansion or is beside one that did: a part with none is empty.
pub fn part_without_fresh_is_empty()
    ensures { PartWithoutFreshIsEmpty }
{}

/// Closing: where the sites that take the label lie within t, and a set holds the fresh sites of t
/// and no pair leads from it to others of t that could take the label, they lie within the set.
pub fn closed_set_holds_least()
    ensures { ClosedSetHoldsLeast }
{}

/// A closed set of open sites that holds what takes the label is what takes the label: no last cut
/// is needed.
pub fn closed_set_is_least()
    ensures { ClosedSetIsLeast }
{}

/// A stage that closes ends the move: the zeros are zeros of the least assignment with the fewest
/// ones, and a set of open sites is a part of the ones of the stage and holds their fresh sites.
/// Then the set is what takes the label.
pub fn closed_stage_ends_move()
    ensures { ClosedStageEndsMove }
{}

/// What a run of expansions remembers stays true over each move that is noted: of the label itself
/// no expansion lowers anything now, and of each other label the sites that took the label of the
/// move have its number, which is later.
pub fn noted_move_is_stamped()
    ensures { NotedMoveIsStamped }
{}
