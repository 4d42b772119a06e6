//! Laws of moves and chains: each function does nothing, and its contract is the law.

ghost use Rattle.std.specs.Prelude.{◌≡◌, ℕ, ◌≤◌, List, All, length};
ghost use Rattle.label_energies.specs.declared.change.Move.{Move};
ghost use Rattle.label_energies.specs.Energies.{Instance, IsInstance, energy, labelling};
ghost use Rattle.label_energies.specs.Moves.{IsBest, IsAllowed};
ghost use Rattle.label_energies.specs.Chains.{MovesLead, IsBeginning};
ghost use Rattle.label_energies.specs.Laws.{ChainNeverRises, MetricIsAllowed, SettledIsNear};

/// There is one best labelling.
pub fn best_is_unique()
    ensures { (m : Instance) (move : Move) (f g h : List ℕ) → length f ≡ m.sites
        → IsBest m move f g →
        IsBest m move f h → g ≡ h }
{}

/// A move never raises the energy, nor does a run.
pub fn energy_never_rises()
    ensures one { (m : Instance) (move : Move) (f g : List ℕ) → IsBest m move f g →
        energy m (labelling g) ≤ energy m (labelling f) }
    ensures run { ChainNeverRises }
    ensures refused { (m : Instance) (moves : List Move) (allowed : ℕ)
        (f g : List ℕ) (next : Move) →
        IsBeginning m moves allowed f g next → energy m (labelling g) ≤ energy m (labelling f) }
{}

/// A move that is made once more, with no change since, changes nothing, and it is not refused
/// where it was not: a run may leave it out.
pub fn repeated_move_is_known()
    ensures best { (m : Instance) (move : Move) (f g : List ℕ) → IsBest m move f g
        → IsBest m move g g }
    ensures allowed { (m : Instance) (move : Move) (f g : List ℕ) → IsInstance m → IsAllowed m move
        (labelling f) → IsBest m move f g → IsAllowed m move (labelling g) }
{}

/// A cycle that ends where it began changed nothing: each labelling on the way is the first, and
/// each of its moves is best there. So a settled run's last cycle is one of equal labellings.
pub fn settled_cycle_changes_nothing()
    ensures same { (m : Instance) (before after : List Move) (f g : List ℕ)
        → MovesLead m before f g →
        MovesLead m after g f → g ≡ f }
    ensures best { (m : Instance) (moves : List Move) (f : List ℕ)
        → MovesLead m moves f f → All (λ move.
        IsBest m move f f) moves }
{}

/// A settled run of expansions over a metric, where no label costs anything by itself, is within
/// twice the ratio of every labelling (Boykov, Veksler, Zabih, PAMI 2001, theorem 6.1).
pub fn settled_is_near()
    ensures { SettledIsNear }
{}

/// In a move over a metric no pair's term fails to be regular.
pub fn metric_is_allowed()
    ensures { MetricIsAllowed }
{}
