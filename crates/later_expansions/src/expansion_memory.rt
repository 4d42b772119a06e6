//! What a run of expansions remembers of its moves.
ghost use Rattle.std.specs.Prelude.{◌≡◌, List, ℕ, length};
ghost use Rattle.later_expansions.specs.Prelude.{Expand, labelling as labelling_of, IsBest};
ghost use Rattle.later_expansions.specs.Prelude.{costs_of as costs_in, AreFree, WhereMeant};
ghost use Rattle.later_expansions.specs.Prelude.{FitsProblem, AreStampsOf, AreStamped, is_marked};
ghost use Rattle.later_expansions.specs.Prelude.{AreTaking, site_values, HasTaken};

use cost_store::{Problem, costs_of, has_cost};
use label_energies::Moves;
use label_field::Labelling;
use move_energy::Choice;
use near_changes::{Changes, Stage};
use std::alloc::Global;

/// What a run remembers at its beginning: its moves from then on where it is one of expansions that
/// come again, the smooth costs were stored as a metric or each pair has costs of its own, and no
/// label costs anything by itself. Else, and where memory for that is refused, nothing.
pub fn begin_changes<F: Fn(u32, u32) -> i64 + Sync, V: Fn(u32, u32) -> i64 + Sync>(
    alloc: Global,
    problem: &Problem<F, V>,
    labelling: &Labelling,
    moves: Moves,
    cycles: u32,
) -> Changes
    requires fits { FitsProblem problem.now labelling.now }
    ensures { AreStampsOf F.Fn V.Fn problem.now labelling.now result }
{
    let comes_again = moves == Moves::Expansion && cycles > 1;
    let testable = problem.smooth_cost.by_metric || problem.pairs.are_numbered();
    if !comes_again || !testable || has_cost(costs_of(&problem.label_costs)) {
        return Changes::none(alloc);
    }
    match Changes::new(alloc, labelling.sites(), labelling.labels()) {
        Ok(changes) => changes,
        Err(_) => Changes::none(alloc),
    }
}

/// Notes an expansion that was made whole. Where a label costs something by itself, none is
/// remembered.
pub fn note_whole<F: Fn(u32, u32) -> i64 + Sync, V: Fn(u32, u32) -> i64 + Sync>(
    problem: &Problem<F, V>,
    changes: &mut Changes,
    alpha: u32,
    choices: &[Choice],
)
    ensures { (f g : List ℕ) → HasTaken alpha (site_values choices.now) f g →
        WhereMeant F.Fn V.Fn problem.now (λ m. length f ≡ m.sites → IsBest m (Expand alpha) f g →
        AreStamped m (labelling_of f) changes.old → AreStamped m (labelling_of g) changes.new) }
{
    if has_cost(costs_of(&problem.label_costs)) {
        changes.forget();
    } else {
        changes.note_values(alpha, choices);
    }
}

/// Notes an expansion that looked near the changes alone.
pub fn note_later<F: Fn(u32, u32) -> i64 + Sync, V: Fn(u32, u32) -> i64 + Sync>(
    problem: &Problem<F, V>,
    changes: &mut Changes,
    alpha: u32,
    stage: &Stage,
)
    requires free { AreFree (costs_in problem.now.label_costs) }
    ensures { (f g : List ℕ) → AreTaking (length f) stage.now →
        HasTaken alpha (is_marked stage.now.taken.items) f g →
        WhereMeant F.Fn V.Fn problem.now (λ m. length f ≡ m.sites → IsBest m (Expand alpha) f g →
        AreStamped m (labelling_of f) changes.old → AreStamped m (labelling_of g) changes.new) }
{
    let _costs = &problem.label_costs;
    changes.note_sites(alpha, &stage.taking);
}
