//! How far a settled run of expansions is from the least energy at most.
ghost use Rattle.std.specs.Prelude.{◌≡◌, ◌↔◌, IsTrue, IsOk, IfOk, IfErr};
ghost use Rattle.cost_store.specs.Posed.{IsPosed, WhereMeant};
ghost use Rattle.moves.specs.Bounds.{IsBoundOf};
ghost use Rattle.cost_store.specs.LabelCosts.{costs_of as costs_in, AreFree};
ghost use Rattle.moves.specs.Laws.{PottsRunIsNear, SettledRunIsNear};

use crate::MoveError;
use cost_store::{Problem, costs_of, has_cost};

/// The least and the greatest smooth cost of two unequal labels, both 1 where there is one label.
#[derive(Clone, Copy, Debug, PartialEq, Eq)]
pub struct Bound {
    pub vmin: u64,
    pub vmax: u64,
}

/// The numbers by which a settled run of expansions is near: `vmin` times its energy is at most
/// twice `vmax` times that of any labelling (Boykov, Veksler, Zabih, PAMI 2001, theorem 6.1).
/// `NoBound` exactly where the smooth costs were not stored as a metric, or some label costs
/// something by itself. It takes no memory.
pub fn expansion_bound<F: Fn(u32, u32) -> i64 + Sync, V: Fn(u32, u32) -> i64 + Sync>(
    problem: &Problem<F, V>,
) -> Result<Bound, MoveError>
    requires posed { IsPosed F.Fn V.Fn problem.now }
    ensures bound { IfOk result
        (λ bound. WhereMeant F.Fn V.Fn problem.now (λ m. IsBoundOf m bound)) }
    ensures accepted { IsOk result ↔ (IsTrue problem.now.smooth_cost.by_metric
        × AreFree (costs_in problem.now.label_costs)) }
    ensures refused { IfErr result (λ e. e ≡ MoveError.NoBound) }
{
    if !problem.smooth_cost.by_metric {
        return Err(MoveError::NoBound);
    }
    if has_cost(costs_of(&problem.label_costs)) {
        return Err(MoveError::NoBound);
    }
    let ratio = problem.smooth_cost.ratio();
    Ok(Bound {
        vmin: ratio.least,
        vmax: ratio.greatest,
    })
}

/// A settled run of expansions is within its bound of every labelling.
pub fn settled_run_is_near()
    ensures { SettledRunIsNear }
{}

/// Over Potts costs, where no label costs anything by itself, labels within the bound have at most
/// twice the energy of any labelling (Boykov, Veksler, Zabih, PAMI 2001, theorem 6.1).
pub fn potts_run_is_near()
    ensures { PottsRunIsNear }
{}
