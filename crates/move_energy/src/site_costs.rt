//! What a site and a pair cost in a move.
ghost use Rattle.std.specs.Prelude.{◌≡◌, ◌<◌, ◌≤◌, pos, ◌-ℤ◌, ◌≤ℤ◌, true, false, All, unsigned_abs};
ghost use Rattle.std.specs.Prelude.{IsTrue, ◌↔◌};
ghost use Rattle.move_energy.specs.Prelude.{label_after, IsMoveOf, site_cost_limit};
ghost use Rattle.move_energy.specs.Prelude.{pair_cost_limit};
ghost use Rattle.move_energy.specs.Prelude.{IsCost, IsPosed, WhereMeant, surplus_of};

use crate::costs::surplus;
use cost_store::Problem;
use label_energies::Move;

/// How much more the label costs a site where its value turns from 0 to 1: 0 where the move cannot
/// change the site. Both costs are asked of each site: a test of its label could not be foreseen.
pub fn data_rise<F: Fn(u32, u32) -> i64 + Sync, V: Fn(u32, u32) -> i64 + Sync>(
    problem: &Problem<F, V>,
    change: Move,
    site: u32,
    label: u32,
) -> i64
    requires posed { IsPosed F.Fn V.Fn problem.now }
    requires inside { (site < problem.now.pairs.sites) × (label < problem.now.data_cost.labels) }
    requires change { IsMoveOf problem.now.data_cost.labels change }
    ensures rise { WhereMeant F.Fn V.Fn problem.now
        (λ m. result ≡ pos (m.data_cost site (label_after change label
        true)) -ℤ pos (m.data_cost site (label_after change label false))) }
    ensures range { unsigned_abs result ≤ site_cost_limit }
{
    let turns = change.label(label, true);
    let stays = change.label(label, false);
    problem.site_cost(site, turns) - problem.site_cost(site, stays)
}

/// Whether a pair's term is regular.
pub fn is_regular(table: &[i64; 4]) -> bool
    requires { All (IsCost (pos pair_cost_limit)) table.now }
    ensures { IsTrue result ↔ (pos 0 ≤ℤ surplus_of table.now) }
{
    surplus(table) >= 0
}
