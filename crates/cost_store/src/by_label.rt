//! What labels cost by themselves.
ghost use Rattle.std.specs.Prelude.{◌≡◌, ◌≤◌, pos, unsigned_abs, All, length, IsTrue, IsFalse};
ghost use Rattle.sums.specs.Sums.{sum_below, count_if};
ghost use Rattle.label_energies.specs.Energies.{labelling as labels_of, is_used as is_used_in};
ghost use Rattle.label_field.specs.Limits.{label_limit};
ghost use Rattle.cost_store.specs.Limits.{label_cost_limit, label_energy_limit};
ghost use Rattle.cost_store.specs.Promises.{IsCost};
ghost use Rattle.cost_store.specs.LabelCosts.{cost_at, costs_of as costs_in, AreCostly, AreFree};

use crate::mark_used;

/// The costs that were set, none where none were.
pub fn costs_of(label_costs: &Option<Vec<i64>>) -> &[i64]
    ensures { result.now ≡ costs_in label_costs.now }
{
    match label_costs {
        None => &[],
        Some(costs) => costs.as_slice(),
    }
}

/// Whether some label costs something by itself.
pub fn has_cost(costs: &[i64]) -> bool
    ensures some { IsTrue result → AreCostly costs.now }
    ensures none { IsFalse result → AreFree costs.now }
{
    for label in 0..costs.len() {
        if costs[label] != 0 {
            return true;
        }
    }
    false
}

/// What a label costs by itself, where some site has it.
fn cost_if_used(used: bool, cost: i64) -> u64
    requires { IsCost (pos label_cost_limit) cost }
    ensures value { result ≡ count_if used (unsigned_abs cost) }
    ensures range { result ≤ label_cost_limit }
{
    if used { cost.unsigned_abs() } else { 0 }
}

/// What the labels that some site has cost by themselves.
pub(crate) fn total_paid(at: &[u8], costs: &[i64]) -> u64
    requires few { length costs.now ≤ label_limit }
    requires costs { All (IsCost (pos label_cost_limit)) costs.now }
    ensures value { result ≡ sum_below (length costs.now) (λ label.
        count_if (is_used_in (length at.now) (labels_of at.now) label) (cost_at costs.now label)) }
    ensures range { result ≤ label_energy_limit }
{
    let marks = mark_used(at);
    let mut total = 0u64;
    for label in 0..costs.len() {
        total += cost_if_used(marks[label], costs[label]);
    }
    total
}
