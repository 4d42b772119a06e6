//! The term of a pair of two sites.
ghost use Rattle.std.specs.Prelude.{◌≡◌, ◌<◌, ◌≤◌, ◌*◌, vec_len, IfOk, OnOk};
ghost use Rattle.move_energy.specs.Prelude.{IsWeightIn, label_after, IsMoveOf, term_limit};
ghost use Rattle.move_energy.specs.Prelude.{IsQuadraticBounded, IsPosed, WhereMeant, Open};
ghost use Rattle.move_energy.specs.Prelude.{AddsCost, AddsEnds, IsLonger};

use crate::costs::pair_table;
use crate::variables::End;
use compile_cut::Quadratic;
use cost_store::Problem;
use label_energies::Move;
use regular::is_regular_table;
use std::alloc::AllocError;

/// Adds what a pair of two open ends costs, or answers that its term is not regular.
fn add_both<F: Fn(u32, u32) -> i64 + Sync, V: Fn(u32, u32) -> i64 + Sync>(
    problem: &Problem<F, V>,
    form: &mut Quadratic,
    change: Move,
    weight: u32,
    first: End,
    second: End,
) -> Result<bool, AllocError>
    requires posed { IsPosed F.Fn V.Fn problem.now }
    requires weight { IsWeightIn problem.now.pairs weight }
    requires inside { (first.label < problem.now.data_cost.labels) ×
        (second.label < problem.now.data_cost.labels) }
    requires change { IsMoveOf problem.now.data_cost.labels change }
    requires opened { (first.choice ≡ Open) × (second.choice ≡ Open) }
    requires variables { (first.variable < vec_len form.old.weights)
        × (second.variable < vec_len form.old.weights) }
    requires bounded { IsQuadraticBounded term_limit form.old }
    ensures longer { OnOk result (IsLonger 1 form.old form.new) }
    ensures adds { IfOk result (λ fits. WhereMeant F.Fn V.Fn problem.now
        (λ m. AddsEnds weight m.smooth_cost change first second form.old form.new fits)) }
{
    let table = pair_table(problem, change, weight, first.label, second.label);
    if !is_regular_table(&table) {
        return Ok(false);
    }
    form.add_pair(first.variable, second.variable, &table)?;
    Ok(true)
}

/// Adds what a pair costs whose first end is open, the second having this label.
fn add_first<F: Fn(u32, u32) -> i64 + Sync, V: Fn(u32, u32) -> i64 + Sync>(
    problem: &Problem<F, V>,
    form: &mut Quadratic,
    change: Move,
    weight: u32,
    end: End,
    other: u32,
)
    requires posed { IsPosed F.Fn V.Fn problem.now }
    requires weight { IsWeightIn problem.now.pairs weight }
    requires inside { (end.label < problem.now.data_cost.labels)
        × (other < problem.now.data_cost.labels) }
    requires change { IsMoveOf problem.now.data_cost.labels change }
    requires variable { end.variable < vec_len form.old.weights }
    requires bounded { IsQuadraticBounded term_limit form.old }
    ensures longer { IsLonger 1 form.old form.new }
    ensures adds { WhereMeant F.Fn V.Fn problem.now
        (λ m. AddsCost form.old form.new (λ x. m.smooth_cost weight
        (label_after change end.label (x end.variable)) other)) }
{
    let stays = problem.pair_cost(weight, change.label(end.label, false), other);
    let turns = problem.pair_cost(weight, change.label(end.label, true), other);
    form.add_one(end.variable, &[stays, turns]);
}

/// Adds what a pair costs whose second end is open, the first having this label.
fn add_second<F: Fn(u32, u32) -> i64 + Sync, V: Fn(u32, u32) -> i64 + Sync>(
    problem: &Problem<F, V>,
    form: &mut Quadratic,
    change: Move,
    weight: u32,
    other: u32,
    end: End,
)
    requires posed { IsPosed F.Fn V.Fn problem.now }
    requires weight { IsWeightIn problem.now.pairs weight }
    requires inside { (end.label < problem.now.data_cost.labels)
        × (other < problem.now.data_cost.labels) }
    requires change { IsMoveOf problem.now.data_cost.labels change }
    requires variable { end.variable < vec_len form.old.weights }
    requires bounded { IsQuadraticBounded term_limit form.old }
    ensures longer { IsLonger 1 form.old form.new }
    ensures adds { WhereMeant F.Fn V.Fn problem.now
        (λ m. AddsCost form.old form.new (λ x. m.smooth_cost weight
        other (label_after change end.label (x end.variable)))) }
{
    let stays = problem.pair_cost(weight, other, change.label(end.label, false));
    let turns = problem.pair_cost(weight, other, change.label(end.label, true));
    form.add_one(end.variable, &[stays, turns]);
}

/// Adds what a pair costs: a term of its open ends. It answers no where both are open and their
/// term is not regular.
pub fn add_ends<F: Fn(u32, u32) -> i64 + Sync, V: Fn(u32, u32) -> i64 + Sync>(
    problem: &Problem<F, V>,
    form: &mut Quadratic,
    change: Move,
    weight: u32,
    first: End,
    second: End,
) -> Result<bool, AllocError>
    requires posed { IsPosed F.Fn V.Fn problem.now }
    requires weight { IsWeightIn problem.now.pairs weight }
    requires inside { (first.label < problem.now.data_cost.labels) ×
        (second.label < problem.now.data_cost.labels) }
    requires change { IsMoveOf problem.now.data_cost.labels change }
    requires first { first.choice ≡ Open → first.variable < vec_len form.old.weights }
    requires second { second.choice ≡ Open → second.variable < vec_len form.old.weights }
    requires bounded { IsQuadraticBounded term_limit form.old }
    ensures longer { OnOk result (IsLonger 1 form.old form.new) }
    ensures adds { IfOk result (λ fits. WhereMeant F.Fn V.Fn problem.now
        (λ m. AddsEnds weight m.smooth_cost change first second form.old form.new fits)) }
{
    if first.choice.is_open() {
        if second.choice.is_open() {
            return add_both(problem, form, change, weight, first, second);
        }
        let other = change.label(second.label, second.choice.bit(false));
        add_first(problem, form, change, weight, first, other);
        return Ok(true);
    }
    if !second.choice.is_open() {
        return Ok(true);
    }
    let other = change.label(first.label, first.choice.bit(false));
    add_second(problem, form, change, weight, other, second);
    Ok(true)
}
