//! Single moves.
ghost use Rattle.std.specs.Prelude.{◌≡◌, ◌≢◌, ◌+◌, ◌*◌, ◌<◌, ◌≤◌, All, Ok, IfOk, IfErr, length};
ghost use Rattle.std.specs.Prelude.{map, false};
ghost use Rattle.cost_store.specs.Limits.{data_limit, smooth_limit};
ghost use Rattle.cost_store.specs.Promises.{IsCost, cost_in, entry_at};
ghost use Rattle.label_field.specs.Limits.{label_limit};
ghost use Rattle.moves.specs.Instances.{instance_of};
ghost use Rattle.cost_store.specs.Posed.{IsPosed, WhereMeant, FitsProblem, AreOfOneSize};
ghost use Rattle.cost_store.specs.LabelCosts.{AreLabelCosts, costs_of};
ghost use Rattle.one_move.specs.Moved.{IsMoved};
ghost use Rattle.gco_arrays.specs.Calls.{IsGiven, arrays_with, instance_given};
ghost use Rattle.gco_calls.specs.Calls.{IsMoveTold};
ghost use Rattle.gco_calls.specs.Moved.{IsMovedTo};
ghost use Rattle.gco_calls.specs.Outcomes.{move_told, outcome_of_parts};
ghost use Rattle.gco_calls.specs.Refusals.{IsMoveCause, IsMoveRefusalTold};

use crate::label::copy_labels;
use crate::outcome::{GcoOutcome, NOTHING, digit, refuse};
use crate::running::refusal_of;
use cost_store::{DataCost, Problem, SmoothCost};
use gco_arrays::{Arrays, Number, Ready, Refusal, ready_of};
use label_energies::Move;
use label_field::Labelling;
use moves::{Alone, MoveError, expand, swap};
use std::alloc::Global;

/// Where a move ended.
#[derive(Drop)]
pub(crate) struct Moved {
    pub(crate) labelling: Labelling,
    pub(crate) changed: bool,
    pub(crate) data: i64,
    pub(crate) smooth: i64,
    pub(crate) label: i64,
}

/// Makes one move over the arrays that were given, and tells where it ended.
pub fn answer_move<N: Number>(
    alloc: Global,
    given: &Arrays<'_, N>,
    change: Move,
    labels: &mut [u32],
    outcome: &mut GcoOutcome,
) -> u32
    ensures moved { result ≡ 0 → IsMoveTold (arrays_with N.value given.now labels.old)
        change labels.new outcome.new }
    ensures unchanged { result ≢ 0 → labels.new ≡ labels.old }
    ensures refused { result ≢ 0 → IsMoveRefusalTold (arrays_with N.value given.now labels.old)
        change result outcome.new }
{
    match move_call(alloc, given, change, labels) {
        Ok(moved) => {
            copy_labels(moved.labelling.as_slice(), labels);
            tell_move(outcome, &moved);
            0
        }
        Err(refusal) => refuse(outcome, refusal),
    }
}

/// Makes one move over the arrays that were given, and answers where it ended.
fn move_call<N: Number>(
    alloc: Global,
    given: &Arrays<'_, N>,
    change: Move,
    at: &[u32],
) -> Result<Moved, Refusal>
    ensures given { IfOk result (λ _. IsGiven (arrays_with N.value given.now at.now)) }
    ensures moved { IfOk result (λ moved. IsMovedTo
        (instance_given (arrays_with N.value given.now at.now)) change at.now (Ok moved)) }
    ensures sized { IfOk result (λ moved. length moved.labelling.at ≡ length at.now) }
    ensures refused { IfErr result (IsMoveCause (arrays_with N.value given.now at.now) change) }
{
    let ready = ready_of(alloc, given, at)?;
    match move_over(alloc, ready, given.data, given.smooth, change) {
        Ok(moved) => Ok(moved),
        Err(error) => Err(refusal_of(error)),
    }
}

/// Makes one move over tables of costs where they lie, in the caller's memory.
fn move_over<N: Number>(
    alloc: Global,
    ready: Ready,
    data: &[N],
    smooth: &[N],
    change: Move,
) -> Result<Moved, MoveError>
    requires weighted { ready.pairs.numbered ≡ false }
    requires sites { length ready.start.at ≡ ready.pairs.sites }
    requires data { (length data.now ≡ ready.pairs.sites * ready.start.labels)
        × All (IsCost data_limit) (map N.value data.now) }
    requires smooth { (length smooth.now ≡ ready.start.labels * ready.start.labels)
        × All (IsCost smooth_limit) (map N.value smooth.now) }
    requires label_costs { AreLabelCosts ready.start.labels ready.label_costs }
    ensures moved { IsMovedTo (instance_of ready.pairs ready.start.labels
        (cost_in ready.start.labels (map N.value data.now)) (map N.value smooth.now)
        (costs_of ready.label_costs)) change ready.start.at result }
    ensures sized { IfOk result (λ moved. length moved.labelling.at ≡ length ready.start.at) }
{
    let labels = ready.start.labels();
    let sites = ready.start.sites();
    ready.pairs.keeps();
    let data_cost = DataCost::new(
        |site: u32, label: u32| -> i64
            requires { (site * labels + label < length data.now) × (labels ≤ label_limit) }
            ensures { result ≡ entry_at labels (map N.value data.entry.now) site label }
        { data[site as usize * labels as usize + label as usize].wide() },
        sites,
        labels,
    );
    let smooth_cost = SmoothCost::new(
        |first: u32, second: u32| -> i64
            requires { (first * labels + second < length smooth.now) × (labels ≤ label_limit) }
            ensures { result ≡ entry_at labels (map N.value smooth.entry.now) first second }
        { smooth[first as usize * labels as usize + second as usize].wide() },
        labels,
    );
    let problem = Problem {
        pairs: ready.pairs,
        data_cost,
        smooth_cost,
        label_costs: ready.label_costs,
    };
    move_problem(alloc, &problem, ready.start, change)
}

/// Makes one move of a problem, and tells the energy where it ends.
pub(crate) fn move_problem<F: Fn(u32, u32) -> i64 + Sync, V: Fn(u32, u32) -> i64 + Sync>(
    alloc: Global,
    problem: &Problem<F, V>,
    start: Labelling,
    change: Move,
) -> Result<Moved, MoveError>
    requires posed { IsPosed F.Fn V.Fn problem.now }
    requires fits { FitsProblem problem.now start }
    ensures moved { WhereMeant F.Fn V.Fn problem.now (λ m. IsMovedTo m change start.at result) }
    ensures sized { IfOk result (λ moved. length moved.labelling.at ≡ length start.at) }
{
    let mut labelling = start;
    match make_move(alloc, problem, &mut labelling, change) {
        Ok(changed) => {
            let data = problem.data_energy(&labelling);
            let smooth = problem.smooth_energy(&labelling);
            let label = problem.label_energy(&labelling);
            Ok(Moved {
                labelling,
                changed,
                data,
                smooth,
                label,
            })
        }
        Err(error) => Err(error),
    }
}

/// Makes one move of its kind.
fn make_move<F: Fn(u32, u32) -> i64 + Sync, V: Fn(u32, u32) -> i64 + Sync>(
    alloc: Global,
    problem: &Problem<F, V>,
    labelling: &mut Labelling,
    change: Move,
) -> Result<bool, MoveError>
    requires posed { IsPosed F.Fn V.Fn problem.now }
    requires fits { FitsProblem problem.now labelling.old }
    ensures sizes { AreOfOneSize labelling.old labelling.new }
    ensures moved { WhereMeant F.Fn V.Fn problem.now
        (λ m. IsMoved m change labelling.old.at labelling.new.at result) }
{
    match change {
        Move::Expand(alpha) => expand(alloc, problem, labelling, alpha, &Alone),
        Move::Swap(alpha, beta) => swap(alloc, problem, labelling, alpha, beta, &Alone),
    }
}

/// Tells where a move ended, and nothing else.
fn tell_move(outcome: &mut GcoOutcome, moved: &Moved)
    ensures { outcome.new
        ≡ move_told (outcome_of_parts moved.now.«data» moved.now.smooth moved.now.label)
        moved.now.changed }
{
    *outcome = GcoOutcome {
        data: moved.data,
        smooth: moved.smooth,
        label: moved.label,
        changed: digit(moved.changed),
        ..NOTHING
    };
}
