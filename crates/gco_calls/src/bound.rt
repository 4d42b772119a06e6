//! Bounds from below.
ghost use Rattle.std.specs.Prelude.{◌≡◌, ◌≢◌, ◌+◌, ◌*◌, ◌<◌, ◌≤◌, All, Ok, IfOk, IfErr, length};
ghost use Rattle.std.specs.Prelude.{map, false};
ghost use Rattle.cost_store.specs.Limits.{data_limit, smooth_limit};
ghost use Rattle.cost_store.specs.Promises.{IsCost, cost_in, entry_at};
ghost use Rattle.label_field.specs.Limits.{label_limit};
ghost use Rattle.moves.specs.Instances.{instance_of};
ghost use Rattle.cost_store.specs.LabelCosts.{AreLabelCosts, costs_of};
ghost use Rattle.cost_store.specs.Posed.{IsPosed, WhereMeant};
ghost use Rattle.gco_arrays.specs.Calls.{IsGiven, arrays_with, instance_given};
ghost use Rattle.gco_arrays.specs.Statuses.{status_of};
ghost use Rattle.gco_calls.specs.Bounds.{AnswersBound, IsBoundCause, IsBoundTold};
ghost use Rattle.gco_calls.specs.Bounds.{IsBoundRefusalTold, bound_refusal, bound_told};
ghost use Rattle.gco_calls.specs.Bounds.{bound_refusal_told};

use crate::label::copy_labels;
use cost_store::{DataCost, Problem, SmoothCost};
use dual_bound::{BoundError, LowerBound, lower_bound};
use gco_arrays::{Arrays, Number, Ready, Refusal, ready_of};
use std::alloc::Global;

/// What a call tells beside its status and its labels. All of it is written by each call.
#[repr(C)]
#[derive(Clone, Copy)]
pub struct GcoBound {
    /// A number that no labelling's energy is below. Else 0.
    pub low: i64,
    /// The place that a refusal names. Else 0.
    pub place: u64,
}

/// Finds a bound over the arrays that were given, and tells it.
pub fn answer_bound<N: Number>(
    alloc: Global,
    given: &Arrays<'_, N>,
    passes: u32,
    allowed: u64,
    labels: &mut [u32],
    bound: &mut GcoBound,
) -> u32
    ensures bound { result ≡ 0 → IsBoundTold (arrays_with N.value given.now labels.old)
        allowed labels.new bound.new }
    ensures unchanged { result ≢ 0 → labels.new ≡ labels.old }
    ensures refused { result ≢ 0 → IsBoundRefusalTold (arrays_with N.value given.now labels.old)
        allowed result bound.new }
{
    match bound_call(alloc, given, passes, allowed, labels) {
        Ok(found) => {
            copy_labels(found.labelling.as_slice(), labels);
            tell(bound, found.low);
            0
        }
        Err(refusal) => refuse(bound, refusal),
    }
}

/// Finds a bound over the arrays that were given.
fn bound_call<N: Number>(
    alloc: Global,
    given: &Arrays<'_, N>,
    passes: u32,
    allowed: u64,
    at: &[u32],
) -> Result<LowerBound, Refusal>
    ensures given { IfOk result (λ _. IsGiven (arrays_with N.value given.now at.now)) }
    ensures bound { IfOk result (λ found. AnswersBound
        (instance_given (arrays_with N.value given.now at.now)) allowed (Ok found)) }
    ensures refused { IfErr result (IsBoundCause (arrays_with N.value given.now at.now) allowed) }
{
    let ready = ready_of(alloc, given, at)?;
    match bound_over(alloc, ready, given.data, given.smooth, passes, allowed) {
        Ok(found) => Ok(found),
        Err(error) => Err(refusal_of(error)),
    }
}

/// Finds a bound over tables of costs where they lie, in the caller's memory.
fn bound_over<N: Number>(
    alloc: Global,
    ready: Ready,
    data: &[N],
    smooth: &[N],
    passes: u32,
    allowed: u64,
) -> Result<LowerBound, BoundError>
    requires weighted { ready.pairs.numbered ≡ false }
    requires sites { length ready.start.at ≡ ready.pairs.sites }
    requires data { (length data.now ≡ ready.pairs.sites * ready.start.labels)
        × All (IsCost data_limit) (map N.value data.now) }
    requires smooth { (length smooth.now ≡ ready.start.labels * ready.start.labels)
        × All (IsCost smooth_limit) (map N.value smooth.now) }
    requires label_costs { AreLabelCosts ready.start.labels ready.label_costs }
    ensures { AnswersBound (instance_of ready.pairs ready.start.labels
        (cost_in ready.start.labels (map N.value data.now)) (map N.value smooth.now)
        (costs_of ready.label_costs)) allowed result }
{
    let labels = ready.start.labels();
    let sites = ready.start.sites();
    ready.pairs.keeps();
    let data_cost = DataCost::new(
        |site: u32, label: u32| -> i64
            requires { (site * labels + label < length data.now) × (labels ≤ label_limit) }
            ensures { result ≡ entry_at labels (map N.value data.entry.now) site label }
        { data[site as usize * labels as usize + label as usize].wide() },
        sites,
        labels,
    );
    let smooth_cost = SmoothCost::new(
        |first: u32, second: u32| -> i64
            requires { (first * labels + second < length smooth.now) × (labels ≤ label_limit) }
            ensures { result ≡ entry_at labels (map N.value smooth.entry.now) first second }
        { smooth[first as usize * labels as usize + second as usize].wide() },
        labels,
    );
    let problem = Problem {
        pairs: ready.pairs,
        data_cost,
        smooth_cost,
        label_costs: ready.label_costs,
    };
    bound_problem(alloc, &problem, passes, allowed)
}

/// Finds a bound of a problem.
pub(crate) fn bound_problem<F: Fn(u32, u32) -> i64 + Sync, V: Fn(u32, u32) -> i64 + Sync>(
    alloc: Global,
    problem: &Problem<F, V>,
    passes: u32,
    allowed: u64,
) -> Result<LowerBound, BoundError>
    requires posed { IsPosed F.Fn V.Fn problem.now }
    requires labels { (1 ≤ problem.now.data_cost.labels)
        × (problem.now.data_cost.labels ≤ label_limit) }
    ensures { WhereMeant F.Fn V.Fn problem.now (λ m. AnswersBound m allowed result) }
{
    match lower_bound(alloc, problem, passes, allowed) {
        Ok(found) => {
            found.labelling.keeps();
            Ok(found)
        }
        Err(error) => Err(error),
    }
}

/// The refusal of a call whose bound was refused.
pub(crate) fn refusal_of(error: BoundError) -> Refusal
    ensures { result ≡ bound_refusal error }
{
    match error {
        BoundError::TooLarge(_) => Refusal::TooLarge,
        BoundError::OutOfMemory => Refusal::OutOfMemory,
    }
}

/// Tells a bound, and nothing else.
pub(crate) fn tell(bound: &mut GcoBound, low: i64)
    ensures { bound.new ≡ bound_told low }
{
    *bound = GcoBound { low, place: 0 };
}

/// Tells a refusal, and nothing else.
pub(crate) fn refuse(bound: &mut GcoBound, refusal: Refusal) -> u32
    ensures some { result ≢ 0 }
    ensures status { result ≡ status_of refusal }
    ensures told { bound.new ≡ bound_refusal_told refusal }
{
    *bound = GcoBound {
        low: 0,
        place: refusal.place() as u64,
    };
    refusal.status()
}
