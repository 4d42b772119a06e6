//! Bounds from below over pairs each of which has costs of its own.
ghost use Rattle.std.specs.Prelude.{◌≡◌, ◌≢◌, ◌+◌, ◌*◌, ◌/◌, ◌%◌, ◌<◌, ◌≤◌, IfOk, IfErr, Ok};
ghost use Rattle.std.specs.Prelude.{length, map, pos};
ghost use Rattle.label_field.specs.Limits.{label_limit};
ghost use Rattle.cost_store.specs.LabelCosts.{costs_of};
ghost use Rattle.cost_store.specs.Promises.{entry_at};
ghost use Rattle.gco_arrays.specs.Calls.{call_arrays};
ghost use Rattle.gco_arrays.specs.PairCalls.{ArePartsOfCall, IsPairCallGiven, IsPriceIn};
ghost use Rattle.gco_arrays.specs.PairCalls.{instance_of_call, own_cost, pair_call, pair_call_with};
ghost use Rattle.gco_calls.specs.Bounds.{AnswersBound};
ghost use Rattle.gco_calls.specs.PairBounds.{IsPairBoundCause, IsPairBoundRefusalTold};
ghost use Rattle.gco_calls.specs.PairBounds.{IsPairBoundTold};

use crate::bound::{GcoBound, bound_problem, refusal_of, refuse, tell};
use crate::label::copy_labels;
use cost_store::{DataCost, Problem, SmoothCost};
use dual_bound::{BoundError, LowerBound};
use gco_arrays::{GcoPair, Number, PairArrays, PairPrices, Ready, Refusal, pair_ready_of};
use std::alloc::Global;

/// Finds a bound over the arrays that were given, and tells it.
pub fn answer_pair_bound<N: Number>(
    alloc: Global,
    given: &PairArrays<'_, N>,
    passes: u32,
    allowed: u64,
    labels: &mut [u32],
    bound: &mut GcoBound,
) -> u32
    ensures bound { result ≡ 0 → IsPairBoundTold (pair_call_with N.value given.now labels.old)
        allowed labels.new bound.new }
    ensures unchanged { result ≢ 0 → labels.new ≡ labels.old }
    ensures refused { result ≢ 0 → IsPairBoundRefusalTold
        (pair_call_with N.value given.now labels.old) allowed result bound.new }
{
    match pair_bound_call(alloc, given, passes, allowed, labels) {
        Ok(found) => {
            copy_labels(found.labelling.as_slice(), labels);
            tell(bound, found.low);
            0
        }
        Err(refusal) => refuse(bound, refusal),
    }
}

/// Finds a bound over the arrays that were given.
fn pair_bound_call<N: Number>(
    alloc: Global,
    given: &PairArrays<'_, N>,
    passes: u32,
    allowed: u64,
    at: &[u32],
) -> Result<LowerBound, Refusal>
    ensures given { IfOk result (λ _. IsPairCallGiven (pair_call_with N.value given.now at.now)) }
    ensures bound { IfOk result (λ found. AnswersBound
        (instance_of_call (pair_call_with N.value given.now at.now)) allowed (Ok found)) }
    ensures refused { IfErr result
        (IsPairBoundCause (pair_call_with N.value given.now at.now) allowed) }
{
    let ready = pair_ready_of(alloc, given, at)?;
    let arrays = given.arrays;
    match pair_bound_over(
        alloc,
        ready,
        arrays.data,
        arrays.smooth,
        arrays.pairs,
        given.table_of,
        given.table_count,
        passes,
        allowed,
    ) {
        Ok(found) => Ok(found),
        Err(error) => Err(refusal_of(error)),
    }
}

/// Finds a bound over tables of costs where they lie, in the caller's memory.
fn pair_bound_over<N: Number>(
    alloc: Global,
    ready: Ready,
    data: &[N],
    tables: &[N],
    list: &[GcoPair],
    table_of: &[u32],
    table_count: u32,
    passes: u32,
    allowed: u64,
) -> Result<LowerBound, BoundError>
    requires parts { ArePartsOfCall
        (pair_call (call_arrays ready.start.labels (map N.value data.now) (map N.value tables.now)
        (costs_of ready.label_costs) list.now ready.start.at)
        table_count table_of.now) ready }
    ensures { AnswersBound (instance_of_call
        (pair_call (call_arrays ready.start.labels (map N.value data.now) (map N.value tables.now)
        (costs_of ready.label_costs) list.now ready.start.at)
        table_count table_of.now)) allowed result }
{
    let labels = ready.start.labels();
    let sites = ready.start.sites();
    let mut pairs = ready.pairs;
    let count = pairs.len() as u32;
    pairs.number();
    pairs.keeps();
    let data_cost = DataCost::new(
        |site: u32, label: u32| -> i64
            requires { (site * labels + label < length data.now) × (labels ≤ label_limit) }
            ensures { result ≡ entry_at labels (map N.value data.entry.now) site label }
        { data[site as usize * labels as usize + label as usize].wide() },
        sites,
        labels,
    );
    let pair_costs = SmoothCost::by_pair(
        |line: u32, second: u32| -> i64
            requires some { 0 < labels }
            requires price { IsPriceIn labels (map N.value tables.now) list.now table_of.now
                (line / labels) (line % labels) second }
            ensures { result ≡ pos (own_cost labels (map N.value tables.entry.now) list.entry.now
                table_of.entry.now (line / labels) (line % labels) second) }
        {
            let prices = PairPrices {
                labels,
                tables,
                pairs: list,
                table_of,
            };
            prices.cost(line / labels, line % labels, second)
        },
        labels,
        count,
    );
    let problem = Problem {
        pairs,
        data_cost,
        smooth_cost: pair_costs,
        label_costs: ready.label_costs,
    };
    bound_problem(alloc, &problem, passes, allowed)
}
