//! Runs and moves over pairs each of which has costs of its own.
ghost use Rattle.std.specs.Prelude.{◌≡◌, ◌≢◌, ◌+◌, ◌*◌, ◌/◌, ◌%◌, ◌<◌, ◌≤◌, IfOk, IfErr, Ok};
ghost use Rattle.std.specs.Prelude.{cond, length, map, pos};
ghost use Rattle.label_field.specs.Limits.{label_limit};
ghost use Rattle.cost_store.specs.LabelCosts.{costs_of};
ghost use Rattle.cost_store.specs.Promises.{entry_at};
ghost use Rattle.gco_arrays.specs.Calls.{call_arrays};
ghost use Rattle.gco_arrays.specs.PairCalls.{ArePartsOfCall, IsPairCallGiven, IsPriceIn};
ghost use Rattle.gco_arrays.specs.PairCalls.{instance_of_call, own_cost, pair_call, pair_call_with};
ghost use Rattle.gco_calls.specs.Outcomes.{outcome_of_parts};
ghost use Rattle.gco_calls.specs.PairRuns.{AnswersAsked, IsAskedRefusal, IsPairMoveRefusalTold};
ghost use Rattle.gco_calls.specs.PairRuns.{IsPairMoveTold, IsPairRefusalTold, IsPairRunTold};

use crate::asked::{Asked, Made, ask};
use crate::label::{copy_labels, moves_of};
use crate::outcome::{GcoOutcome, NOTHING, digit, refuse};
use crate::running::refusal_of;
use cost_store::{DataCost, Problem, SmoothCost};
use gco_arrays::{GcoPair, Number, PairArrays, PairPrices, Ready, Refusal, pair_ready_of};
use label_energies::Move;
use moves::MoveError;
use std::alloc::Global;

/// Makes the moves that a number names over the arrays that were given, and tells where they ended.
pub fn answer_pair_run<N: Number>(
    alloc: Global,
    given: &PairArrays<'_, N>,
    moves: u32,
    cycles: u32,
    labels: &mut [u32],
    outcome: &mut GcoOutcome,
) -> u32
    ensures ran { result ≡ 0 → IsPairRunTold (pair_call_with N.value given.now labels.old)
        moves cycles labels.new outcome.new }
    ensures unchanged { result ≢ 0 → labels.new ≡ labels.old }
    ensures refused { result ≢ 0 → IsPairRefusalTold (pair_call_with N.value given.now labels.old)
        moves cycles result outcome.new }
{
    let Some(kind) = moves_of(moves) else {
        return refuse(outcome, Refusal::NoSuchMoves);
    };
    match pairs_call(alloc, given, Asked::Run(kind, cycles), labels) {
        Ok(made) => {
            copy_labels(made.labelling.as_slice(), labels);
            tell_made(outcome, &made);
            0
        }
        Err(refusal) => refuse(outcome, refusal),
    }
}

/// Makes one move over the arrays that were given, and tells where it ended.
pub fn answer_pair_move<N: Number>(
    alloc: Global,
    given: &PairArrays<'_, N>,
    change: Move,
    labels: &mut [u32],
    outcome: &mut GcoOutcome,
) -> u32
    ensures moved { result ≡ 0 → IsPairMoveTold (pair_call_with N.value given.now labels.old)
        change labels.new outcome.new }
    ensures unchanged { result ≢ 0 → labels.new ≡ labels.old }
    ensures refused { result ≢ 0 → IsPairMoveRefusalTold
        (pair_call_with N.value given.now labels.old) change result outcome.new }
{
    match pairs_call(alloc, given, Asked::One(change), labels) {
        Ok(made) => {
            copy_labels(made.labelling.as_slice(), labels);
            tell_made(outcome, &made);
            0
        }
        Err(refusal) => refuse(outcome, refusal),
    }
}

/// Makes what is asked for over the arrays that were given, and answers where it ended.
fn pairs_call<N: Number>(
    alloc: Global,
    given: &PairArrays<'_, N>,
    asked: Asked,
    at: &[u32],
) -> Result<Made, Refusal>
    ensures given { IfOk result (λ _. IsPairCallGiven (pair_call_with N.value given.now at.now)) }
    ensures made { IfOk result (λ made. AnswersAsked
        (instance_of_call (pair_call_with N.value given.now at.now)) asked at.now (Ok made)) }
    ensures sized { IfOk result (λ made. length made.labelling.at ≡ length at.now) }
    ensures refused { IfErr result
        (IsAskedRefusal (pair_call_with N.value given.now at.now) asked) }
{
    let ready = pair_ready_of(alloc, given, at)?;
    let arrays = given.arrays;
    match pairs_over(
        alloc,
        ready,
        arrays.data,
        arrays.smooth,
        arrays.pairs,
        given.table_of,
        given.table_count,
        asked,
    ) {
        Ok(made) => Ok(made),
        Err(error) => Err(refusal_of(error)),
    }
}

/// Makes what is asked for over tables of costs where they lie, in the caller's memory.
fn pairs_over<N: Number>(
    alloc: Global,
    ready: Ready,
    data: &[N],
    tables: &[N],
    list: &[GcoPair],
    table_of: &[u32],
    table_count: u32,
    asked: Asked,
) -> Result<Made, MoveError>
    requires parts { ArePartsOfCall
        (pair_call (call_arrays ready.start.labels (map N.value data.now) (map N.value tables.now)
        (costs_of ready.label_costs) list.now ready.start.at)
        table_count table_of.now) ready }
    ensures made { AnswersAsked (instance_of_call
        (pair_call (call_arrays ready.start.labels (map N.value data.now) (map N.value tables.now)
        (costs_of ready.label_costs) list.now ready.start.at)
        table_count table_of.now)) asked ready.start.at result }
    ensures sized { IfOk result (λ made. length made.labelling.at ≡ length ready.start.at) }
{
    let labels = ready.start.labels();
    let sites = ready.start.sites();
    let mut pairs = ready.pairs;
    let count = pairs.len() as u32;
    pairs.number();
    pairs.keeps();
    let data_cost = DataCost::new(
        |site: u32, label: u32| -> i64
            requires { (site * labels + label < length data.now) × (labels ≤ label_limit) }
            ensures { result ≡ entry_at labels (map N.value data.entry.now) site label }
        { data[site as usize * labels as usize + label as usize].wide() },
        sites,
        labels,
    );
    let pair_costs = SmoothCost::by_pair(
        |line: u32, second: u32| -> i64
            requires some { 0 < labels }
            requires price { IsPriceIn labels (map N.value tables.now) list.now table_of.now
                (line / labels) (line % labels) second }
            ensures { result ≡ pos (own_cost labels (map N.value tables.entry.now) list.entry.now
                table_of.entry.now (line / labels) (line % labels) second) }
        {
            let prices = PairPrices {
                labels,
                tables,
                pairs: list,
                table_of,
            };
            prices.cost(line / labels, line % labels, second)
        },
        labels,
        count,
    );
    let problem = Problem {
        pairs,
        data_cost,
        smooth_cost: pair_costs,
        label_costs: ready.label_costs,
    };
    ask(alloc, &problem, ready.start, asked)
}

/// Tells where what was asked for ended, and nothing else.
fn tell_made(outcome: &mut GcoOutcome, made: &Made)
    ensures { outcome.new
        ≡ record (outcome_of_parts made.now.«data» made.now.smooth made.now.label) {
          cycles = made.now.ended.cycles;
          settled = cond made.now.ended.settled 1 0;
          changed = cond made.now.changed 1 0;
        } }
{
    *outcome = GcoOutcome {
        data: made.data,
        smooth: made.smooth,
        label: made.label,
        cycles: made.ended.cycles,
        settled: digit(made.ended.settled),
        changed: digit(made.changed),
        ..NOTHING
    };
}
