//! Small random runs made step by step, against the labels after each of their moves, worked out
//! over all labellings: so each run is left after each number of moves.
ghost use Rattle.std.specs.Prelude.{◌≡◌, ◌≤◌, ◌<◌, ◌+◌, ◌≤ℤ◌, pos, length};
ghost use Rattle.cost_store.specs.Posed.{IsPosed, FitsProblem, AreOfOneSize};

use crate::random::{
    BYTES, DATA, IN_STRIPS, SMOOTH, answer_wanted, digit, is_after, number, pairs_of, start_of,
};
use crate::rows::{expect, hold};
use crate::stepped_runs::RUNS_MADE;
use crate::steps::STEPS;
use cost_store::{DataCost, Problem, SmoothCost};
use label_energies::{Move, Moves};
use label_field::Labelling;
use moves::{Alone, Ended, MoveError, RunUnderWay, Sharing, Step};
use std::alloc::Global;
use std::process::Abort;

/// How many runs there are, how many moves a row of steps has, and how many bytes a step: the whole
/// cycles before it, alpha and beta, how many labels it changed, and the labels of six sites after.
const RUNS: usize = 500;

const MOVES: usize = 24;

const STEP: usize = 10;

/// A digit of the steps of a run, and 0 beyond their end.
fn step_digit(steps: &[u8], place: usize) -> u32
    ensures { result ≤ 255 }
{
    match steps.get(place) {
        Some(byte) => u32::from(byte.saturating_sub(48)),
        None => 0,
    }
}

/// Whether these are the labels from this place on.
fn are_labels(labels: &[u8], steps: &[u8], from: usize) -> bool {
    let mut place = from;
    for label in labels {
        if u32::from(*label) != step_digit(steps, place) {
            return false;
        }
        place = place.saturating_add(1);
    }
    true
}

/// Whether a step is the one at this place, and led to its labels.
fn is_step(step: Step, labels: &[u8], steps: &[u8], at: usize) -> bool
    requires { at + 10 < 1000 }
{
    let (alpha, beta) = (step_digit(steps, at + 1), step_digit(steps, at + 2));
    let is_move = match step.change {
        Move::Expand(label) => label == alpha && beta == 0,
        Move::Swap(first, second) => first == alpha && second == beta,
    };
    is_move
        && are_labels(labels, steps, at + 4)
        && step.cycle == step_digit(steps, at)
        && step.changed == step_digit(steps, at + 3)
}

/// How a run ended, told as a row tells it.
fn answer_of_run(ended: Option<Ended>) -> Option<(bool, u32)> {
    match ended {
        Some(ended) => Some((ended.settled, ended.cycles)),
        None => None,
    }
}

/// Makes the run of a row step by step. Whether each step is that of the chain, with its labels,
/// and the run ends as the row says.
fn is_stepped<F: Fn(u32, u32) -> i64 + Sync, V: Fn(u32, u32) -> i64 + Sync, H: Sharing>(
    problem: &Problem<F, V>,
    alloc: Global,
    labelling: &mut Labelling,
    row: &[u8; BYTES],
    steps: &[u8],
    how: &H,
) -> bool
    requires ready { H.ready how.now }
    requires posed { IsPosed F.Fn V.Fn problem.now }
    requires fits { FitsProblem problem.now labelling.old }
{
    let kind = if digit(row, 3) == 2 {
        Moves::Expansion
    } else {
        Moves::Swap
    };
    let mut run = RunUnderWay::begin(alloc, problem, labelling, kind, digit(row, 4));
    for place in 0..=MOVES {
        match run.step(problem, labelling, how) {
            Ok(Some(step)) => {
                if !is_step(step, labelling.as_slice(), steps, STEP * place) {
                    return false;
                }
            }
            Ok(None) => {
                let wanted = answer_wanted(row).ok();
                return answer_of_run(run.outcome()) == wanted
                    && is_after(problem, labelling, row, 0);
            }
            Err(refusal) => {
                let is_told = answer_wanted(row) == Err(refusal);
                return is_told && is_after(problem, labelling, row, 0);
            }
        }
    }
    false
}

/// Whether the run of a row is right step by step.
fn is_right<H: Sharing>(
    rt: &impl Abort,
    alloc: Global,
    row: &[u8; BYTES],
    steps: &[u8],
    how: &H,
) -> bool
    requires { H.ready how.now }
{
    let (sites, labels) = (digit(row, 0), digit(row, 1));
    hold(rt, sites <= 6);
    hold(rt, 1 <= labels && labels <= 4);
    let pairs = pairs_of(rt, alloc, row, sites);
    let mut labelling = start_of(rt, alloc, row, sites, labels);
    let problem = Problem::new(
        pairs,
        DataCost::new(
            |site: u32, label: u32| -> i64
                requires { (site < 6) × (label < 4) }
                ensures { (pos 0 ≤ℤ result) × (result ≤ℤ pos 10000000) }
            { i64::from(number(row, 9 + (site * 4 + label) as usize, DATA)) },
            sites,
            labels,
        ),
        SmoothCost::new(
            |first: u32, second: u32| -> i64
                requires { (first < 4) × (second < 4) }
                ensures { (pos 0 ≤ℤ result) × (result ≤ℤ pos 10000) }
            { i64::from(number(row, 33 + (first * 4 + second) as usize, SMOOTH)) },
            labels,
        ),
    );
    is_stepped(&problem, alloc, &mut labelling, row, steps, how)
}

/// Whether the run at this place of the table is right, with moves whole and in strips.
fn is_run_right(rt: &impl Abort, alloc: Global, place: usize) -> bool
    requires { place < 500 }
{
    hold(rt, RUNS_MADE.len() == BYTES * RUNS);
    hold(rt, STEPS.len() == STEP * MOVES * RUNS);
    let mut row = [0; BYTES];
    row.copy_from_slice(&RUNS_MADE[BYTES * place..BYTES * place + BYTES]);
    let from = STEP * MOVES * place;
    let steps = &STEPS[from..from + STEP * MOVES];
    is_right(rt, alloc, &row, steps, &Alone) && is_right(rt, alloc, &row, steps, &IN_STRIPS)
}

#[test]
fn each_step_is_of_the_chain(rt: HostRuntime) {
    for place in 0..RUNS {
        expect(&rt, place, is_run_right(&rt, rt.alloc(), place));
    }
}
