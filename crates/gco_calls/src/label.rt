//! Runs of moves.
ghost use Rattle.std.specs.Prelude.{◌≡◌, ◌≢◌, length, IfSome, IfOk, IfErr, None, Ok};
ghost use Rattle.moves.specs.Runs.{AnswersRun};
ghost use Rattle.gco_arrays.specs.Calls.{IsGiven, arrays_with, instance_given};
ghost use Rattle.gco_calls.specs.Calls.{IsRunTold, moves_number};
ghost use Rattle.gco_calls.specs.Refusals.{IsLabelRefusal, IsRefusalTold};

use crate::outcome::{GcoOutcome, refuse, tell_run};
use crate::running::{refusal_of, run_over};
use gco_arrays::{Arrays, Number, Refusal, ready_of, wide_copy};
use label_energies::Moves;
use moves::Run;
use std::alloc::Global;

/// Makes the moves that a number names over the arrays that were given, and tells where they ended.
pub fn answer_run<N: Number>(
    alloc: Global,
    given: &Arrays<'_, N>,
    moves: u32,
    cycles: u32,
    labels: &mut [u32],
    outcome: &mut GcoOutcome,
) -> u32
    ensures ran { result ≡ 0 → IsRunTold (arrays_with N.value given.now labels.old)
        moves cycles labels.new outcome.new }
    ensures unchanged { result ≢ 0 → labels.new ≡ labels.old }
    ensures refused { result ≢ 0 → IsRefusalTold (arrays_with N.value given.now labels.old)
        moves cycles result outcome.new }
{
    let Some(kind) = moves_of(moves) else {
        return refuse(outcome, Refusal::NoSuchMoves);
    };
    match run_call(alloc, given, kind, cycles, labels) {
        Ok(run) => {
            copy_labels(run.labelling.as_slice(), labels);
            tell_run(outcome, &run);
            0
        }
        Err(refusal) => refuse(outcome, refusal),
    }
}

/// Makes the moves that were asked for over the arrays that were given, and answers where they
/// ended.
fn run_call<N: Number>(
    alloc: Global,
    given: &Arrays<'_, N>,
    moves: Moves,
    cycles: u32,
    at: &[u32],
) -> Result<Run, Refusal>
    ensures given { IfOk result (λ _. IsGiven (arrays_with N.value given.now at.now)) }
    ensures run { IfOk result (λ run. AnswersRun
        (instance_given (arrays_with N.value given.now at.now)) moves cycles at.now (Ok run)) }
    ensures sized { IfOk result (λ run. length run.labelling.at ≡ length at.now) }
    ensures refused { IfErr result
        (IsLabelRefusal (arrays_with N.value given.now at.now) moves cycles) }
{
    let ready = ready_of(alloc, given, at)?;
    let Ok(smooth) = wide_copy(alloc, given.smooth) else {
        return Err(Refusal::OutOfMemory);
    };
    match run_over(alloc, ready, given.data, &smooth, moves, cycles) {
        Ok(run) => Ok(run),
        Err(error) => Err(refusal_of(error)),
    }
}

/// The moves that a number names.
pub(crate) fn moves_of(number: u32) -> Option<Moves>
    ensures some { IfSome result (λ moves. number ≡ moves_number moves) }
    ensures none { result ≡ None → (number ≢ 0) × (number ≢ 1) }
{
    match number {
        0 => Some(Moves::Expansion),
        1 => Some(Moves::Swap),
        _ => None,
    }
}

pub(crate) fn copy_labels(from: &[u8], to: &mut [u32])
    requires { length from.now ≡ length to.old }
    ensures { to.new ≡ from.now }
{
    for (place, label) in from.iter().enumerate() {
        to[place] = u32::from(*label);
    }
}
