//! What a call tells beside its status.
ghost use Rattle.std.specs.Prelude.{◌≡◌, ◌≢◌, cond};
ghost use Rattle.gco_calls.specs.Outcomes.{bound_numbers, outcome_of_parts, run_told};
ghost use Rattle.gco_calls.specs.Refusals.{IsTold};
ghost use Rattle.gco_arrays.specs.Statuses.{unfinished_status};

use gco_arrays::Refusal;
use moves::{Bound, Run};

/// What a call tells beside its status. All of it is written by each call, 0 where nothing is said.
#[repr(C)]
#[derive(Clone, Copy)]
pub struct GcoOutcome {
    /// What the labels cost the sites.
    pub data: i64,
    /// What the labels cost the pairs.
    pub smooth: i64,
    /// What the labels that some site has cost by themselves.
    pub label: i64,
    /// The place that a refusal names.
    pub place: u64,
    /// Where a bound is known, `vmin` times the energy is at most twice `vmax` times that of any
    /// labelling; else 0 and 0.
    pub vmin: u64,
    pub vmax: u64,
    /// How many cycles there were.
    pub cycles: u32,
    /// 1 where the last cycle changed nothing, else 0.
    pub settled: u32,
    /// 1 where one move changed a label, else 0.
    pub changed: u32,
    /// The labels of the move that a refusal names: twice the same of an expansion.
    pub alpha: u32,
    pub beta: u32,
}

/// An outcome that tells nothing.
pub(crate) const NOTHING: GcoOutcome = GcoOutcome {
    data: 0,
    smooth: 0,
    label: 0,
    place: 0,
    vmin: 0,
    vmax: 0,
    cycles: 0,
    settled: 0,
    changed: 0,
    alpha: 0,
    beta: 0,
};

pub(crate) fn digit(yes: bool) -> u32
    ensures { result ≡ cond yes 1 0 }
{
    if yes { 1 } else { 0 }
}

/// The two numbers of a bound, or 0 and 0.
fn numbers(bound: Option<Bound>) -> (u64, u64)
    ensures { result ≡ bound_numbers bound }
{
    match bound {
        Some(bound) => (bound.vmin, bound.vmax),
        None => (0, 0),
    }
}

/// Tells where a run ended, and nothing else.
pub(crate) fn tell_run(outcome: &mut GcoOutcome, run: &Run)
    ensures { outcome.new ≡ run_told (outcome_of_parts run.now.«data» run.now.smooth run.now.label)
        run.now.ended.cycles run.now.ended.settled run.now.bound }
{
    let (vmin, vmax) = numbers(run.bound);
    *outcome = GcoOutcome {
        data: run.data,
        smooth: run.smooth,
        label: run.label,
        vmin,
        vmax,
        cycles: run.ended.cycles,
        settled: digit(run.ended.settled),
        ..NOTHING
    };
}

/// Tells a refusal, and nothing else.
pub(crate) fn refuse(outcome: &mut GcoOutcome, refusal: Refusal) -> u32
    ensures some { (result ≢ 0) × (result ≢ unfinished_status) }
    ensures told { IsTold refusal result outcome.new }
{
    let (alpha, beta) = refusal.labels();
    *outcome = GcoOutcome {
        place: refusal.place() as u64,
        alpha,
        beta,
        ..NOTHING
    };
    refusal.status()
}
