//! Stretches of a run: at most so many of its moves a call.
ghost use Rattle.std.specs.Prelude.{◌≡◌, ◌≢◌, ◌⊎◌, ◌<◌, ◌≤◌, ◌*◌, ◌+◌, ℕ, List, length, map, All};
ghost use Rattle.std.specs.Prelude.{IfOk, IfErr, IfSome, None, Ok, false};
ghost use Rattle.cost_store.specs.Limits.{data_limit, smooth_limit};
ghost use Rattle.cost_store.specs.LabelCosts.{AreLabelCosts, costs_of};
ghost use Rattle.cost_store.specs.Promises.{IsCost, cost_in, entry_at};
ghost use Rattle.cut_ways.specs.declared.solve_error.SolveError.TheVariants.{OutOfMemory};
ghost use Rattle.label_energies.specs.Chains.{moves_of as cycle_of};
ghost use Rattle.label_field.specs.Limits.{label_limit};
ghost use Rattle.moves.specs.Bookmarks.{WasLeftAt, IsPastEnd};
ghost use Rattle.moves.specs.Instances.{instance_of};
ghost use Rattle.moves.specs.Problems.{IsRunRefusal};
ghost use Rattle.moves.specs.Stretches.{AnswersStretch, HasSizesOf};
ghost use Rattle.gco_arrays.specs.Calls.{IsGiven, arrays_with, instance_given};
ghost use Rattle.gco_arrays.specs.Statuses.{unfinished_status};
ghost use Rattle.gco_calls.specs.Calls.{IsRunTold, moves_number};
ghost use Rattle.gco_calls.specs.Outcomes.{outcome_of_parts, run_told};
ghost use Rattle.gco_calls.specs.Stretches.{IsRunLeft, IsPauseTold, EndsWithin, IsStretchRefusal};
ghost use Rattle.gco_calls.specs.Stretches.{IsStretchRefusalTold, lent_arrays, mark_of};

use crate::course::{GcoCourse, bookmark_of, course_of, put_back};
use crate::label::{copy_labels, moves_of};
use crate::outcome::{GcoOutcome, NOTHING, refuse, tell_run};
use crate::running::refusal_of;
use cost_store::{DataCost, is_metric};
use gco_arrays::{Arrays, Number, Ready, Refusal, ready_of, wide_copy};
use label_energies::Moves;
use moves::{Alone, Bookmark, LabelPrices, MoveError, Pause, Request, Stretch, stretch_with_table};
use std::alloc::Global;

/// The number of a call that made as many moves as were allowed and is not at the end of its run.
const UNFINISHED: u32 = 29;

/// Makes so many moves of the run that was lent, over the arrays that were given, and fewer only
/// where it ends. It tells where the run stands then, and hands back what the next call is to be
/// lent.
pub fn answer_stretch<N: Number>(
    alloc: Global,
    given: &Arrays<'_, N>,
    moves: u32,
    cycles: u32,
    most: u32,
    course: &mut GcoCourse,
    stamps: &mut [u32],
    made: &mut [u32],
    labels: &mut [u32],
    outcome: &mut GcoOutcome,
) -> u32
    ensures ended { result ≡ 0 → (start : List ℕ) →
        IsRunLeft (arrays_with N.value given.now start) moves
        (lent_arrays labels.old course.old stamps.old made.old) →
        IsRunTold (arrays_with N.value given.now start) moves cycles labels.new outcome.new }
    ensures within { result ≡ 0 → (start : List ℕ) →
        IsRunLeft (arrays_with N.value given.now start) moves
        (lent_arrays labels.old course.old stamps.old made.old) →
        EndsWithin (arrays_with N.value given.now start) moves course.old most labels.new }
    ensures paused { result ≡ unfinished_status → (start : List ℕ) →
        IsRunLeft (arrays_with N.value given.now start) moves
        (lent_arrays labels.old course.old stamps.old made.old) →
        IsPauseTold (arrays_with N.value given.now start) moves cycles course.old most
        (lent_arrays labels.new course.new stamps.new made.new) outcome.new }
    ensures in_order { (result ≡ 0) ⊎ (result ≡ unfinished_status) →
        IsGiven (arrays_with N.value given.now labels.old)
        × IsGiven (arrays_with N.value given.now labels.new) }
    ensures kept { result ≢ unfinished_status
        → (course.new ≡ course.old) × (stamps.new ≡ stamps.old)
        × (made.new ≡ made.old) }
    ensures unchanged { result ≢ 0 → result ≢ unfinished_status → labels.new ≡ labels.old }
    ensures refused { result ≢ 0 → result ≢ unfinished_status →
        IsStretchRefusalTold (arrays_with N.value given.now labels.old) moves cycles
        (lent_arrays labels.old course.old stamps.old made.old) result outcome.new }
{
    let Some(kind) = moves_of(moves) else {
        return refuse(outcome, Refusal::NoSuchMoves);
    };
    match stretch_call(
        alloc, given, kind, moves, cycles, most, *course, stamps, made, labels,
    ) {
        Ok(Stretch::Over(run)) => {
            copy_labels(run.labelling.as_slice(), labels);
            tell_run(outcome, &run);
            0
        }
        Ok(Stretch::Paused(pause)) => {
            copy_labels(pause.labelling.as_slice(), labels);
            put_back(&pause.bookmark.stamps, stamps);
            put_back(&pause.bookmark.made, made);
            *course = course_of(pause.bookmark.mark);
            tell_pause(outcome, &pause);
            UNFINISHED
        }
        Err(refusal) => refuse(outcome, refusal),
    }
}

/// Makes so many moves of the run that was lent, fewer where it ends, and answers where it stands.
fn stretch_call<N: Number>(
    alloc: Global,
    given: &Arrays<'_, N>,
    kind: Moves,
    number: u32,
    cycles: u32,
    most: u32,
    course: GcoCourse,
    stamps: &[u32],
    made: &[u32],
    at: &[u32],
) -> Result<Stretch, Refusal>
    requires named { number ≡ moves_number kind }
    ensures given { IfOk result (λ _. IsGiven (arrays_with N.value given.now at.now)) }
    ensures sizes { IfOk result (λ _. (length stamps.now ≡ length at.now)
        × (length made.now ≡ given.now.label_count)) }
    ensures stretch { IfOk result (λ stretch. (start : List ℕ) →
        IsRunLeft (arrays_with N.value given.now start) number
        (lent_arrays at.now course stamps.now made.now) →
        AnswersStretch (instance_given (arrays_with N.value given.now start)) kind cycles start
        (mark_of course) most (Ok (Some stretch))) }
    ensures sized { IfOk result
        (HasSizesOf (record { labels = given.now.label_count; at = at.now })) }
    ensures refused { IfErr result (IsStretchRefusal (arrays_with N.value given.now at.now) kind
        number cycles (lent_arrays at.now course stamps.now made.now)) }
{
    let ready = ready_of(alloc, given, at)?;
    if stamps.len() != at.len() || made.len() != given.label_count as usize {
        return Err(Refusal::NoSuchCourse);
    }
    let Ok(bookmark) = bookmark_of(alloc, course, stamps, made) else {
        return Err(Refusal::OutOfMemory);
    };
    let Ok(smooth) = wide_copy(alloc, given.smooth) else {
        return Err(Refusal::OutOfMemory);
    };
    match stretch_over(
        alloc, ready, given.data, &smooth, kind, cycles, bookmark, most,
    ) {
        Ok(Some(stretch)) => Ok(stretch),
        Ok(None) => Err(Refusal::NoSuchCourse),
        Err(error) => Err(refusal_of(error)),
    }
}

/// Makes so many moves of a run over tables of costs, fewer where it ends.
fn stretch_over<N: Number>(
    alloc: Global,
    ready: Ready,
    data: &[N],
    smooth: &[i64],
    moves: Moves,
    cycles: u32,
    bookmark: Bookmark,
    most: u32,
) -> Result<Option<Stretch>, MoveError>
    requires weighted { ready.pairs.numbered ≡ false }
    requires sites { length ready.start.at ≡ ready.pairs.sites }
    requires data { (length data.now ≡ ready.pairs.sites * ready.start.labels)
        × All (IsCost data_limit) (map N.value data.now) }
    requires smooth { (length smooth.now ≡ ready.start.labels * ready.start.labels)
        × All (IsCost smooth_limit) smooth.now }
    requires label_costs { AreLabelCosts ready.start.labels ready.label_costs }
    ensures stretch { (start : List ℕ) → WasLeftAt (instance_of ready.pairs ready.start.labels
        (cost_in ready.start.labels (map N.value data.now)) smooth.now (costs_of ready.label_costs))
        moves start ready.start.at bookmark.mark bookmark.stamps.items bookmark.made.items →
        AnswersStretch (instance_of ready.pairs ready.start.labels
        (cost_in ready.start.labels (map N.value data.now)) smooth.now (costs_of ready.label_costs))
        moves cycles start bookmark.mark most result }
    ensures none { result ≡ Ok None →
        IsPastEnd (cycle_of moves ready.start.labels) cycles bookmark.mark }
    ensures refused { IfErr result (IsRunRefusal (λ e. e ≡ OutOfMemory)) }
    ensures sized { IfOk result (λ stretch. IfSome stretch (HasSizesOf ready.start)) }
{
    let labels = ready.start.labels();
    let sites = ready.start.sites();
    let data_cost = DataCost::new(
        |site: u32, label: u32| -> i64
            requires { (site * labels + label < length data.now) × (labels ≤ label_limit) }
            ensures { result ≡ entry_at labels (map N.value data.entry.now) site label }
        { data[site as usize * labels as usize + label as usize].wide() },
        sites,
        labels,
    );
    let prices = LabelPrices {
        smooth,
        by_metric: is_metric(smooth, labels),
        label_costs: ready.label_costs,
    };
    let request = Request {
        start: ready.start,
        moves,
        cycles,
    };
    stretch_with_table(
        alloc,
        ready.pairs,
        data_cost,
        prices,
        request,
        bookmark,
        most,
        &Alone,
    )
}

/// Tells where a run was left, and nothing else.
fn tell_pause(outcome: &mut GcoOutcome, pause: &Pause)
    ensures { outcome.new
        ≡ run_told (outcome_of_parts pause.now.«data» pause.now.smooth pause.now.label)
        pause.now.bookmark.mark.cycles false None }
{
    *outcome = GcoOutcome {
        data: pause.data,
        smooth: pause.smooth,
        label: pause.label,
        cycles: pause.bookmark.mark.cycles,
        ..NOTHING
    };
}
