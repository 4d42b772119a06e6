//! Stretches of a run over tables of costs: at most so many of its moves, from where it was left.
ghost use Rattle.std.specs.Prelude.{◌≡◌, ◌+◌, ◌*◌, ◌<◌, ◌≤◌, ℕ, List, IsTrue, IfErr, IfOk, IfSome};
ghost use Rattle.std.specs.Prelude.{length, All, pos, None, Some, Ok, false};
ghost use Rattle.moves.specs.Prelude.{Instance, HasMetric, data_limit, labelling as labelling_of};
ghost use Rattle.moves.specs.Prelude.{HasCosts, IsPosed, WhereMeant, FitsProblem, Keeps, entry_at};
ghost use Rattle.moves.specs.Prelude.{IsInstanceOf, ArePrices, IsRunRefusal, WasLeftAt, IsPastEnd};
ghost use Rattle.moves.specs.Prelude.{AnswersStretch, moves_of};
ghost use Rattle.moves.specs.Stretches.{HasSizesOf, TellsParts};

use crate::runs::may_make;
use crate::tables::end_run;
use crate::{Bookmark, LabelPrices, MoveError, Request, Run, RunUnderWay, Sharing};
use cost_store::{DataCost, Problem, SmoothCost};
use label_field::{Labelling, Pairs};
use std::alloc::Global;

/// Where a run was left.
#[derive(Drop)]
pub struct Pause {
    /// The labels there.
    pub labelling: Labelling,
    /// What the run leaves for the next stretch.
    pub bookmark: Bookmark,
    /// What the labels cost the sites.
    pub data: i64,
    /// What the labels cost the pairs.
    pub smooth: i64,
    /// What the labels that some site has cost by themselves.
    pub label: i64,
}

/// What a stretch of a run came to.
#[derive(Drop)]
pub enum Stretch {
    /// The run ended.
    Over(Run),
    /// As many moves as were allowed are made, and the run is not at its end.
    Paused(Pause),
}

/// Makes so many moves of a run that was left at the labels of a request, at these prices, and
/// fewer only where the run ends. `None` where no run of so many cycles goes on from the bookmark's
/// mark. Refused as `run_with_table` is. Where the bookmark is that of a run from some start
/// (`WasLeftAt`), the stretch goes on with its chain, and any stretches one after another end where
/// one run does.
pub fn stretch_with_table<F: Fn(u32, u32) -> i64 + Sync, H: Sharing>(
    alloc: Global,
    pairs: Pairs,
    data_cost: DataCost<F>,
    prices: LabelPrices,
    request: Request,
    bookmark: Bookmark,
    most: u32,
    how: &H,
) -> Result<Option<Stretch>, MoveError>
    requires ready { H.ready how.now }
    requires weighted { pairs.numbered ≡ false }
    requires sites { (length request.start.at ≡ pairs.sites) × (data_cost.sites ≡ pairs.sites) }
    requires labels { data_cost.labels ≡ request.start.labels }
    requires costs { Keeps (F.pre data_cost.f) (F.post data_cost.f) data_cost.sites data_cost.labels
        data_limit }
    requires prices { ArePrices request.start.labels prices }
    ensures run { (m : Instance) →
        IsInstanceOf (F.post data_cost.f) pairs request.start.labels prices.entry.smooth.now m →
        HasCosts m prices.entry.label_costs → (start : List ℕ) →
        WasLeftAt m request.moves start request.start.at bookmark.mark bookmark.stamps.items
        bookmark.made.items →
        AnswersStretch m request.moves request.cycles start bookmark.mark most result }
    ensures none { result ≡ Ok None →
        IsPastEnd (moves_of request.moves request.start.labels) request.cycles bookmark.mark }
    ensures refused { IfErr result (IsRunRefusal (H.refuses how.now)) }
    ensures sized { IfOk result (λ stretch. IfSome stretch (HasSizesOf request.start)) }
{
    let labels = request.start.labels();
    let smooth = prices.smooth;
    pairs.keeps();
    let cost = |first: u32, second: u32| -> i64
        requires { (first * labels + second < length smooth.now) × (labels ≤ 256) }
        ensures { result ≡ entry_at labels smooth.entry.now first second }
    { smooth[first as usize * labels as usize + second as usize] };
    let problem = Problem {
        pairs,
        data_cost,
        smooth_cost: SmoothCost::with_metric(cost, labels, prices.by_metric),
        label_costs: prices.label_costs,
    };
    stretch_problem(alloc, &problem, request, bookmark, most, how)
}

/// Makes so many moves of a run over a problem, fewer where it ends, and tells the energy where it
/// stands then.
fn stretch_problem<F: Fn(u32, u32) -> i64 + Sync, V: Fn(u32, u32) -> i64 + Sync, H: Sharing>(
    alloc: Global,
    problem: &Problem<F, V>,
    request: Request,
    bookmark: Bookmark,
    most: u32,
    how: &H,
) -> Result<Option<Stretch>, MoveError>
    requires ready { H.ready how.now }
    requires posed { IsPosed F.Fn V.Fn problem.now }
    requires fits { FitsProblem problem.now request.start }
    requires known { WhereMeant F.Fn V.Fn problem.now
        (λ m. HasMetric m → IsTrue problem.now.smooth_cost.by_metric) }
    ensures run { WhereMeant F.Fn V.Fn problem.now (λ m. (start : List ℕ) →
        WasLeftAt m request.moves start request.start.at bookmark.mark bookmark.stamps.items
        bookmark.made.items →
        AnswersStretch m request.moves request.cycles start bookmark.mark most result) }
    ensures none { result ≡ Ok None →
        IsPastEnd (moves_of request.moves request.start.labels) request.cycles bookmark.mark }
    ensures refused { IfErr result (IsRunRefusal (H.refuses how.now)) }
    ensures sized { IfOk result (λ stretch. IfSome stretch (HasSizesOf request.start)) }
{
    if !may_make(&problem.label_costs, request.moves) {
        return Err(MoveError::LabelCostInSwap);
    }
    let (moves, cycles) = (request.moves, request.cycles);
    let mut labelling = request.start;
    let Some(mut run) = RunUnderWay::resume(alloc, problem, &labelling, moves, cycles, bookmark)
    else {
        return Ok(None);
    };
    run.make_moves(problem, &mut labelling, most, how)?;
    match run.outcome() {
        Some(ended) => Ok(Some(Stretch::Over(end_run(problem, labelling, moves, ended)))),
        None => Ok(Some(Stretch::Paused(pause_at(problem, labelling, run.leave())))),
    }
}

/// Where a run was left, and the energy there.
fn pause_at<F: Fn(u32, u32) -> i64 + Sync, V: Fn(u32, u32) -> i64 + Sync>(
    problem: &Problem<F, V>,
    labelling: Labelling,
    bookmark: Bookmark,
) -> Pause
    requires posed { IsPosed F.Fn V.Fn problem.now }
    requires fits { FitsProblem problem.now labelling }
    ensures parts { WhereMeant F.Fn V.Fn problem.now
        (λ m. TellsParts m labelling.at result.«data» result.smooth result.label) }
    ensures same { (result.labelling ≡ labelling) × (result.bookmark ≡ bookmark) }
{
    let data = problem.data_energy(&labelling);
    let smooth = problem.smooth_energy(&labelling);
    let label = problem.label_energy(&labelling);
    Pause {
        labelling,
        bookmark,
        data,
        smooth,
        label,
    }
}
