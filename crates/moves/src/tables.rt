//! Runs of moves over tables of costs.
ghost use Rattle.std.specs.Prelude.{◌≡◌, ◌+◌, ◌*◌, ◌<◌, ◌≤◌, pos, ◌≤ℤ◌, All, IsTrue, IsNone, IfErr};
ghost use Rattle.std.specs.Prelude.{IfOk, IfSome, Ok, length, slice_index, ℕ, List, false};
ghost use Rattle.moves.specs.Prelude.{Expansion, Instance, HasMetric, data_limit, site_cost_limit};
ghost use Rattle.moves.specs.Prelude.{smooth_limit, costs_of, AreFree, AreLabelCosts, HasCosts};
ghost use Rattle.moves.specs.Prelude.{IsPosed, WhereMeant, FitsProblem, IsCost, IsMetricTable};
ghost use Rattle.moves.specs.Prelude.{Keeps, entry_at, IsBoundOf, IsInstanceOf, data_entry};
ghost use Rattle.moves.specs.Prelude.{instance_of, ArePrices, IsRunRefusal, TellsPairNotRegular};
ghost use Rattle.moves.specs.Prelude.{IsRefusalOver, AnswersRun, IsRunInRange, MayMake};
ghost use Rattle.moves.specs.Prelude.{IsRunOfCycles, moves_of};

use crate::{Bound, Ended, MoveError, Sharing, expansion_bound, run};
use cost_store::{DataCost, Problem, SmoothCost, is_metric};
use label_energies::Moves;
use label_field::{Labelling, Pairs};
use std::alloc::Global;

/// What a run is asked for: the labels that it starts from, the kind of its moves, and how many
/// cycles it may make.
#[derive(Drop)]
pub struct Request {
    pub start: Labelling,
    pub moves: Moves,
    pub cycles: u32,
}

/// What pairs of labels and labels by themselves cost.
#[derive(Drop)]
pub struct LabelPrices<'a> {
    /// The smooth costs: a row for each label of a pair's first site, and in it an entry from 0 to
    /// `SMOOTH_LIMIT` for each of the second.
    pub smooth: &'a [i64],
    /// Whether the smooth costs are a metric, which `is_metric` tells of a table that is not known.
    pub by_metric: bool,
    /// What each label costs by itself, from 0 to `LABEL_COST_LIMIT`; none if no label costs
    /// anything.
    pub label_costs: Option<Vec<i64>>,
}

/// Where a run ended.
#[derive(Drop)]
pub struct Run {
    /// The last labelling.
    pub labelling: Labelling,
    /// How many cycles there were, and whether the last changed nothing.
    pub ended: Ended,
    /// What the labels cost the sites.
    pub data: i64,
    /// What the labels cost the pairs.
    pub smooth: i64,
    /// What the labels that some site has cost by themselves.
    pub label: i64,
    /// How near the labelling is to the least energy: `vmin` times its energy is at most twice
    /// `vmax` times that of any labelling. Told exactly of a run of expansions whose last cycle
    /// changed nothing, where the smooth costs are a metric and no label costs anything by itself.
    pub bound: Option<Bound>,
}

/// Makes the moves of a request at these prices, and answers where they ended.
///
/// Refused: `LabelCostInSwap` exactly where swaps are to be made and some label costs something by
/// itself, before any move; `PairNotRegular` where the next move of the chain has a term that is
/// not regular, which never happens where the table is a metric; what `how` refuses; and out of
/// memory. The contract speaks of every instance whose data costs the closure answers: who knows
/// them names it.
pub fn run_with_table<F: Fn(u32, u32) -> i64 + Sync, H: Sharing>(
    alloc: Global,
    pairs: Pairs,
    data_cost: DataCost<F>,
    prices: LabelPrices,
    request: Request,
    how: &H,
) -> Result<Run, MoveError>
    requires ready { H.ready how.now }
    requires weighted { pairs.numbered ≡ false }
    requires sites { (length request.start.at ≡ pairs.sites) × (data_cost.sites ≡ pairs.sites) }
    requires labels { data_cost.labels ≡ request.start.labels }
    requires costs { Keeps (F.pre data_cost.f) (F.post data_cost.f) data_cost.sites data_cost.labels
        data_limit }
    requires prices { ArePrices request.start.labels prices }
    ensures run { (m : Instance) →
        IsInstanceOf (F.post data_cost.f) pairs request.start.labels prices.entry.smooth.now m →
        HasCosts m prices.entry.label_costs →
        AnswersRun m request.moves request.cycles request.start.at result }
    ensures refused { IfErr result (IsRunRefusal (H.refuses how.now)) }
    ensures metric { IsMetricTable request.start.labels prices.entry.smooth.now → (m : Instance) →
        IsInstanceOf (F.post data_cost.f) pairs request.start.labels prices.entry.smooth.now m →
        HasCosts m prices.entry.label_costs →
        IfErr result (λ e. ¬ TellsPairNotRegular e) }
    ensures over_metric { (m : Instance) →
        IsInstanceOf (F.post data_cost.f) pairs request.start.labels prices.entry.smooth.now m →
        HasCosts m prices.entry.label_costs → MayMake m request.moves →
        IfErr result (IsRefusalOver m (H.refuses how.now)) }
    ensures bounded { (m : Instance) →
        IsInstanceOf (F.post data_cost.f) pairs request.start.labels prices.entry.smooth.now m →
        HasCosts m prices.entry.label_costs →
        IfOk result (λ run. IfSome run.bound (λ bound. pos bound.vmax ≤ℤ smooth_limit)) }
    ensures sized { IfOk result (IsRunInRange request.start) }
{
    let labels = request.start.labels();
    let smooth = prices.smooth;
    pairs.keeps();
    let cost = |first: u32, second: u32| -> i64
        requires { (first * labels + second < length smooth.now) × (labels ≤ 256) }
        ensures { result ≡ entry_at labels smooth.entry.now first second }
    { smooth[first as usize * labels as usize + second as usize] };
    let problem = Problem {
        pairs,
        data_cost,
        smooth_cost: SmoothCost::with_metric(cost, labels, prices.by_metric),
        label_costs: prices.label_costs,
    };
    run_problem(alloc, &problem, request, how)
}

/// Makes the moves of a request over a table of data costs, as `run_with_table` does over any data
/// costs: the costs of the first site, label by label, then those of the next, each from 0 to
/// `DATA_LIMIT`. Over a metric, moves that may be made are refused for memory or a cut alone
/// (`over_metric`).
pub fn run_tables<H: Sharing>(
    alloc: Global,
    pairs: Pairs,
    data: &[u32],
    smooth: &[i64],
    label_costs: Option<Vec<i64>>,
    request: Request,
    how: &H,
) -> Result<Run, MoveError>
    requires ready { H.ready how.now }
    requires weighted { pairs.numbered ≡ false }
    requires sites { length request.start.at ≡ pairs.sites }
    requires data { (length data.now ≡ pairs.sites * request.start.labels)
        × All (λ cost. cost ≤ site_cost_limit) data.now }
    requires smooth { (length smooth.now ≡ request.start.labels * request.start.labels)
        × All (IsCost smooth_limit) smooth.now }
    requires label_costs { AreLabelCosts request.start.labels label_costs }
    ensures run { AnswersRun (instance_of pairs request.start.labels
        (data_entry request.start.labels data.now)
        smooth.now (costs_of label_costs)) request.moves request.cycles request.start.at result }
    ensures refused { IfErr result (IsRunRefusal (H.refuses how.now)) }
    ensures over_metric { let labels = request.start.labels in
        let m = instance_of pairs labels (data_entry labels data.now) smooth.now
        (costs_of label_costs) in
        MayMake m request.moves → IfErr result (IsRefusalOver m (H.refuses how.now)) }
    ensures sized { IfOk result (IsRunInRange request.start) }
    ensures bounded { IfOk result
        (λ run. IfSome run.bound (λ bound. pos bound.vmax ≤ℤ smooth_limit)) }
{
    let labels = request.start.labels();
    let sites = request.start.sites();
    let data_cost = DataCost::new(
        |site: u32, label: u32| -> i64
            requires { (site * labels + label < length data.now) × (labels ≤ 256) }
            ensures { result ≡ pos (slice_index data.entry.now (site * labels + label)) }
        { i64::from(data[site as usize * labels as usize + label as usize]) },
        sites,
        labels,
    );
    let prices = LabelPrices {
        smooth,
        by_metric: is_metric(smooth, labels),
        label_costs,
    };
    run_with_table(alloc, pairs, data_cost, prices, request, how)
}

/// Makes the moves of a request over a problem, and tells the energy where they end.
fn run_problem<F: Fn(u32, u32) -> i64 + Sync, V: Fn(u32, u32) -> i64 + Sync, H: Sharing>(
    alloc: Global,
    problem: &Problem<F, V>,
    request: Request,
    how: &H,
) -> Result<Run, MoveError>
    requires ready { H.ready how.now }
    requires posed { IsPosed F.Fn V.Fn problem.now }
    requires fits { FitsProblem problem.now request.start }
    requires known { WhereMeant F.Fn V.Fn problem.now
        (λ m. HasMetric m → IsTrue problem.now.smooth_cost.by_metric) }
    ensures run { WhereMeant F.Fn V.Fn problem.now
        (λ m. AnswersRun m request.moves request.cycles request.start.at result) }
    ensures refused { IfErr result (IsRunRefusal (H.refuses how.now)) }
    ensures metric { IsTrue problem.now.smooth_cost.by_metric →
        WhereMeant F.Fn V.Fn problem.now (λ m. IfErr result (λ e. ¬ TellsPairNotRegular e)) }
    ensures over_metric { WhereMeant F.Fn V.Fn problem.now
        (λ m. MayMake m request.moves → IfErr result (IsRefusalOver m (H.refuses how.now))) }
    ensures sized { IfOk result (IsRunInRange request.start) }
{
    let mut labelling = request.start;
    match run(
        alloc,
        problem,
        &mut labelling,
        request.moves,
        request.cycles,
        how,
    ) {
        Ok(ended) => Ok(end_run(problem, labelling, request.moves, ended)),
        Err(error) => Err(error),
    }
}

/// Where a run ended: the energy of its labels, and their bound, where one is known.
pub(crate) fn end_run<F: Fn(u32, u32) -> i64 + Sync, V: Fn(u32, u32) -> i64 + Sync>(
    problem: &Problem<F, V>,
    labelling: Labelling,
    moves: Moves,
    ended: Ended,
) -> Run
    requires posed { IsPosed F.Fn V.Fn problem.now }
    requires fits { FitsProblem problem.now labelling }
    requires known { WhereMeant F.Fn V.Fn problem.now
        (λ m. HasMetric m → IsTrue problem.now.smooth_cost.by_metric) }
    ensures run { WhereMeant F.Fn V.Fn problem.now (λ m. (cycles : ℕ) (start : List ℕ) →
        IsRunOfCycles m (moves_of moves m.labels) cycles start labelling.at (Ok ended) →
        MayMake m moves → AnswersRun m moves cycles start (Ok result)) }
    ensures same { result.labelling ≡ labelling }
    ensures range { IsRunInRange labelling result }
{
    labelling.keeps();
    let data = problem.data_energy(&labelling);
    let smooth = problem.smooth_energy(&labelling);
    let label = problem.label_energy(&labelling);
    let bound = bound_of(problem, moves, ended);
    Run {
        labelling,
        ended,
        data,
        smooth,
        label,
        bound,
    }
}

/// The bound of a run, where one is known.
fn bound_of<F: Fn(u32, u32) -> i64 + Sync, V: Fn(u32, u32) -> i64 + Sync>(
    problem: &Problem<F, V>,
    moves: Moves,
    ended: Ended,
) -> Option<Bound>
    requires posed { IsPosed F.Fn V.Fn problem.now }
    ensures bound { IfSome result (λ bound. (moves ≡ Expansion) × IsTrue ended.settled
        × WhereMeant F.Fn V.Fn problem.now (λ m. IsBoundOf m bound)) }
    ensures exact { IsNone result → moves ≡ Expansion → IsTrue ended.settled →
        IsTrue problem.now.smooth_cost.by_metric → ¬ AreFree (costs_of problem.now.label_costs) }
{
    match moves {
        Moves::Swap => None,
        Moves::Expansion => {
            if !ended.settled {
                return None;
            }
            match expansion_bound(problem) {
                Ok(bound) => Some(bound),
                Err(_) => None,
            }
        }
    }
}
