//! Runs and moves over tables of costs where they lie, in the caller's memory.
ghost use Rattle.std.specs.Prelude.{◌≡◌, ◌+◌, ◌*◌, ◌<◌, ◌≤◌, All, IfOk, IfErr, length};
ghost use Rattle.std.specs.Prelude.{map, false};
ghost use Rattle.cost_store.specs.Limits.{data_limit, smooth_limit};
ghost use Rattle.cost_store.specs.Promises.{IsCost, cost_in, entry_at};
ghost use Rattle.label_field.specs.Limits.{label_limit};
ghost use Rattle.moves.specs.Instances.{instance_of};
ghost use Rattle.moves.specs.Runs.{AnswersRun, IsRunInRange};
ghost use Rattle.cost_store.specs.LabelCosts.{AreLabelCosts, costs_of};
ghost use Rattle.moves.specs.Problems.{IsRunRefusal};
ghost use Rattle.cut_ways.specs.declared.solve_error.SolveError.TheVariants.{OutOfMemory};
ghost use Rattle.gco_calls.specs.Refusals.{move_refusal};

use cost_store::{DataCost, is_metric};
use gco_arrays::{Number, Ready, Refusal};
use label_energies::Moves;
use moves::{Alone, LabelPrices, MoveError, Request, Run, run_with_table};
use std::alloc::Global;

/// Makes moves over tables of costs.
pub(crate) fn run_over<N: Number>(
    alloc: Global,
    ready: Ready,
    data: &[N],
    smooth: &[i64],
    moves: Moves,
    cycles: u32,
) -> Result<Run, MoveError>
    requires weighted { ready.pairs.numbered ≡ false }
    requires sites { length ready.start.at ≡ ready.pairs.sites }
    requires data { (length data.now ≡ ready.pairs.sites * ready.start.labels)
        × All (IsCost data_limit) (map N.value data.now) }
    requires smooth { (length smooth.now ≡ ready.start.labels * ready.start.labels)
        × All (IsCost smooth_limit) smooth.now }
    requires label_costs { AreLabelCosts ready.start.labels ready.label_costs }
    ensures run { AnswersRun (instance_of ready.pairs ready.start.labels
        (cost_in ready.start.labels (map N.value data.now)) smooth.now (costs_of ready.label_costs))
        moves cycles ready.start.at result }
    ensures refused { IfErr result (IsRunRefusal (λ e. e ≡ OutOfMemory)) }
    ensures sized { IfOk result (IsRunInRange ready.start) }
{
    let labels = ready.start.labels();
    let sites = ready.start.sites();
    let data_cost = DataCost::new(
        |site: u32, label: u32| -> i64
            requires { (site * labels + label < length data.now) × (labels ≤ label_limit) }
            ensures { result ≡ entry_at labels (map N.value data.entry.now) site label }
        { data[site as usize * labels as usize + label as usize].wide() },
        sites,
        labels,
    );
    let prices = LabelPrices {
        smooth,
        by_metric: is_metric(smooth, labels),
        label_costs: ready.label_costs,
    };
    run_with_table(
        alloc,
        ready.pairs,
        data_cost,
        prices,
        Request {
            start: ready.start,
            moves,
            cycles,
        },
        &Alone,
    )
}

/// The refusal of a call whose run or move was refused.
pub(crate) fn refusal_of(error: MoveError) -> Refusal
    ensures { result ≡ move_refusal error }
{
    match error {
        MoveError::PairNotRegular { pair, alpha, beta } => Refusal::NotRegular {
            pair,
            alpha,
            beta,
        },
        MoveError::LabelCostInSwap => Refusal::LabelCostInSwap,
        MoveError::NoSuchLabel => Refusal::NoSuchMove,
        MoveError::Workers | MoveError::BadOptions | MoveError::NoBound | MoveError::OutOfMemory =>
            Refusal::OutOfMemory,
    }
}
