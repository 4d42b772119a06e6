//! Runs and moves over any problem, as one question.
ghost use Rattle.std.specs.Prelude.{◌≡◌, IfOk, length};
ghost use Rattle.cost_store.specs.Posed.{IsPosed, WhereMeant, FitsProblem};
ghost use Rattle.gco_calls.specs.PairRuns.{AnswersAsked};
ghost use Rattle.gco_calls.specs.declared.asked.Asked.TheVariants.{Run, One};

use crate::moving::move_problem;
use cost_store::Problem;
use label_energies::{Move, Moves};
use label_field::Labelling;
use moves::{Alone, Ended, MoveError, run};
use std::alloc::Global;

/// What is asked for: moves of a kind in so many cycles, or one move.
#[derive(Clone, Copy)]
pub(crate) enum Asked {
    Run(Moves, u32),
    One(Move),
}

/// Where it ended. Of one move there are no cycles, and it did not settle; of a run it is not told
/// whether a label changed.
#[derive(Drop)]
pub(crate) struct Made {
    pub(crate) labelling: Labelling,
    pub(crate) ended: Ended,
    pub(crate) changed: bool,
    pub(crate) data: i64,
    pub(crate) smooth: i64,
    pub(crate) label: i64,
}

/// Makes what is asked for over a problem, and tells the energy where it ends.
pub(crate) fn ask<F: Fn(u32, u32) -> i64 + Sync, V: Fn(u32, u32) -> i64 + Sync>(
    alloc: Global,
    problem: &Problem<F, V>,
    start: Labelling,
    asked: Asked,
) -> Result<Made, MoveError>
    requires posed { IsPosed F.Fn V.Fn problem.now }
    requires fits { FitsProblem problem.now start }
    ensures made { WhereMeant F.Fn V.Fn problem.now (λ m. AnswersAsked m asked start.at result) }
    ensures sized { IfOk result (λ made. length made.labelling.at ≡ length start.at) }
{
    match asked {
        Asked::Run(moves, cycles) => ask_run(alloc, problem, start, moves, cycles),
        Asked::One(change) => ask_move(alloc, problem, start, change),
    }
}

/// Makes a run.
fn ask_run<F: Fn(u32, u32) -> i64 + Sync, V: Fn(u32, u32) -> i64 + Sync>(
    alloc: Global,
    problem: &Problem<F, V>,
    start: Labelling,
    moves: Moves,
    cycles: u32,
) -> Result<Made, MoveError>
    requires posed { IsPosed F.Fn V.Fn problem.now }
    requires fits { FitsProblem problem.now start }
    ensures made { WhereMeant F.Fn V.Fn problem.now
        (λ m. AnswersAsked m (Run moves cycles) start.at result) }
    ensures sized { IfOk result (λ made. length made.labelling.at ≡ length start.at) }
{
    let mut labelling = start;
    match run(alloc, problem, &mut labelling, moves, cycles, &Alone) {
        Ok(ended) => {
            let data = problem.data_energy(&labelling);
            let smooth = problem.smooth_energy(&labelling);
            let label = problem.label_energy(&labelling);
            Ok(Made {
                labelling,
                ended,
                changed: false,
                data,
                smooth,
                label,
            })
        }
        Err(error) => Err(error),
    }
}

/// Makes one move.
fn ask_move<F: Fn(u32, u32) -> i64 + Sync, V: Fn(u32, u32) -> i64 + Sync>(
    alloc: Global,
    problem: &Problem<F, V>,
    start: Labelling,
    change: Move,
) -> Result<Made, MoveError>
    requires posed { IsPosed F.Fn V.Fn problem.now }
    requires fits { FitsProblem problem.now start }
    ensures made { WhereMeant F.Fn V.Fn problem.now
        (λ m. AnswersAsked m (One change) start.at result) }
    ensures sized { IfOk result (λ made. length made.labelling.at ≡ length start.at) }
{
    match move_problem(alloc, problem, start, change) {
        Ok(moved) => Ok(Made {
            labelling: moved.labelling,
            ended: Ended {
                cycles: 0,
                settled: false,
            },
            changed: moved.changed,
            data: moved.data,
            smooth: moved.smooth,
            label: moved.label,
        }),
        Err(error) => Err(error),
    }
}
