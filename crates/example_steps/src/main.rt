//! A program that uses the library as any other may: it makes the moves of a run in a loop of its
//! own, tells each, and leaves the run where it ends or after so many moves.
#![tactic(auto)]

ghost use Rattle.std.specs.Prelude.{◌≡◌, ◌<◌, pos, IfOk, length, replicate, slice_index};
ghost use Rattle.graph_cuts.specs.Chains.{expansions, moves_of};
ghost use Rattle.graph_cuts.specs.Courses.{HasComeTo};
ghost use Rattle.graph_cuts.specs.Grids.{distance};
ghost use Rattle.graph_cuts.specs.Labellings.{energy as energy_of, labelling as labels_of};
ghost use Rattle.graph_cuts.specs.Metrics.{potts};
ghost use Rattle.graph_cuts.specs.Posed.{IsPosed, FitsProblem, AreOfOneSize, WhereMeant};
ghost use Rattle.example_steps.specs.Pictures.{picture_problem};

use graph_cuts::costs::potts_is_metric;
use graph_cuts::{
    Alone, DataCost, Ended, Labelling, Moves, Pairs, Problem, RunUnderWay, SmoothCost, Step,
};
use std::alloc::Global;

/// The columns and rows of the picture, its grey levels, and the most cycles of a run.
const WIDTH: u32 = 3;

const HEIGHT: u32 = 2;

const LEVELS: u32 = 3;

const CYCLES: u32 = 10;

/// Where a run was left: how many whole cycles were done, and how it ended, if it has.
#[derive(Drop)]
struct Left {
    cycles: u32,
    ended: Option<Ended>,
}

/// The labels where a run was left, and their energy.
#[derive(Drop)]
struct Restored {
    labelling: Labelling,
    left: Left,
    energy: i64,
}

/// Tells a move, and how many pixels it changed.
fn tell(rt: &impl Print, step: Step) -> anyhow::Result<()> {
    println!(rt; "{:?}: {} pixels change", step.change, step.changed)?;
    Ok(())
}

/// Makes the moves of a run one by one and tells each, at most so many. The labels are then where a
/// beginning of the run's chain ends, and where the chain ends once the run has.
fn make_moves<F: Fn(u32, u32) -> i64 + Sync, V: Fn(u32, u32) -> i64 + Sync>(
    rt: &impl Print,
    alloc: Global,
    problem: &Problem<F, V>,
    labelling: &mut Labelling,
    moves: Moves,
    most: u32,
) -> anyhow::Result<Left>
    requires posed { IsPosed F.Fn V.Fn problem.now }
    requires fits { FitsProblem problem.now labelling.old }
    ensures come { WhereMeant F.Fn V.Fn problem.now (λ m. IfOk result (λ left.
        HasComeTo m (moves_of moves m.labels) 10 labelling.old.at labelling.new.at left.cycles
        left.ended)) }
    ensures sizes { AreOfOneSize labelling.old labelling.new }
{
    let mut run = RunUnderWay::begin(alloc, problem, labelling, moves, CYCLES);
    for _made in 0..most {
        let Some(step) = run.step(problem, labelling, &Alone)? else {
            break;
        };
        tell(rt, step)?;
    }
    Ok(Left {
        cycles: run.cycles(),
        ended: run.outcome(),
    })
}

/// Makes expansions of the levels of a picture from level 0 everywhere, at most so many. The energy
/// is that of the labels.
fn restore(rt: &impl Print, alloc: Global, samples: &[u8], most: u32) -> anyhow::Result<Restored>
    requires { length samples.now ≡ 6 }
    ensures come { IfOk result (λ end. HasComeTo (picture_problem samples.now) (expansions 3) 10
        (replicate 6 0) end.labelling.at end.left.cycles end.left.ended) }
    ensures energy { IfOk result (λ end. end.energy
        ≡ pos (energy_of (picture_problem samples.now) (labels_of end.labelling.at))) }
{
    let pairs = Pairs::grid4(alloc, WIDTH, HEIGHT, 1)?;
    let data_cost = DataCost::new(
        |site: u32, level: u32| -> i64
            requires { (site < length samples.now) × (level < 256) }
            ensures { result ≡ pos (distance (slice_index samples.entry.now site) level) }
        { i64::from(u32::from(samples[site as usize]).abs_diff(level)) },
        WIDTH * HEIGHT,
        LEVELS,
    );
    potts_is_metric();
    let smooth_cost = SmoothCost::metric(
        |first: u32, second: u32| -> i64
            ensures { result ≡ pos (potts first second) }
        { i64::from(first != second) },
        LEVELS,
    );
    let problem = Problem::new(pairs, data_cost, smooth_cost);
    let mut labelling = Labelling::new(alloc, WIDTH * HEIGHT, LEVELS)?;
    let left = make_moves(rt, alloc, &problem, &mut labelling, Moves::Expansion, most)?;
    let energy = problem.energy(&labelling);
    Ok(Restored {
        labelling,
        left,
        energy,
    })
}

fn main(rt: HostRuntime) -> anyhow::Result<()> {
    let restored = restore(&rt, rt.alloc(), &[1, 0, 2, 0, 0, 2], 20)?;
    match restored.left.ended {
        Some(ended) => println!(rt; "the run ends after {} cycles", ended.cycles)?,
        None => println!(rt; "20 moves are made, and the run goes on")?,
    }
    println!(rt; "energy {}", restored.energy)?;
    for (pixel, level) in restored.labelling.as_slice().iter().enumerate() {
        println!(rt; "pixel {pixel} is {level}")?;
    }
    Ok(())
}
