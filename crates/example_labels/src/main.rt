//! A program that uses the library as any other may: it makes a problem of labels of a small
//! picture, runs expansions, and prints where they end.
#![tactic(auto)]

ghost use Rattle.std.specs.Prelude.{◌≡◌, ◌<◌, ◌*◌, ◌≤ℤ◌, ℕ, pos, IfErr, IfOk, IsTrue, Ok, length};
ghost use Rattle.std.specs.Prelude.{replicate, slice_index};
ghost use Rattle.graph_cuts.specs.Grids.{distance};
ghost use Rattle.graph_cuts.specs.Labellings.{IsLabelled, energy as energy_of};
ghost use Rattle.graph_cuts.specs.Labellings.{labelling as labels_of};
ghost use Rattle.graph_cuts.specs.Chains.{expansions};
ghost use Rattle.graph_cuts.specs.Metrics.{potts};
ghost use Rattle.graph_cuts.specs.Problems.{IsRunOfCycles};
ghost use Rattle.example_labels.specs.Pictures.{problem_of};

use graph_cuts::costs::potts_is_metric;
use graph_cuts::laws::alone_refuses_memory;
use graph_cuts::{
    Alone, DataCost, Ended, Labelling, MoveError, Pairs, Problem, SmoothCost, potts_run_is_near,
    run_expansion,
};
use std::alloc::Global;

/// The columns and rows of the picture, and its grey levels.
const WIDTH: u32 = 3;

const HEIGHT: u32 = 2;

const LEVELS: u32 = 3;

/// Where a run ended: the last labelling, how many cycles there were and whether the last changed
/// nothing, and the energy.
#[derive(Drop)]
struct Restored {
    labelling: Labelling,
    ended: Ended,
    energy: i64,
}

/// Makes expansions of the levels of a picture from level 0 everywhere, each to the best labelling
/// that it reaches, in at most so many cycles. Once a cycle changes nothing, the energy is at most
/// twice that of any labelling. Refused where memory runs out, and for nothing else.
fn restore(alloc: Global, samples: &[u8], cycles: u32) -> Result<Restored, MoveError>
    requires { length samples.now ≡ 6 }
    ensures run { IfOk result (λ end. IsRunOfCycles (problem_of samples.now) (expansions 3) cycles
        (replicate 6 0) end.labelling.at (Ok end.ended)) }
    ensures energy { IfOk result (λ end. end.energy
        ≡ pos (energy_of (problem_of samples.now) (labels_of end.labelling.at))) }
    ensures near { IfOk result (λ end. IsTrue end.ended.settled → (h : ℕ → ℕ) →
        IsLabelled (problem_of samples.now) h →
        end.energy ≤ℤ pos (2 * energy_of (problem_of samples.now) h)) }
    ensures refused { IfErr result (λ e. e ≡ MoveError.OutOfMemory) }
{
    let pairs = Pairs::grid4(alloc, WIDTH, HEIGHT, 1)?;
    let data_cost = DataCost::new(
        |site: u32, level: u32| -> i64
            requires { (site < length samples.now) × (level < 256) }
            ensures { result ≡ pos (distance (slice_index samples.entry.now site) level) }
        { i64::from(u32::from(samples[site as usize]).abs_diff(level)) },
        WIDTH * HEIGHT,
        LEVELS,
    );
    potts_is_metric();
    let smooth_cost = SmoothCost::metric(
        |first: u32, second: u32| -> i64
            ensures { result ≡ pos (potts first second) }
        { i64::from(first != second) },
        LEVELS,
    );
    let problem = Problem::new(pairs, data_cost, smooth_cost);
    let mut labelling = Labelling::new(alloc, WIDTH * HEIGHT, LEVELS)?;
    alone_refuses_memory();
    let ended = run_expansion(alloc, &problem, &mut labelling, cycles, &Alone)?;
    potts_run_is_near();
    let energy = problem.energy(&labelling);
    Ok(Restored {
        labelling,
        ended,
        energy,
    })
}

fn main(rt: HostRuntime) -> anyhow::Result<()> {
    let restored = restore(rt.alloc(), &[1, 0, 2, 0, 0, 2], 10)?;
    for (pixel, level) in restored.labelling.as_slice().iter().enumerate() {
        println!(rt; "pixel {pixel} is {level}")?;
    }
    println!(rt; "energy {}", restored.energy)?;
    if restored.ended.settled {
        println!(rt; "settled after {} cycles", restored.ended.cycles)?;
        println!(rt; "no labelling has less than half that energy")?;
    }
    Ok(())
}
