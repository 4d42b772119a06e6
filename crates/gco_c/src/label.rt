//! Runs of moves for C.
ghost use Rattle.std.specs.Prelude.{◌≡◌, ◌≢◌};
ghost use Rattle.gco_arrays.specs.Calls.{call_arrays};
ghost use Rattle.gco_calls.specs.Calls.{IsRunTold};
ghost use Rattle.gco_calls.specs.Refusals.{IsRefusalTold};

use gco_arrays::{Arrays, GcoPair};
use gco_calls::{GcoOutcome, answer_run};
use std::alloc::Global;

/// Makes moves from the labels that were given, until a whole cycle changes nothing or so many
/// cycles are done, and writes the labels where they ended. `moves` is 0 for expansions and 1 for
/// swaps. The answer is 0, or the status of a refusal, and then the labels are as they were.
#[unsafe(no_mangle)]
pub extern "C" fn gco_label(
    alloc: Global,
    label_count: u32,
    data: &[i64],
    smooth: &[i64],
    label_costs: &[i64],
    pairs: &[GcoPair],
    moves: u32,
    cycles: u32,
    labels: &mut [u32],
    outcome: &mut GcoOutcome,
) -> u32
    ensures ran { result ≡ 0 → IsRunTold
        (call_arrays label_count data.now smooth.now label_costs.now pairs.now labels.old)
        moves cycles labels.new outcome.new }
    ensures unchanged { result ≢ 0 → labels.new ≡ labels.old }
    ensures refused { result ≢ 0 → IsRefusalTold
        (call_arrays label_count data.now smooth.now label_costs.now pairs.now labels.old)
        moves cycles result outcome.new }
{
    let given = Arrays {
        label_count,
        data,
        smooth,
        label_costs,
        pairs,
    };
    answer_run(alloc, &given, moves, cycles, labels, outcome)
}

/// What `gco_label` does, over costs of 32 bits.
#[unsafe(no_mangle)]
pub extern "C" fn gco_label_int32(
    alloc: Global,
    label_count: u32,
    data: &[i32],
    smooth: &[i32],
    label_costs: &[i32],
    pairs: &[GcoPair],
    moves: u32,
    cycles: u32,
    labels: &mut [u32],
    outcome: &mut GcoOutcome,
) -> u32
    ensures ran { result ≡ 0 → IsRunTold
        (call_arrays label_count data.now smooth.now label_costs.now pairs.now labels.old)
        moves cycles labels.new outcome.new }
    ensures unchanged { result ≢ 0 → labels.new ≡ labels.old }
    ensures refused { result ≢ 0 → IsRefusalTold
        (call_arrays label_count data.now smooth.now label_costs.now pairs.now labels.old)
        moves cycles result outcome.new }
{
    let given = Arrays {
        label_count,
        data,
        smooth,
        label_costs,
        pairs,
    };
    answer_run(alloc, &given, moves, cycles, labels, outcome)
}
