//! Single moves for C.
ghost use Rattle.std.specs.Prelude.{◌≡◌, ◌≢◌};
ghost use Rattle.label_energies.specs.declared.change.Move.TheVariants.{Expand, Swap};
ghost use Rattle.gco_arrays.specs.Calls.{call_arrays};
ghost use Rattle.gco_calls.specs.Calls.{IsMoveTold};
ghost use Rattle.gco_calls.specs.Refusals.{IsMoveRefusalTold};

use gco_arrays::{Arrays, GcoPair};
use gco_calls::{GcoOutcome, answer_move};
use label_energies::Move;
use std::alloc::Global;

/// Lets every site keep its label or take the label `alpha`, and writes the best of these
/// labellings. The answer is 0, or the status of a refusal, and then the labels are as they were.
#[unsafe(no_mangle)]
pub extern "C" fn gco_expand(
    alloc: Global,
    label_count: u32,
    data: &[i64],
    smooth: &[i64],
    label_costs: &[i64],
    pairs: &[GcoPair],
    alpha: u32,
    labels: &mut [u32],
    outcome: &mut GcoOutcome,
) -> u32
    ensures moved { result ≡ 0 → IsMoveTold
        (call_arrays label_count data.now smooth.now label_costs.now pairs.now labels.old)
        (Expand alpha) labels.new outcome.new }
    ensures unchanged { result ≢ 0 → labels.new ≡ labels.old }
    ensures refused { result ≢ 0 → IsMoveRefusalTold
        (call_arrays label_count data.now smooth.now label_costs.now pairs.now labels.old)
        (Expand alpha) result outcome.new }
{
    let given = Arrays {
        label_count,
        data,
        smooth,
        label_costs,
        pairs,
    };
    answer_move(alloc, &given, Move::Expand(alpha), labels, outcome)
}

/// What `gco_expand` does, over costs of 32 bits.
#[unsafe(no_mangle)]
pub extern "C" fn gco_expand_int32(
    alloc: Global,
    label_count: u32,
    data: &[i32],
    smooth: &[i32],
    label_costs: &[i32],
    pairs: &[GcoPair],
    alpha: u32,
    labels: &mut [u32],
    outcome: &mut GcoOutcome,
) -> u32
    ensures moved { result ≡ 0 → IsMoveTold
        (call_arrays label_count data.now smooth.now label_costs.now pairs.now labels.old)
        (Expand alpha) labels.new outcome.new }
    ensures unchanged { result ≢ 0 → labels.new ≡ labels.old }
    ensures refused { result ≢ 0 → IsMoveRefusalTold
        (call_arrays label_count data.now smooth.now label_costs.now pairs.now labels.old)
        (Expand alpha) result outcome.new }
{
    let narrow = Arrays {
        label_count,
        data,
        smooth,
        label_costs,
        pairs,
    };
    answer_move(alloc, &narrow, Move::Expand(alpha), labels, outcome)
}

/// Lets every site that has one of the labels `alpha` and `beta` take either, and writes the best
/// of these labellings. The answer is 0, or the status of a refusal, and then the labels are as
/// they were.
#[unsafe(no_mangle)]
pub extern "C" fn gco_swap(
    alloc: Global,
    label_count: u32,
    data: &[i64],
    smooth: &[i64],
    label_costs: &[i64],
    pairs: &[GcoPair],
    alpha: u32,
    beta: u32,
    labels: &mut [u32],
    outcome: &mut GcoOutcome,
) -> u32
    ensures moved { result ≡ 0 → IsMoveTold
        (call_arrays label_count data.now smooth.now label_costs.now pairs.now labels.old)
        (Swap alpha beta) labels.new outcome.new }
    ensures unchanged { result ≢ 0 → labels.new ≡ labels.old }
    ensures refused { result ≢ 0 → IsMoveRefusalTold
        (call_arrays label_count data.now smooth.now label_costs.now pairs.now labels.old)
        (Swap alpha beta) result outcome.new }
{
    let given = Arrays {
        label_count,
        data,
        smooth,
        label_costs,
        pairs,
    };
    answer_move(alloc, &given, Move::Swap(alpha, beta), labels, outcome)
}

/// What `gco_swap` does, over costs of 32 bits.
#[unsafe(no_mangle)]
pub extern "C" fn gco_swap_int32(
    alloc: Global,
    label_count: u32,
    data: &[i32],
    smooth: &[i32],
    label_costs: &[i32],
    pairs: &[GcoPair],
    alpha: u32,
    beta: u32,
    labels: &mut [u32],
    outcome: &mut GcoOutcome,
) -> u32
    ensures moved { result ≡ 0 → IsMoveTold
        (call_arrays label_count data.now smooth.now label_costs.now pairs.now labels.old)
        (Swap alpha beta) labels.new outcome.new }
    ensures unchanged { result ≢ 0 → labels.new ≡ labels.old }
    ensures refused { result ≢ 0 → IsMoveRefusalTold
        (call_arrays label_count data.now smooth.now label_costs.now pairs.now labels.old)
        (Swap alpha beta) result outcome.new }
{
    let narrow = Arrays {
        label_count,
        data,
        smooth,
        label_costs,
        pairs,
    };
    answer_move(alloc, &narrow, Move::Swap(alpha, beta), labels, outcome)
}
