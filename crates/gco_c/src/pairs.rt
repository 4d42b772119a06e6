//! Runs and moves for C over pairs each of which has costs of its own.
ghost use Rattle.std.specs.Prelude.{◌≡◌, ◌≢◌};
ghost use Rattle.label_energies.specs.declared.change.Move.TheVariants.{Expand, Swap};
ghost use Rattle.gco_arrays.specs.Calls.{call_arrays};
ghost use Rattle.gco_arrays.specs.PairCalls.{pair_call};
ghost use Rattle.gco_calls.specs.PairRuns.{IsPairMoveRefusalTold, IsPairMoveTold};
ghost use Rattle.gco_calls.specs.PairRuns.{IsPairRefusalTold, IsPairRunTold};

use gco_arrays::{Arrays, GcoPair, PairArrays};
use gco_calls::{GcoOutcome, answer_pair_move, answer_pair_run};
use label_energies::Move;
use std::alloc::Global;

/// Makes the moves of `gco_label` over pairs each of which has costs of its own: its weight times
/// the entries of its table. The answer is 0, or the status of a refusal, and then the labels are
/// as they were.
#[unsafe(no_mangle)]
pub extern "C" fn gco_label_pairs(
    alloc: Global,
    label_count: u32,
    data: &[i64],
    table_count: u32,
    tables: &[i64],
    label_costs: &[i64],
    pairs: &[GcoPair],
    table_of: &[u32],
    moves: u32,
    cycles: u32,
    labels: &mut [u32],
    outcome: &mut GcoOutcome,
) -> u32
    ensures ran { result ≡ 0 → IsPairRunTold (pair_call
        (call_arrays label_count data.now tables.now label_costs.now pairs.now labels.old)
        table_count table_of.now)
        moves cycles labels.new outcome.new }
    ensures unchanged { result ≢ 0 → labels.new ≡ labels.old }
    ensures refused { result ≢ 0 → IsPairRefusalTold (pair_call
        (call_arrays label_count data.now tables.now label_costs.now pairs.now labels.old)
        table_count table_of.now)
        moves cycles result outcome.new }
{
    let arrays = Arrays {
        label_count,
        data,
        smooth: tables,
        label_costs,
        pairs,
    };
    let given = PairArrays {
        arrays,
        table_count,
        table_of,
    };
    answer_pair_run(alloc, &given, moves, cycles, labels, outcome)
}

/// What `gco_label_pairs` does, over costs of 32 bits.
#[unsafe(no_mangle)]
pub extern "C" fn gco_label_pairs_int32(
    alloc: Global,
    label_count: u32,
    data: &[i32],
    table_count: u32,
    tables: &[i32],
    label_costs: &[i32],
    pairs: &[GcoPair],
    table_of: &[u32],
    moves: u32,
    cycles: u32,
    labels: &mut [u32],
    outcome: &mut GcoOutcome,
) -> u32
    ensures ran { result ≡ 0 → IsPairRunTold (pair_call
        (call_arrays label_count data.now tables.now label_costs.now pairs.now labels.old)
        table_count table_of.now)
        moves cycles labels.new outcome.new }
    ensures unchanged { result ≢ 0 → labels.new ≡ labels.old }
    ensures refused { result ≢ 0 → IsPairRefusalTold (pair_call
        (call_arrays label_count data.now tables.now label_costs.now pairs.now labels.old)
        table_count table_of.now)
        moves cycles result outcome.new }
{
    let arrays = Arrays {
        label_count,
        data,
        smooth: tables,
        label_costs,
        pairs,
    };
    let narrow = PairArrays {
        arrays,
        table_count,
        table_of,
    };
    answer_pair_run(alloc, &narrow, moves, cycles, labels, outcome)
}

/// Makes the move of `gco_expand` over pairs each of which has costs of its own.
#[unsafe(no_mangle)]
pub extern "C" fn gco_expand_pairs(
    alloc: Global,
    label_count: u32,
    data: &[i64],
    table_count: u32,
    tables: &[i64],
    label_costs: &[i64],
    pairs: &[GcoPair],
    table_of: &[u32],
    alpha: u32,
    labels: &mut [u32],
    outcome: &mut GcoOutcome,
) -> u32
    ensures moved { result ≡ 0 → IsPairMoveTold (pair_call
        (call_arrays label_count data.now tables.now label_costs.now pairs.now labels.old)
        table_count table_of.now)
        (Expand alpha) labels.new outcome.new }
    ensures unchanged { result ≢ 0 → labels.new ≡ labels.old }
    ensures refused { result ≢ 0 → IsPairMoveRefusalTold (pair_call
        (call_arrays label_count data.now tables.now label_costs.now pairs.now labels.old)
        table_count table_of.now)
        (Expand alpha) result outcome.new }
{
    let arrays = Arrays {
        label_count,
        data,
        smooth: tables,
        label_costs,
        pairs,
    };
    let given = PairArrays {
        arrays,
        table_count,
        table_of,
    };
    answer_pair_move(alloc, &given, Move::Expand(alpha), labels, outcome)
}

/// What `gco_expand_pairs` does, over costs of 32 bits.
#[unsafe(no_mangle)]
pub extern "C" fn gco_expand_pairs_int32(
    alloc: Global,
    label_count: u32,
    data: &[i32],
    table_count: u32,
    tables: &[i32],
    label_costs: &[i32],
    pairs: &[GcoPair],
    table_of: &[u32],
    alpha: u32,
    labels: &mut [u32],
    outcome: &mut GcoOutcome,
) -> u32
    ensures moved { result ≡ 0 → IsPairMoveTold (pair_call
        (call_arrays label_count data.now tables.now label_costs.now pairs.now labels.old)
        table_count table_of.now)
        (Expand alpha) labels.new outcome.new }
    ensures unchanged { result ≢ 0 → labels.new ≡ labels.old }
    ensures refused { result ≢ 0 → IsPairMoveRefusalTold (pair_call
        (call_arrays label_count data.now tables.now label_costs.now pairs.now labels.old)
        table_count table_of.now)
        (Expand alpha) result outcome.new }
{
    let arrays = Arrays {
        label_count,
        data,
        smooth: tables,
        label_costs,
        pairs,
    };
    let narrow = PairArrays {
        arrays,
        table_count,
        table_of,
    };
    answer_pair_move(alloc, &narrow, Move::Expand(alpha), labels, outcome)
}

/// Makes the move of `gco_swap` over pairs each of which has costs of its own.
#[unsafe(no_mangle)]
pub extern "C" fn gco_swap_pairs(
    alloc: Global,
    label_count: u32,
    data: &[i64],
    table_count: u32,
    tables: &[i64],
    label_costs: &[i64],
    pairs: &[GcoPair],
    table_of: &[u32],
    alpha: u32,
    beta: u32,
    labels: &mut [u32],
    outcome: &mut GcoOutcome,
) -> u32
    ensures moved { result ≡ 0 → IsPairMoveTold (pair_call
        (call_arrays label_count data.now tables.now label_costs.now pairs.now labels.old)
        table_count table_of.now)
        (Swap alpha beta) labels.new outcome.new }
    ensures unchanged { result ≢ 0 → labels.new ≡ labels.old }
    ensures refused { result ≢ 0 → IsPairMoveRefusalTold (pair_call
        (call_arrays label_count data.now tables.now label_costs.now pairs.now labels.old)
        table_count table_of.now)
        (Swap alpha beta) result outcome.new }
{
    let arrays = Arrays {
        label_count,
        data,
        smooth: tables,
        label_costs,
        pairs,
    };
    let given = PairArrays {
        arrays,
        table_count,
        table_of,
    };
    answer_pair_move(alloc, &given, Move::Swap(alpha, beta), labels, outcome)
}

/// What `gco_swap_pairs` does, over costs of 32 bits.
#[unsafe(no_mangle)]
pub extern "C" fn gco_swap_pairs_int32(
    alloc: Global,
    label_count: u32,
    data: &[i32],
    table_count: u32,
    tables: &[i32],
    label_costs: &[i32],
    pairs: &[GcoPair],
    table_of: &[u32],
    alpha: u32,
    beta: u32,
    labels: &mut [u32],
    outcome: &mut GcoOutcome,
) -> u32
    ensures moved { result ≡ 0 → IsPairMoveTold (pair_call
        (call_arrays label_count data.now tables.now label_costs.now pairs.now labels.old)
        table_count table_of.now)
        (Swap alpha beta) labels.new outcome.new }
    ensures unchanged { result ≢ 0 → labels.new ≡ labels.old }
    ensures refused { result ≢ 0 → IsPairMoveRefusalTold (pair_call
        (call_arrays label_count data.now tables.now label_costs.now pairs.now labels.old)
        table_count table_of.now)
        (Swap alpha beta) result outcome.new }
{
    let arrays = Arrays {
        label_count,
        data,
        smooth: tables,
        label_costs,
        pairs,
    };
    let narrow = PairArrays {
        arrays,
        table_count,
        table_of,
    };
    answer_pair_move(alloc, &narrow, Move::Swap(alpha, beta), labels, outcome)
}
