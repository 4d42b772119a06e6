//! Bounds from below for C.
ghost use Rattle.std.specs.Prelude.{◌≡◌, ◌≢◌};
ghost use Rattle.gco_arrays.specs.Calls.{call_arrays};
ghost use Rattle.gco_arrays.specs.PairCalls.{pair_call};
ghost use Rattle.gco_calls.specs.Bounds.{IsBoundTold, IsBoundRefusalTold};
ghost use Rattle.gco_calls.specs.PairBounds.{IsPairBoundRefusalTold, IsPairBoundTold};

use gco_arrays::{Arrays, GcoPair, PairArrays};
use gco_calls::{GcoBound, answer_bound, answer_pair_bound};
use std::alloc::Global;

/// A number that no labelling's energy is below, after at most so many passes over the sites, and
/// the labels that they tell, from which a run may start. The labels that were given are tested as
/// those of `gco_label`, and play no other part. The answer is 0, or the status of a refusal, and
/// then the labels are as they were.
#[unsafe(no_mangle)]
pub extern "C" fn gco_lower_bound(
    alloc: Global,
    label_count: u32,
    data: &[i64],
    smooth: &[i64],
    label_costs: &[i64],
    pairs: &[GcoPair],
    passes: u32,
    allowed: u64,
    labels: &mut [u32],
    bound: &mut GcoBound,
) -> u32
    ensures bound { result ≡ 0 → IsBoundTold
        (call_arrays label_count data.now smooth.now label_costs.now pairs.now labels.old)
        allowed labels.new bound.new }
    ensures unchanged { result ≢ 0 → labels.new ≡ labels.old }
    ensures refused { result ≢ 0 → IsBoundRefusalTold
        (call_arrays label_count data.now smooth.now label_costs.now pairs.now labels.old)
        allowed result bound.new }
{
    let given = Arrays {
        label_count,
        data,
        smooth,
        label_costs,
        pairs,
    };
    answer_bound(alloc, &given, passes, allowed, labels, bound)
}

/// What `gco_lower_bound` tells, over pairs each of which has costs of its own: its weight times
/// the entries of its table.
#[unsafe(no_mangle)]
pub extern "C" fn gco_lower_bound_pairs(
    alloc: Global,
    label_count: u32,
    data: &[i64],
    table_count: u32,
    tables: &[i64],
    label_costs: &[i64],
    pairs: &[GcoPair],
    table_of: &[u32],
    passes: u32,
    allowed: u64,
    labels: &mut [u32],
    bound: &mut GcoBound,
) -> u32
    ensures bound { result ≡ 0 → IsPairBoundTold (pair_call
        (call_arrays label_count data.now tables.now label_costs.now pairs.now labels.old)
        table_count table_of.now)
        allowed labels.new bound.new }
    ensures unchanged { result ≢ 0 → labels.new ≡ labels.old }
    ensures refused { result ≢ 0 → IsPairBoundRefusalTold (pair_call
        (call_arrays label_count data.now tables.now label_costs.now pairs.now labels.old)
        table_count table_of.now)
        allowed result bound.new }
{
    let arrays = Arrays {
        label_count,
        data,
        smooth: tables,
        label_costs,
        pairs,
    };
    let given = PairArrays {
        arrays,
        table_count,
        table_of,
    };
    answer_pair_bound(alloc, &given, passes, allowed, labels, bound)
}
