//! What a call was given each of whose pairs has costs of its own, by tables.
ghost use Rattle.std.specs.Prelude.{◌≡◌, ◌*◌, ◌<◌, All, IfOk, IfErr, length, map};
ghost use Rattle.cost_store.specs.Limits.{data_limit};
ghost use Rattle.cost_store.specs.Promises.{IsCost};
ghost use Rattle.gco_arrays.specs.PairCalls.{AreTablesCounted, ArePartsOfCall, IsRestCounted};
ghost use Rattle.gco_arrays.specs.PairCalls.{pair_call_with};
ghost use Rattle.gco_arrays.specs.PairRefusals.{IsEntryRefusal, IsPairCallRefusal};
ghost use Rattle.gco_arrays.specs.PairRefusals.{IsTableCountRefusal};
ghost use Rattle.gco_arrays.specs.Calls.{arrays_with};
ghost use Rattle.gco_arrays.specs.Refusals.{IsCountRefusal};

use crate::checks::{check_counts, check_ranges, check_table};
use crate::number::Number;
use crate::pairs::pairs_of;
use crate::prices::PairPrices;
use crate::ready::{Arrays, Ready, costs_given};
use crate::refusal::Refusal;
use crate::start::start_of;
use cost_store::{CostError, DATA_LIMIT};
use std::alloc::Global;

/// The arrays of a call, but for its labels. Their smooth costs are so many tables, one after
/// another; and there is the number of each pair's table, or no number: then pair `n` has table
/// `n`.
#[derive(Clone, Copy)]
pub struct PairArrays<'a, N> {
    pub arrays: Arrays<'a, N>,
    pub table_count: u32,
    pub table_of: &'a [u32],
}

/// Tests what a call was given, in the order of its arrays, and makes the parts of its problem.
pub fn pair_ready_of<N: Number>(
    alloc: Global,
    given: &PairArrays<'_, N>,
    at: &[u32],
) -> Result<Ready, Refusal>
    ensures ready { IfOk result (ArePartsOfCall (pair_call_with N.value given.now at.now)) }
    ensures refused { IfErr result (IsPairCallRefusal (pair_call_with N.value given.now at.now)) }
{
    let arrays = given.arrays;
    let sites = check_rest(&arrays, at)?;
    check_tables(
        arrays.label_count,
        given.table_count,
        arrays.smooth.len(),
        arrays.pairs.len(),
        given.table_of.len(),
    )?;
    check_ranges(arrays.data, &[], arrays.label_costs)?;
    check_entries(arrays.smooth)?;
    let pairs = pairs_of(alloc, sites, arrays.pairs)?;
    prices_of(given).check(given.table_count)?;
    let start = start_of(alloc, arrays.label_count, at)?;
    let label_costs = costs_given(alloc, arrays.label_costs)?;
    Ok(Ready {
        pairs,
        start,
        label_costs,
    })
}

/// What the pairs cost.
pub fn prices_of<'a, N>(given: &PairArrays<'a, N>) -> PairPrices<'a, 'a, 'a, N>
    ensures { result ≡ record {
      labels = given.now.arrays.label_count;
      tables = given.now.arrays.smooth;
      pairs = given.now.arrays.pairs;
      table_of = given.now.table_of;
    } }
{
    PairPrices {
        labels: given.arrays.label_count,
        tables: given.arrays.smooth,
        pairs: given.arrays.pairs,
        table_of: given.table_of,
    }
}

/// Whether the arrays are as long as they must be, but for the tables: the number of sites.
fn check_rest<N: Number>(arrays: &Arrays<'_, N>, at: &[u32]) -> Result<u32, Refusal>
    ensures sites { IfOk result (λ number. number ≡ length at.now) }
    ensures counted { IfOk result
        (λ number. IsRestCounted (arrays_with N.value arrays.now at.now)) }
    ensures refused { IfErr result
        (IsCountRefusal (length at.now) arrays.now.label_count (length arrays.now.«data».now)
        (arrays.now.label_count * arrays.now.label_count) (length arrays.now.label_costs.now)) }
{
    let labels = arrays.label_count as usize;
    check_counts(
        at.len(),
        arrays.label_count,
        arrays.data.len(),
        labels * labels,
        arrays.label_costs.len(),
    )
}

/// Whether so many tables of so many labels, which are in their limits, have so many entries, and
/// there is a number for each pair or none at all.
fn check_tables(
    labels: u32,
    tables: u32,
    entries: usize,
    pairs: usize,
    numbers: usize,
) -> Result<(), Refusal>
    requires { labels < 257 }
    ensures counted { IfOk result (λ _. AreTablesCounted labels tables entries pairs numbers) }
    ensures refused { IfErr result (IsTableCountRefusal labels tables entries pairs numbers) }
{
    if entries != tables as usize * labels as usize * labels as usize {
        return Err(Refusal::SmoothCount);
    }
    if numbers != 0 && numbers != pairs {
        return Err(Refusal::TableOfCount);
    }
    Ok(())
}

/// Whether each entry of the tables is in its range.
fn check_entries<N: Number>(tables: &[N]) -> Result<(), Refusal>
    ensures ok { IfOk result (λ _. All (IsCost data_limit) (map N.value tables.now)) }
    ensures refused { IfErr result (IsEntryRefusal (map N.value tables.now)) }
{
    if let Err(CostError::CostRange(place)) = check_table(tables, DATA_LIMIT) {
        return Err(Refusal::SmoothRange(place));
    }
    Ok(())
}
