//! What a call was given, once it is tested.
ghost use Rattle.std.specs.Prelude.{◌≡◌, length, map, IfOk, IfErr, None};
ghost use Rattle.cost_store.specs.LabelCosts.{costs_of};
ghost use Rattle.gco_arrays.specs.Calls.{ArePartsOf, arrays_with};
ghost use Rattle.gco_arrays.specs.Refusals.{IsGivenRefusal};

use crate::checks::{check_counts, check_ranges};
use crate::number::{Number, wide_copy};
use crate::pairs::{GcoPair, pairs_of};
use crate::refusal::Refusal;
use crate::start::start_of;
use label_field::{Labelling, Pairs};
use std::alloc::Global;

/// The arrays of a call, but for its labels.
#[derive(Clone, Copy)]
pub struct Arrays<'a, N> {
    pub label_count: u32,
    pub data: &'a [N],
    pub smooth: &'a [N],
    pub label_costs: &'a [N],
    pub pairs: &'a [GcoPair],
}

/// The parts of a problem that a call makes of its arrays. The tables of costs stay where they are.
#[derive(Drop)]
pub struct Ready {
    pub pairs: Pairs,
    pub start: Labelling,
    pub label_costs: Option<Vec<i64>>,
}

/// Tests what a call was given, in the order of its arrays, and makes the parts of its problem.
pub fn ready_of<N: Number>(
    alloc: Global,
    given: &Arrays<'_, N>,
    at: &[u32],
) -> Result<Ready, Refusal>
    ensures ready { IfOk result (ArePartsOf (arrays_with N.value given.now at.now)) }
    ensures refused { IfErr result (IsGivenRefusal (arrays_with N.value given.now at.now)) }
{
    let sites = check_counts(
        at.len(),
        given.label_count,
        given.data.len(),
        given.smooth.len(),
        given.label_costs.len(),
    )?;
    check_ranges(given.data, given.smooth, given.label_costs)?;
    let pairs = pairs_of(alloc, sites, given.pairs)?;
    let start = start_of(alloc, given.label_count, at)?;
    let label_costs = costs_given(alloc, given.label_costs)?;
    Ok(Ready {
        pairs,
        start,
        label_costs,
    })
}

/// The label costs that were given, none where there are none.
pub(crate) fn costs_given<N: Number>(
    alloc: Global,
    given: &[N],
) -> Result<Option<Vec<i64>>, Refusal>
    ensures costs { IfOk result (λ costs. costs_of costs ≡ map N.value given.now) }
    ensures empty { IfOk result (λ costs. length given.now ≡ 0 → costs ≡ None) }
    ensures refused { IfErr result (λ e. e ≡ Refusal.OutOfMemory) }
{
    if given.is_empty() {
        return Ok(None);
    }
    match wide_copy(alloc, given) {
        Ok(costs) => Ok(Some(costs)),
        Err(_) => Err(Refusal::OutOfMemory),
    }
}
