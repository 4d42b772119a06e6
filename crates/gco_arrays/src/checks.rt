//! Whether the arrays of a call are as long as they must be, and their costs in their ranges.
ghost use Rattle.std.specs.Prelude.{◌≡◌, ◌↔◌, All, map, IsTrue, IsOk, IfOk, IfErr};
ghost use Rattle.cost_store.specs.Promises.{IsCost, IsFirstOutside};
ghost use Rattle.label_field.specs.LabelFields.{AreSizes};
ghost use Rattle.gco_arrays.specs.Calls.{AreCounted, AreCostsInRange};
ghost use Rattle.gco_arrays.specs.Refusals.{IsCountRefusal, IsRangeRefusal};

use crate::number::Number;
use crate::refusal::Refusal;
use cost_store::{CostError, DATA_LIMIT, LABEL_COST_LIMIT, SMOOTH_LIMIT};
use label_field::{LABEL_LIMIT, SITE_LIMIT};

/// Whether the numbers of sites and labels are in their limits, and there is a cost for each label
/// at each site, one for each two labels, and one for each label or none: the number of sites.
pub(crate) fn check_counts(
    sites: usize,
    labels: u32,
    data_count: usize,
    smooth_count: usize,
    cost_count: usize,
) -> Result<u32, Refusal>
    ensures sites { IfOk result (λ number. number ≡ sites) }
    ensures counted { IfOk result
        (λ number. AreCounted sites labels data_count smooth_count cost_count) }
    ensures refused { IfErr result
        (IsCountRefusal sites labels data_count smooth_count cost_count) }
{
    if sites > SITE_LIMIT as usize {
        return Err(Refusal::TooManySites);
    }
    if labels < 1 || labels > LABEL_LIMIT {
        return Err(Refusal::LabelCount);
    }
    check_lengths(sites, labels, data_count, smooth_count, cost_count)?;
    Ok(sites as u32)
}

/// Whether the tables of so many sites and labels, which are in their limits, are as long as they
/// must be.
fn check_lengths(
    sites: usize,
    labels: u32,
    data_count: usize,
    smooth_count: usize,
    cost_count: usize,
) -> Result<(), Refusal>
    requires { AreSizes sites labels }
    ensures counted { IfOk result
        (λ _. AreCounted sites labels data_count smooth_count cost_count) }
    ensures refused { IfErr result
        (IsCountRefusal sites labels data_count smooth_count cost_count) }
{
    if data_count != sites * labels as usize {
        return Err(Refusal::DataCount);
    }
    if smooth_count != labels as usize * labels as usize {
        return Err(Refusal::SmoothCount);
    }
    if cost_count != 0 && cost_count != labels as usize {
        return Err(Refusal::LabelCostCount);
    }
    Ok(())
}

/// Whether each cost is in its range.
pub(crate) fn check_ranges<N: Number>(
    data: &[N],
    smooth: &[N],
    label_costs: &[N],
) -> Result<(), Refusal>
    ensures ok { IfOk result (λ _. AreCostsInRange (map N.value data.now)
        (map N.value smooth.now) (map N.value label_costs.now)) }
    ensures refused { IfErr result (IsRangeRefusal (map N.value data.now)
        (map N.value smooth.now) (map N.value label_costs.now)) }
{
    if let Err(CostError::CostRange(place)) = check_table(data, DATA_LIMIT) {
        return Err(Refusal::DataRange(place));
    }
    if let Err(CostError::CostRange(place)) = check_table(smooth, SMOOTH_LIMIT) {
        return Err(Refusal::SmoothRange(place));
    }
    if let Err(CostError::CostRange(place)) = check_table(label_costs, LABEL_COST_LIMIT) {
        return Err(Refusal::LabelCostRange(place));
    }
    Ok(())
}

/// Whether each entry of a table is from 0 to `most`: if not, the first that is not.
pub(crate) fn check_table<N: Number>(table: &[N], most: i64) -> Result<(), CostError>
    ensures fits { IsOk result ↔ All (IsCost most) (map N.value table.now) }
    ensures first { IfErr result (IsFirstOutside most (map N.value table.now)) }
{
    for index in 0..table.len() {
        if !is_cost(table[index].wide(), most) {
            return Err(CostError::CostRange(index));
        }
    }
    Ok(())
}

/// Whether a number is from 0 to `most`.
fn is_cost(cost: i64, most: i64) -> bool
    ensures { IsTrue result ↔ IsCost most cost }
{
    0 <= cost && cost <= most
}
