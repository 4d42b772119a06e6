//! The lists of costs in a labelling problem.
ghost use Rattle.std.specs.Prelude.{◌≡◌, IfOk, IfErr};
ghost use Rattle.toml.specs.View.{table_view, view};
ghost use Rattle.problem_files.specs.LabelFieldNames.{IsFirstFault};
ghost use Rattle.problem_files.specs.LabelCostFields.{costs_told, label_costs_from, label_costs_in};
ghost use Rattle.problem_files.specs.ListFields.{data_from, data_in};

use crate::lists::{integers_of, list_from, numbers_of};
use crate::numbers::value_of;
use crate::{LabelFault, LabelKey};
use run_options::{DATA_LIMIT, LABEL_COST_LIMIT};
use std::alloc::Global;
use toml::{Table, Value};

/// The cost of each label at each site that a table names, so many.
#[tactic(auto, unfolding(crate::specs::ListFields::data_in))]
pub(crate) fn data_in(alloc: Global, table: &Table, count: usize) -> Result<Vec<u32>, LabelFault>
    ensures ok { IfOk result (λ costs. data_in (table_view table.now) count ≡ Ok costs.items) }
    ensures refused { IfErr result (IsFirstFault (data_in (table_view table.now) count)) }
{
    match value_of(table, LabelKey::Data) {
        Some(value) => data_from(alloc, value, count),
        None => Err(LabelFault::BadField(LabelKey::Data)),
    }
}

#[tactic(auto, unfolding(crate::specs::ListFields::data_from))]
fn data_from(alloc: Global, value: &Value, count: usize) -> Result<Vec<u32>, LabelFault>
    ensures ok { IfOk result (λ costs. data_from count (view value.now) ≡ Ok costs.items) }
    ensures refused { IfErr result (IsFirstFault (data_from count (view value.now))) }
{
    let items = list_from(value, LabelKey::Data, count, DATA_LIMIT)?;
    match numbers_of(alloc, items) {
        Ok(costs) => Ok(costs),
        Err(_) => Err(LabelFault::OutOfMemory),
    }
}

/// What each of so many labels costs by itself, where a table names it.
#[tactic(auto, unfolding(crate::specs::LabelCostFields::label_costs_in))]
pub(crate) fn label_costs_in(
    alloc: Global,
    table: &Table,
    labels: u32,
) -> Result<Option<Vec<i64>>, LabelFault>
    ensures ok { IfOk result (λ costs.
        label_costs_in (table_view table.now) labels ≡ Ok (costs_told costs)) }
    ensures refused { IfErr result (IsFirstFault (label_costs_in (table_view table.now) labels)) }
{
    match value_of(table, LabelKey::LabelCosts) {
        Some(value) => label_costs_from(alloc, value, labels),
        None => Ok(None),
    }
}

#[tactic(auto, unfolding(crate::specs::LabelCostFields::label_costs_from))]
fn label_costs_from(
    alloc: Global,
    value: &Value,
    labels: u32,
) -> Result<Option<Vec<i64>>, LabelFault>
    ensures ok { IfOk result (λ costs.
        label_costs_from labels (view value.now) ≡ Ok (costs_told costs)) }
    ensures refused { IfErr result (IsFirstFault (label_costs_from labels (view value.now))) }
{
    let items = list_from(
        value,
        LabelKey::LabelCosts,
        labels as usize,
        LABEL_COST_LIMIT,
    )?;
    match integers_of(alloc, items) {
        Ok(costs) => Ok(Some(costs)),
        Err(_) => Err(LabelFault::OutOfMemory),
    }
}
