//! The smooth costs that a problem names, as a table.
ghost use Rattle.std.specs.Prelude.{◌≡◌, ◌≤◌, IfOk, IfErr};
ghost use Rattle.toml.specs.View.{table_view, view};
ghost use Rattle.problem_files.specs.LabelFieldNames.{IsFirstFault};
ghost use Rattle.label_field.specs.Limits.{label_limit};
ghost use Rattle.problem_files.specs.SmoothFields.{listed_from, smooth_from, smooth_in};
ghost use Rattle.problem_files.specs.Smooths.{table_by};

use crate::lists::{integers_of, list_from};
use crate::numbers::value_of;
use crate::{LabelFault, LabelKey};
use run_options::{SMOOTH_LIMIT, Shape, smooth_table};
use std::alloc::{AllocError, Global};
use toml::{Table, Value};

/// What stands under `smooth`.
#[derive(Drop)]
pub(crate) enum Smooth {
    /// The name of a cost.
    Named(Shape),
    /// The costs, row after row.
    Listed(Vec<i64>),
}

/// What stands under `smooth`, for so many labels.
#[tactic(auto, unfolding(crate::specs::SmoothFields::smooth_in))]
pub(crate) fn smooth_in(alloc: Global, table: &Table, labels: u32) -> Result<Smooth, LabelFault>
    requires { labels ≤ label_limit }
    ensures ok { IfOk result (λ smooth.
        smooth_in (table_view table.now) labels ≡ Ok (table_by labels smooth)) }
    ensures refused { IfErr result (IsFirstFault (smooth_in (table_view table.now) labels)) }
{
    match value_of(table, LabelKey::Smooth) {
        Some(value) => smooth_from(alloc, value, labels),
        None => Ok(Smooth::Named(Shape::Potts)),
    }
}

#[tactic(auto, unfolding(crate::specs::SmoothFields::smooth_from))]
fn smooth_from(alloc: Global, value: &Value, labels: u32) -> Result<Smooth, LabelFault>
    requires { labels ≤ label_limit }
    ensures ok { IfOk result (λ smooth.
        smooth_from labels (view value.now) ≡ Ok (table_by labels smooth)) }
    ensures refused { IfErr result (IsFirstFault (smooth_from labels (view value.now))) }
{
    let Some(name) = value.as_str() else {
        return listed_in(alloc, value, labels);
    };
    match Shape::from_name(name) {
        Some(shape) => Ok(Smooth::Named(shape)),
        None => Err(LabelFault::BadField(LabelKey::Smooth)),
    }
}

/// The costs that a list is.
#[tactic(auto, unfolding(crate::specs::SmoothFields::listed_from))]
fn listed_in(alloc: Global, value: &Value, labels: u32) -> Result<Smooth, LabelFault>
    requires { labels ≤ label_limit }
    ensures ok { IfOk result (λ smooth.
        listed_from labels (view value.now) ≡ Ok (table_by labels smooth)) }
    ensures refused { IfErr result (IsFirstFault (listed_from labels (view value.now))) }
{
    let count = labels as usize * labels as usize;
    let items = list_from(value, LabelKey::Smooth, count, SMOOTH_LIMIT)?;
    match integers_of(alloc, items) {
        Ok(costs) => Ok(Smooth::Listed(costs)),
        Err(_) => Err(LabelFault::OutOfMemory),
    }
}

impl Smooth {
    /// The cost of each label beside each, row after row.
    pub(crate) fn into_table(
        self,
        alloc: Global,
        labels: u32,
        most: u32,
    ) -> Result<Vec<i64>, AllocError>
        requires { labels ≤ label_limit }
        ensures { IfOk result (λ table. table.items ≡ table_by labels self most) }
    {
        match self {
            Smooth::Named(shape) => smooth_table(alloc, shape, most, labels),
            Smooth::Listed(costs) => Ok(costs),
        }
    }
}
