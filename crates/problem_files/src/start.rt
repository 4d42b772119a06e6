//! The labels that a run starts from.
ghost use Rattle.std.specs.Prelude.{◌≡◌, ◌<◌, length, vec_len, IfOk, IfErr, All, map};
ghost use Rattle.toml.specs.View.{table_view, view};
ghost use Rattle.label_field.specs.LabelFields.{AreSizes};
ghost use Rattle.problem_files.specs.LabelFieldNames.{IsFirstFault};
ghost use Rattle.problem_files.specs.ListFields.{natural_of};
ghost use Rattle.problem_files.specs.StartFields.{start_from, start_in};

use crate::lists::{list_from, number_of};
use crate::numbers::value_of;
use crate::{LabelFault, LabelKey};
use label_field::Labelling;
use std::alloc::Global;
use toml::{Table, Value};

/// The labelling that a table names to start from.
#[tactic(auto, unfolding(crate::specs::StartFields::start_in))]
pub(crate) fn start_in(
    alloc: Global,
    table: &Table,
    sites: u32,
    labels: u32,
) -> Result<Labelling, LabelFault>
    requires { AreSizes sites labels }
    ensures ok { IfOk result (λ start. start_in (table_view table.now) sites labels ≡ Ok start) }
    ensures refused { IfErr result (IsFirstFault (start_in (table_view table.now) sites labels)) }
    ensures sizes { IfOk result (λ start. (length start.at ≡ sites) × (start.labels ≡ labels)) }
{
    let Ok(start) = Labelling::new(alloc, sites, labels) else {
        return Err(LabelFault::OutOfMemory);
    };
    match value_of(table, LabelKey::Start) {
        Some(value) => start_from(start, value, sites, labels),
        None => Ok(start),
    }
}

/// The labelling that a list is, made of one of the same sizes.
#[tactic(auto, unfolding(crate::specs::StartFields::start_from))]
fn start_from(
    start: Labelling,
    value: &Value,
    sites: u32,
    labels: u32,
) -> Result<Labelling, LabelFault>
    requires sizes { AreSizes sites labels }
    requires sites { length start.at ≡ sites }
    requires labels { start.labels ≡ labels }
    ensures ok { IfOk result (λ start. start_from sites labels (view value.now) ≡ Ok start) }
    ensures refused { IfErr result (λ fault. start_from sites labels (view value.now) ≡ Err fault) }
    ensures sizes { IfOk result (λ start. (length start.at ≡ sites) × (start.labels ≡ labels)) }
{
    let items = list_from(value, LabelKey::Start, sites as usize, labels - 1)?;
    let mut start = start;
    fill(&mut start, items);
    Ok(start)
}

/// Gives each site the label that stands at its place.
fn fill(start: &mut Labelling, items: &Vec<Value>)
    requires sizes { AreSizes (length start.old.at) start.old.labels }
    requires count { vec_len items.now ≡ length start.old.at }
    requires range { All (λ item. natural_of (view item) < start.old.labels) items.now.items }
    ensures { start.new ≡ record start.old
        { at = map (λ item. natural_of (view item)) items.now.items } }
{
    for (site, item) in items.iter().enumerate() {
        let _ = start.set_label(site as u32, number_of(item));
    }
}
