//! What labels cost by themselves, added to the form of an expansion.
ghost use Rattle.std.specs.Prelude.{◌≡◌, ◌≢◌, ◌+◌, ◌≤◌, pos, All, length, vec_len};
ghost use Rattle.std.specs.Prelude.{OnOk};
ghost use Rattle.label_cost_terms.specs.Prelude.{count_if, site_limit, pair_limit, label_limit};
ghost use Rattle.label_cost_terms.specs.Prelude.{Expand};
ghost use Rattle.label_cost_terms.specs.Prelude.{term_limit, IsQuadraticBounded, IsCost};
ghost use Rattle.label_cost_terms.specs.Prelude.{open_count};
ghost use Rattle.label_cost_terms.specs.Prelude.{AreAllOpen, IsNumbering, label_cost_limit};
ghost use Rattle.label_cost_terms.specs.Prelude.{label_terms};
ghost use Rattle.label_cost_terms.specs.Prelude.{costs_below, AddsHidden, GrowsBy, has_label};
ghost use Rattle.label_cost_terms.specs.Prelude.{takes_label, IsOpenExpansion, HasRoomForLabel};

use crate::nodes::{list_each, list_having};
use compile_cut::Quadratic;
use cost_store::mark_used;
use move_energy::Variables;
use std::alloc::{AllocError, Global};

/// An expansion of which nothing is decided: the variables of its sites, the labels that it begins
/// with, and the label that sites take.
#[derive(Clone, Copy)]
pub(crate) struct Expansion<'a> {
    pub variables: &'a Variables,
    pub at: &'a [u8],
    pub alpha: u32,
}

/// Adds what the label of the expansion costs by itself: it is paid if any site takes it, where
/// none has it before.
fn add_own(
    form: &mut Quadratic,
    nodes: &mut Vec<u32>,
    expansion: &Expansion,
    used: bool,
    cost: u64,
) -> Result<(), AllocError>
    requires used { used ≡ has_label expansion.now expansion.now.alpha }
    requires opened { IsOpenExpansion expansion.now }
    requires cost { cost ≤ label_cost_limit }
    requires form { HasRoomForLabel expansion.now form.old }
    ensures wider { OnOk result (GrowsBy 1 label_terms form.old form.new) }
    ensures adds { OnOk result (AddsHidden form.old form.new
        (λ x. count_if (takes_label expansion.now expansion.now.alpha x) cost)) }
{
    if used {
        return Ok(());
    }
    list_each(nodes, expansion.variables)?;
    form.add_if_any(nodes, cost)
}

/// Adds what another label costs by itself: it is paid unless all its sites take the label of the
/// expansion, and never where it has none.
fn add_other(
    form: &mut Quadratic,
    nodes: &mut Vec<u32>,
    expansion: &Expansion,
    label: u32,
    used: bool,
    cost: u64,
) -> Result<(), AllocError>
    requires other { label ≢ expansion.now.alpha }
    requires used { used ≡ has_label expansion.now label }
    requires opened { IsOpenExpansion expansion.now }
    requires cost { cost ≤ label_cost_limit }
    requires form { HasRoomForLabel expansion.now form.old }
    ensures wider { OnOk result (GrowsBy 1 label_terms form.old form.new) }
    ensures adds { OnOk result (AddsHidden form.old form.new
        (λ x. count_if (takes_label expansion.now label x) cost)) }
{
    if !used {
        return Ok(());
    }
    list_having(nodes, expansion.variables, expansion.at, label)?;
    form.add_unless_all(nodes, cost)
}

/// Adds what a label costs by itself.
fn add_label(
    form: &mut Quadratic,
    nodes: &mut Vec<u32>,
    expansion: &Expansion,
    label: u32,
    used: bool,
    cost: u64,
) -> Result<(), AllocError>
    requires used { used ≡ has_label expansion.now label }
    requires opened { IsOpenExpansion expansion.now }
    requires cost { cost ≤ label_cost_limit }
    requires form { HasRoomForLabel expansion.now form.old }
    ensures wider { OnOk result (GrowsBy 1 label_terms form.old form.new) }
    ensures adds { OnOk result (AddsHidden form.old form.new
        (λ x. count_if (takes_label expansion.now label x) cost)) }
{
    if cost == 0 {
        return Ok(());
    }
    if label == expansion.alpha {
        return add_own(form, nodes, expansion, used, cost);
    }
    add_other(form, nodes, expansion, label, used, cost)
}

/// Adds what the labels cost by themselves to the form of an expansion of which nothing is decided,
/// by a hidden node for each label that costs something and has a site that may leave it, and for
/// that of the expansion where no site has it: of the sets that are the same on the other nodes,
/// the least value is, but for a fixed number, the old one and what the labels of the labelling
/// cost. Refuses only where memory runs out.
pub fn add_label_costs(
    alloc: Global,
    form: &mut Quadratic,
    variables: &Variables,
    at: &[u8],
    alpha: u32,
    costs: &[i64],
) -> Result<(), AllocError>
    requires opened { AreAllOpen (Expand alpha) at.now variables.now.choices.items }
    requires numbering { IsNumbering variables.now.choices.items variables.now.of_sites.items }
    requires few { (length at.now ≤ site_limit) × (length costs.now ≤ label_limit) }
    requires costs { All (IsCost (pos label_cost_limit)) costs.now }
    requires nodes { vec_len form.old.weights ≡ open_count variables.now.choices.items }
    requires bounded { IsQuadraticBounded (site_limit + pair_limit) form.old }
    ensures nodes { OnOk result
        (vec_len form.new.weights ≤ vec_len form.old.weights + label_limit) }
    ensures bounded { OnOk result (IsQuadraticBounded term_limit form.new) }
    ensures adds { OnOk result (AddsHidden form.old form.new
        (costs_below (length costs.now) alpha at.now variables.now.choices.items costs.now)) }
{
    let marks = mark_used(at);
    let expansion = Expansion {
        variables,
        at,
        alpha,
    };
    let mut nodes = Vec::new(alloc);
    for label in 0..costs.len() {
        let cost = costs[label].unsigned_abs();
        let used = marks[label];
        add_label(form, &mut nodes, &expansion, label as u32, used, cost)?;
    }
    Ok(())
}
