//! The form of a strip and its border.
ghost use Rattle.std.specs.Prelude.{◌≡◌, ◌<◌, ◌≤◌, ◌+◌, ◌+ℤ◌, ℕ, Bool, List, All, pos, length};
ghost use Rattle.std.specs.Prelude.{vec_len, OnOk, replicate, ◌-◌};
ghost use Rattle.label_field.specs.Limits.{site_limit};
ghost use Rattle.compile_cut.specs.Limits.{form_size};
ghost use Rattle.strip_nets.specs.RowForms.{form_in};
ghost use Rattle.compile_cut.specs.Weights.{weights_size, weights_value};
ghost use Rattle.move_energy.specs.Choices.{AreOpenSites};
ghost use Rattle.move_energy.specs.declared.choice.Choice.{Choice as AnyChoice};
ghost use Rattle.site_forms.specs.Numbers.{WhereRead};
ghost use Rattle.strip_nets.specs.Building.{CanBuild, AreStartWeights};
ghost use Rattle.strip_nets.specs.Building.{AreWeighed, IsStripNumbering};
ghost use Rattle.strip_nets.specs.Building.{AreStripSites, IsStripForm};
ghost use Rattle.strip_nets.specs.Strips.{IsStripLaid};
ghost use Rattle.strip_nets.specs.Views.{strip_view};

use crate::material::{Material, RowForm, StripSites};
use crate::rows::{add_rows, begin_rows};
use std::alloc::AllocError;

/// Numbers the listed sites of a strip in their order, at places that are counted from its first
/// site. What stands at other places means nothing. It takes time in proportion to the listed
/// sites, and at the first use to all sites of the strip: a list that is long enough stays so long.
fn number_sites(numbers: &mut Vec<u32>, sites: &StripSites) -> Result<(), AllocError>
    requires few { length sites.now.opened.now ≤ site_limit }
    requires from { All (λ site. sites.now.from ≤ site) sites.now.opened.now }
    requires to { All (λ site. site < sites.now.to) sites.now.opened.now }
    ensures kept { sites.now.to - sites.now.from ≤ length numbers.old.items →
        OnOk result (length numbers.new.items ≡ length numbers.old.items) }
    ensures each { OnOk result ((known : List AnyChoice) →
        AreOpenSites (strip_view known sites.now.from sites.now.to) sites.now.opened.now →
        IsStripNumbering known sites.now numbers.new.items) }
{
    let size = sites.to.saturating_sub(sites.from) as usize;
    numbers.resize(numbers.len().max(size), 0)?;
    for index in 0..sites.opened.len() {
        let place = sites.opened[index] - sites.from;
        numbers[place as usize] = index as u32;
    }
    Ok(())
}

/// Begins the form of so many nodes, which weigh nothing. Its lists keep their memory.
fn begin_form(form: &mut RowForm, nodes: usize) -> Result<(), AllocError>
    ensures weights { OnOk result (form.new.weights.items ≡ replicate nodes (pos 0)) }
    ensures rows { OnOk result (length form.new.laying.starts.items ≡ nodes) }
{
    form.weights.clear();
    form.weights.resize(nodes, 0)?;
    form.laying.begin(nodes)?;
    Ok(())
}

/// Adds to each weight what the list has at its place.
fn add_weights(weights: &mut Vec<i64>, list: &[i64])
    requires count { length list.now ≡ vec_len weights.old }
    requires room { weights_size weights.old.items + weights_size list.now ≤ form_size }
    ensures len { vec_len weights.new ≡ vec_len weights.old }
    ensures value { (x : ℕ → Bool) → weights_value weights.new.items x
        ≡ weights_value weights.old.items x +ℤ weights_value list.now x }
    ensures size { weights_size weights.new.items
        ≤ weights_size weights.old.items + weights_size list.now }
{
    for index in 0..list.len() {
        weights[index] += list[index];
    }
}

/// The form of a strip that is a range of sites, and the border of each of its open sites, which
/// are listed and get numbers.
///
/// The form stands for the move with the open sites outside the strip at 0. With those at 1 each
/// weight is less by the border of its site.
///
/// A pair is asked for its surplus where both sites are in the strip, and where the other site was
/// open at the start and is at 1 by now or open outside the strip. The lists keep their memory from
/// strip to strip.
pub(crate) fn build_strip(
    material: &Material,
    sites: &StripSites,
    numbers: &mut Vec<u32>,
    form: &mut RowForm,
    list: &mut Vec<i64>,
    borders: &mut Vec<u64>,
) -> Result<(), AllocError>
    requires can { CanBuild material.now }
    requires opened { AreStripSites material.now sites.now }
    requires weighed { AreWeighed sites.now }
    ensures kept { sites.now.to - sites.now.from ≤ length numbers.old.items →
        OnOk result (length numbers.new.items ≡ length numbers.old.items) }
    ensures numbering { OnOk result
        (IsStripNumbering material.now.known.now sites.now numbers.new.items) }
    ensures sized { OnOk result (IsStripLaid sites.now form.new borders.new.items) }
    ensures built { WhereRead material.now.form (λ m move f.
        AreStartWeights material.now sites.now m move f → OnOk result (IsStripForm m move f
        material.now.known.now sites.now (form_in form.new) borders.new.items)) }
{
    number_sites(numbers, sites)?;
    begin_form(form, sites.opened.len())?;
    let total = begin_rows(material, sites, &mut form.laying.starts);
    form.laying.open(total)?;
    add_rows(material, sites, form, numbers, list, borders)?;
    add_weights(&mut form.weights, list);
    Ok(())
}
