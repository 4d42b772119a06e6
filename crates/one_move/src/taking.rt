//! The labels that the values of a move's sites make.
ghost use Rattle.std.specs.Prelude.{◌≡◌, ◌≢◌, ◌<◌, ◌↔◌, ℕ, length, IsTrue, slice_index, slice_set};
ghost use Rattle.one_move.specs.Prelude.{Expand, labelling, IsBest, IsMoveOf, label_after};
ghost use Rattle.one_move.specs.Prelude.{IsPosed};
ghost use Rattle.one_move.specs.Prelude.{WhereMeant, FitsProblem, AreOfOneSize};
ghost use Rattle.one_move.specs.Prelude.{IsSmallestLeast};
ghost use Rattle.one_move.specs.Prelude.{site_values, made_value, HasChanges, AreChangesListed};
ghost use Rattle.one_move.specs.Prelude.{GivesMade, KeepsSizes, TellsChange, costs_of};
ghost use Rattle.one_move.specs.Prelude.{IsFreeFor, IsSwap, HasFormOf, LowersEnergy};
ghost use Rattle.one_move.specs.Prelude.{IsMade, HasTaken};

use crate::energy_change::{change_of_all, change_of_listed, is_negative};
use crate::workspace::Workspace;
use cost_store::Problem;
use label_energies::Move;
use label_field::Labelling;
use move_energy::Choice;

/// Takes the labels that the least values of the sites with the fewest ones make. Where no labels
/// are better, an expansion makes the labels as they are; a swap need not, so it takes them only
/// where their energy is lower.
pub fn take_best<F: Fn(u32, u32) -> i64 + Sync, V: Fn(u32, u32) -> i64 + Sync>(
    problem: &Problem<F, V>,
    field: &mut Labelling,
    change: Move,
    space: &Workspace,
) -> bool
    requires fits { FitsProblem problem.now field.old }
    requires posed { IsPosed F.Fn V.Fn problem.now }
    requires free { IsFreeFor change (costs_of problem.now.label_costs) }
    requires below { IsMoveOf field.old.labels change }
    requires choices { length space.now.built.variables.choices.items ≡ length field.old.at }
    requires changes { IsTrue space.now.deciding.lists.listed →
        AreChangesListed change field.old.at space.now }
    requires form { IsSwap change →
        HasFormOf F.Fn V.Fn problem.now field.old.at change space.now }
    ensures sizes { AreOfOneSize field.old field.new }
    ensures made { IsMade change field.old.at field.new.at result }
    ensures taken { (a : ℕ) → change ≡ Expand a →
        HasTaken a (site_values space.now.built.variables.choices.items) field.old.at field.new.at }
    ensures best { WhereMeant F.Fn V.Fn problem.now (λ m. IsSmallestLeast m.sites
        (made_value m change (labelling field.old.at))
        (site_values space.now.built.variables.choices.items) →
        IsBest m change field.old.at field.new.at
        × TellsChange result field.old.at field.new.at) }
{
    match change {
        Move::Expand(_) => relabel(field, space, change),
        Move::Swap(_, _) => {
            if !lowers(problem, field.as_slice(), change, space) {
                return false;
            }
            relabel(field, space, change)
        }
    }
}

/// Whether the labels that the values make have a lower energy than the labels as they are.
fn lowers<F: Fn(u32, u32) -> i64 + Sync, V: Fn(u32, u32) -> i64 + Sync>(
    problem: &Problem<F, V>,
    at: &[u8],
    change: Move,
    space: &Workspace,
) -> bool
    requires form { HasFormOf F.Fn V.Fn problem.now at.now change space.now }
    requires choices { length space.now.built.variables.choices.items ≡ length at.now }
    requires changes { IsTrue space.now.deciding.lists.listed →
        AreChangesListed change at.now space.now }
    ensures { WhereMeant F.Fn V.Fn problem.now (λ m. IsTrue result
        ↔ LowersEnergy m change at.now space.now.built.variables.choices.items) }
{
    let form = space
        .deciding
        .numbers
        .form(&problem.pairs, &space.deciding.ends, at);
    let choices = &space.built.variables.choices;
    if space.deciding.lists.listed {
        let sites = &space.deciding.lists.changing;
        return is_negative(change_of_listed(&form, choices, sites));
    }
    is_negative(change_of_all(&form, choices))
}

/// Gives each site the label that its value makes. It answers whether a label changed. Where the
/// sites whose labels can change are listed, no other is looked at.
fn relabel(labelling: &mut Labelling, space: &Workspace, change: Move) -> bool
    requires below { IsMoveOf labelling.old.labels change }
    requires choices { length space.now.built.variables.choices.items ≡ length labelling.old.at }
    requires changes { IsTrue space.now.deciding.lists.listed → HasChanges change labelling.old.at
        space.now.built.variables.choices.items space.now.deciding.lists.changing.items }
    ensures sizes { KeepsSizes labelling.old labelling.new }
    ensures each { GivesMade change space.now.built.variables.choices.items
        labelling.old.at labelling.new.at }
    ensures changed { TellsChange result labelling.old.at labelling.new.at }
{
    let choices = space.built.variables.choices.as_slice();
    if space.deciding.lists.listed {
        relabel_listed(labelling, choices, change, &space.deciding.lists.changing)
    } else {
        relabel_all(labelling, choices, change)
    }
}

/// Gives each site the label that its value makes, where the sites whose labels can change are
/// listed.
fn relabel_listed(
    labelling: &mut Labelling,
    choices: &[Choice],
    change: Move,
    sites: &[u32],
) -> bool
    requires below { IsMoveOf labelling.old.labels change }
    requires choices { length choices.now ≡ length labelling.old.at }
    requires changes { HasChanges change labelling.old.at choices.now sites.now }
    ensures sizes { KeepsSizes labelling.old labelling.new }
    ensures each { GivesMade change choices.now labelling.old.at labelling.new.at }
    ensures changed { TellsChange result labelling.old.at labelling.new.at }
{
    let mut changed = false;
    for index in 0..sites.len() {
        let value = value_of(choices, sites[index]);
        if relabel_site(labelling, sites[index], value, change) {
            changed = true;
        }
    }
    changed
}

/// Gives each site the label that its value makes. It answers whether a label changed.
fn relabel_all(labelling: &mut Labelling, choices: &[Choice], change: Move) -> bool
    requires below { IsMoveOf labelling.old.labels change }
    requires choices { length choices.now ≡ length labelling.old.at }
    ensures sizes { KeepsSizes labelling.old labelling.new }
    ensures each { GivesMade change choices.now labelling.old.at labelling.new.at }
    ensures changed { TellsChange result labelling.old.at labelling.new.at }
{
    let mut changed = false;
    for site in 0..labelling.sites() {
        let bit = value_of(choices, site);
        if relabel_site(labelling, site, bit, change) {
            changed = true;
        }
    }
    changed
}

/// The value of a site's variable, once its choice is assigned.
pub(crate) fn value_of(choices: &[Choice], site: u32) -> bool
    requires choices { site < length choices.now }
    ensures { result ≡ site_values choices.now site }
{
    choices[site as usize].bit(false)
}

/// Gives a site the label that this value makes, and leaves the others. It answers whether that is
/// another. The site is one of the labelling, and the labels of the move are below its number of
/// labels. Nothing is refused.
pub fn relabel_site(labelling: &mut Labelling, site: u32, bit: bool, change: Move) -> bool
    requires below { IsMoveOf labelling.old.labels change }
    requires site { site < length labelling.old.at }
    ensures written { labelling.new ≡ record labelling.old {
      at = slice_set labelling.old.at site (label_after
          change (slice_index labelling.old.at site) bit);
    } }
    ensures changed { IsTrue result
        ↔ (label_after change (slice_index labelling.old.at site) bit ≢ slice_index
        labelling.old.at site) }
{
    let Ok(old) = labelling.label(site) else {
        unreachable!()
    };
    let new = change.label(old, bit);
    let Ok(()) = labelling.set_label(site, new) else {
        unreachable!()
    };
    new != old
}
