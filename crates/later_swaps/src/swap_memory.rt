//! What a run of swaps remembers of its moves.
ghost use Rattle.std.specs.Prelude.{◌≡◌, ◌==◌, ◌++◌, ◌∷◌, [], cond, not, ◌<◌, ◌≤◌, ℕ, length, IfOk};
ghost use Rattle.std.specs.Prelude.{OnOk, IsTrue, IsFalse, false};
ghost use Rattle.label_field.specs.Limits.{site_limit};
ghost use Rattle.move_energy.specs.BySite.{IsListing};
ghost use Rattle.move_energy.specs.Choices.{bit_of};
ghost use Rattle.later_swaps.specs.Prelude.{Instance, labelling as labelling_of, WhereMeant};
ghost use Rattle.later_swaps.specs.Prelude.{FitsProblem, site_values, label_limit, kept_values};
ghost use Rattle.later_swaps.specs.Prelude.{AreSwapsStamped, IsSettled};

use crate::later_swap::place_of;
use cost_store::{Problem, costs_of, has_cost};
use label_energies::Moves;
use label_field::Labelling;
use move_energy::Choice;
use near_changes::Changes;
use std::alloc::{AllocError, Global};

/// So many sites are looked over at once for one that changed.
const BLOCK: usize = 64;

/// What a run remembers of swaps at its beginning: its moves from then on where it is one of swaps
/// that come again, and no label costs anything by itself. Else, and where memory for that is
/// refused, nothing. It takes 4 bytes a site, and 1 KB a label.
pub fn begin_swaps<F: Fn(u32, u32) -> i64 + Sync, V: Fn(u32, u32) -> i64 + Sync>(
    alloc: Global,
    problem: &Problem<F, V>,
    labelling: &Labelling,
    moves: Moves,
    cycles: u32,
) -> Changes
    requires fits { FitsProblem problem.now labelling.now }
    ensures { WhereMeant F.Fn V.Fn problem.now
        (λ m. AreSwapsStamped m (labelling_of labelling.now.at) result) }
{
    let comes_again = moves == Moves::Swap && cycles > 1;
    if !comes_again || has_cost(costs_of(&problem.label_costs)) {
        return Changes::none(alloc);
    }
    match Changes::new(alloc, labelling.sites(), labelling.labels() * 256) {
        Ok(swaps) => swaps,
        Err(_) => Changes::none(alloc),
    }
}

/// Adds a site to a list where its labels differ.
fn add_changed(list: &mut Vec<u32>, site: u32, before: u8, after: u8) -> Result<(), AllocError>
    ensures { OnOk result (list.new.items
        ≡ list.old.items ++ cond (not (before == after)) (site ∷ []) []) }
{
    if before != after {
        list.push(site)?;
    }
    Ok(())
}

/// Whether two labellings differ at one of the sites from one on, before another.
fn has_changed(before: &[u8], after: &[u8], from: usize, to: usize) -> bool
    requires { (to ≤ length before.now) × (length after.now ≡ length before.now) }
    ensures { result ≡ false → (p : ℕ) → from ≤ p → p < to →
        not (labelling_of before.now p == labelling_of after.now p) ≡ false }
{
    let mut any = false;
    for site in from..to {
        if before[site] != after[site] {
            any = true;
        }
    }
    any
}

/// Adds the sites from one on, before another, at which two labellings differ to the list of those
/// before these.
fn list_block(
    list: &mut Vec<u32>,
    before: &[u8],
    after: &[u8],
    from: usize,
    to: usize,
) -> Result<(), AllocError>
    requires sizes { (length after.now ≡ length before.now) × (length before.now ≤ site_limit) }
    requires block { (from ≤ to) × (to ≤ length before.now) }
    requires listed { IsListing
        (λ p. not (labelling_of before.now p == labelling_of after.now p)) from list.old.items }
    ensures { OnOk result (IsListing
        (λ p. not (labelling_of before.now p == labelling_of after.now p)) to list.new.items) }
{
    if !has_changed(before, after, from, to) {
        return Ok(());
    }
    for site in from..to {
        add_changed(list, site as u32, before[site], after[site])?;
    }
    Ok(())
}

/// Lists the sites at which two labellings differ, none where it is told that they are the same.
/// They are few, so that most blocks of sites are passed over at once.
fn list_changed(
    alloc: Global,
    before: &[u8],
    after: &[u8],
    changed: bool,
) -> Result<Vec<u32>, AllocError>
    requires sizes { (length after.now ≡ length before.now) × (length before.now ≤ site_limit) }
    requires same { IsFalse changed → after.now ≡ before.now }
    ensures { IfOk result (λ list. IsListing
        (λ p. not (labelling_of before.now p == labelling_of after.now p)) (length before.now)
        list.items) }
{
    let mut list = Vec::new(alloc);
    if !changed {
        return Ok(list);
    }
    let mut from = 0;
    while from < before.len() {
        let to = before.len().min(from + BLOCK);
        list_block(&mut list, before, after, from, to)?;
        from = to;
    }
    Ok(list)
}

/// 1 where a site's value is not the one by which it keeps its label in a swap, and 0 else. It is a
/// number, by which a loop takes many sites at once.
#[inline]
fn unlike_of(choice: Choice, label: u8, beta: u8) -> u8
    ensures { result ≡ 0 → bit_of choice false ≡ (label == beta) }
{
    u8::from(choice.bit(false) != (label == beta))
}

/// Whether the values of all sites are those by which they keep these labels in a swap.
fn are_settled(choices: &[Choice], at: &[u8], beta: u8) -> bool
    ensures { IsTrue result → (p : ℕ) → p < length at.now →
        site_values choices.now p ≡ kept_values beta (labelling_of at.now) p }
{
    if choices.len() != at.len() {
        return false;
    }
    let mut unlike = 0u8;
    for site in 0..at.len() {
        unlike = unlike.max(unlike_of(choices[site], at[site], beta));
    }
    unlike == 0
}

/// Notes a swap that led from some labels to others, or changed none, and whether these are
/// settled: whether the values that were found keep them.
pub fn note_swap(
    swaps: &mut Changes,
    alpha: u32,
    beta: u32,
    before: &[u8],
    after: &[u8],
    choices: &[Choice],
    changed: bool,
)
    requires sizes { (length after.now ≡ length before.now) × (length before.now ≤ site_limit) }
    requires same { IsFalse changed → after.now ≡ before.now }
    requires labels { (alpha < label_limit) × (beta < label_limit) }
    ensures { (m : Instance) → length before.now ≡ m.sites →
        (((p : ℕ) → p < m.sites →
        site_values choices.now p ≡ kept_values beta (labelling_of after.now) p) →
        IsSettled m alpha beta (labelling_of after.now)) →
        AreSwapsStamped m (labelling_of before.now) swaps.old →
        AreSwapsStamped m (labelling_of after.now) swaps.new }
{
    let alloc = *swaps.stamps.allocator();
    let Ok(sites) = list_changed(alloc, before, after, changed) else {
        swaps.forget();
        return;
    };
    let place = place_of(alpha, beta);
    swaps.note_sites(place, &sites);
    if are_settled(choices, after, beta as u8) {
        return;
    }
    if (place as usize) < swaps.made.len() {
        swaps.made[place as usize] = 0;
    }
}
