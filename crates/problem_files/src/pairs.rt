//! The pairs of a labelling problem.
ghost use Rattle.std.specs.Prelude.{◌≡◌, ◌<◌, ◌≤◌, ℕ, pos, false, [], length, vec_len, map};
ghost use Rattle.std.specs.Prelude.{IfOk, IfErr, IfSome, OnOk, Ok, None};
ghost use Rattle.toml.specs.View.{table_view, view};
ghost use Rattle.label_field.specs.Limits.{pair_limit, site_limit};
ghost use Rattle.problem_files.specs.LabelFieldNames.{IsFirstFault};
ghost use Rattle.problem_files.specs.Gains.{Gains, refusal_of};
ghost use Rattle.problem_files.specs.PairFields.{is_site, pair_at, pair_with, pairs_from, pairs_in};

use crate::fields::integers_of;
use crate::numbers::value_of;
use crate::{LabelFault, LabelKey};
use label_field::{LabelFieldError, PAIR_LIMIT, Pairs};
use std::alloc::Global;
use toml::{Table, Value};

/// The pairs of so many sites that a table names.
#[tactic(auto, unfolding(crate::specs::PairFields::pairs_in))]
pub(crate) fn pairs_in(alloc: Global, table: &Table, sites: u32) -> Result<Pairs, LabelFault>
    requires { sites ≤ site_limit }
    ensures ok { IfOk result (λ pairs. pairs_in (table_view table.now) sites ≡ Ok pairs.list) }
    ensures refused { IfErr result (IsFirstFault (pairs_in (table_view table.now) sites)) }
    ensures sites { IfOk result (λ pairs. pairs.sites ≡ sites) }
    ensures weighted { IfOk result (λ pairs. pairs.numbered ≡ false) }
{
    let mut pairs = Pairs::new(alloc, sites);
    let Some(value) = value_of(table, LabelKey::Pairs) else {
        return Ok(pairs);
    };
    let Some(items) = value.as_array() else {
        return Err(LabelFault::BadField(LabelKey::Pairs));
    };
    if items.len() > PAIR_LIMIT {
        return Err(LabelFault::TooManyPairs);
    }
    match add_items(&mut pairs, items) {
        Ok(()) => Ok(pairs),
        Err(fault) => Err(fault),
    }
}

/// Adds the pairs that the items name to a list that has none.
fn add_items(pairs: &mut Pairs, items: &Vec<Value>) -> Result<(), LabelFault>
    requires weighted { pairs.old.numbered ≡ false }
    requires sites { pairs.old.sites ≤ site_limit }
    requires empty { pairs.old.list ≡ [] }
    requires room { vec_len items.now ≤ pair_limit }
    ensures ok { OnOk result (pairs_from pairs.old.sites 0 (map view items.now.items)
        ≡ Ok pairs.new.list) }
    ensures refused { IfErr result
        (IsFirstFault (pairs_from pairs.old.sites 0 (map view items.now.items))) }
    ensures sites { pairs.new.sites ≡ pairs.old.sites }
    ensures weighted { pairs.new.numbered ≡ false }
{
    for (place, item) in items.iter().enumerate() {
        add_item(pairs, place, item)?;
    }
    Ok(())
}

/// Adds the pair that the item at a place of the list names.
#[tactic(auto, unfolding(crate::specs::PairFields::pair_at))]
fn add_item(pairs: &mut Pairs, place: usize, item: &Value) -> Result<(), LabelFault>
    requires weighted { pairs.old.numbered ≡ false }
    requires sites { pairs.old.sites ≤ site_limit }
    requires room { length pairs.old.list < pair_limit }
    ensures ok { OnOk result (Gains pairs.old pairs.new
        (pair_at pairs.old.sites place (view item.now))) }
    ensures refused { IfErr result (IsFirstFault (pair_at pairs.old.sites place (view item.now))) }
    ensures sites { pairs.new.sites ≡ pairs.old.sites }
    ensures weighted { pairs.new.numbered ≡ false }
{
    let shape = LabelFault::BadElement(LabelKey::Pairs, place);
    let Some(items) = item.as_array() else {
        return Err(shape);
    };
    let Some(numbers) = integers_of::<3>(items) else {
        return Err(shape);
    };
    match numbers.as_slice() {
        [first, second] => add(pairs, place, *first, *second, 1),
        [first, second, weight] => add(pairs, place, *first, *second, *weight),
        _ => Err(shape),
    }
}

/// Adds the pair of two integers with a weight.
fn add(
    pairs: &mut Pairs,
    place: usize,
    first: i64,
    second: i64,
    weight: i64,
) -> Result<(), LabelFault>
    requires weighted { pairs.old.numbered ≡ false }
    requires sites { pairs.old.sites ≤ site_limit }
    requires room { length pairs.old.list < pair_limit }
    ensures ok { OnOk result (Gains pairs.old pairs.new
        (pair_with pairs.old.sites place first second weight)) }
    ensures refused { IfErr result
        (IsFirstFault (pair_with pairs.old.sites place first second weight)) }
    ensures sites { pairs.new.sites ≡ pairs.old.sites }
    ensures weighted { pairs.new.numbered ≡ false }
{
    let Some(first) = site_of(first) else {
        return Err(LabelFault::NoSuchSite(place));
    };
    let Some(second) = site_of(second) else {
        return Err(LabelFault::NoSuchSite(place));
    };
    match pairs.add(first, second, weight) {
        Ok(()) => Ok(()),
        Err(error) => Err(refusal_of(place, error)),
    }
}

/// The number of a site, which no integer outside 32 bits is.
fn site_of(number: i64) -> Option<u32>
    ensures some { IfSome result (λ site. number ≡ pos site) }
    ensures none { result ≡ None → (n : ℕ) → n ≤ site_limit → is_site n number ≡ false }
{
    match u32::try_from(number) {
        Ok(site) => Some(site),
        Err(_) => None,
    }
}

/// The fault of the pair at a place that a list of pairs refuses.
fn refusal_of(place: usize, error: LabelFieldError) -> LabelFault
    ensures { result ≡ refusal_of place error }
{
    match error {
        LabelFieldError::NoSuchSite => LabelFault::NoSuchSite(place),
        LabelFieldError::SamePair => LabelFault::SamePair(place),
        LabelFieldError::TooManyPairs => LabelFault::TooManyPairs,
        LabelFieldError::WeightRange => LabelFault::WeightRange(place),
        LabelFieldError::NoSuchLabel | LabelFieldError::OutOfMemory(_) => LabelFault::OutOfMemory,
    }
}
