//! By how much more the labels that the values of a move's sites make cost. The sites turn one
//! after another, from the values of the labels as they are, and the move's form tells the rise of
//! each: so the sites whose labels change are read alone, and no cost is asked.
ghost use Rattle.std.specs.Prelude.{◌≡◌, ◌<◌, ◌+◌, ◌≤◌, ◌↔◌, pos, ◌-ℤ◌, ◌<ℤ◌, length};
ghost use Rattle.std.specs.Prelude.{unsigned_abs, IsTrue};
ghost use Rattle.one_move.specs.Prelude.{labelling, pair_cost_limit, site_values, HasChanges};
ghost use Rattle.one_move.specs.Prelude.{label_by, form_of, place_rise, IsSitePlace, Tells};
ghost use Rattle.one_move.specs.Prelude.{rise, rise_limit, WhereRead, HasListing, weights_limit};
ghost use Rattle.one_move.specs.Prelude.{turns_label, turned_below, TellsOver, energy_rise};

use crate::taking::value_of;
use move_energy::Choice;
use site_forms::{SiteForm, rises_of_place, start};

/// The label that a site of this label gets by its value.
fn label_of(form: &SiteForm, old: u8, value: bool) -> u8
    ensures { result ≡ label_by form.now old value }
{
    if value {
        form.turns[old as usize]
    } else {
        form.stays[old as usize]
    }
}

/// Whether a site's value changes its label.
fn turns(form: &SiteForm, choices: &[Choice], site: u32) -> bool
    requires choices { length choices.now ≡ length form.now.at.now }
    requires site { site < length form.now.at.now }
    ensures { result ≡ turns_label form.now choices.now site }
{
    let old = form.at[site as usize];
    label_of(form, old, value_of(choices, site)) != old
}

/// The value of a site, once the sites below another have turned.
fn value_below(form: &SiteForm, choices: &[Choice], turned: u32, site: u32) -> bool
    requires choices { length choices.now ≡ length form.now.at.now }
    requires site { site < length form.now.at.now }
    ensures { result ≡ turned_below form.now choices.now turned site }
{
    let value = value_of(choices, site);
    if site < turned {
        return value;
    }
    if turns(form, choices, site) {
        return !value;
    }
    value
}

/// By how much the energy rises where a site turns to 1, once the sites below it have turned, as
/// far as the neighbour at a place goes.
fn rise_at(form: &SiteForm, choices: &[Choice], site: u32, place: u32) -> i64
    requires choices { length choices.now ≡ length form.now.at.now }
    requires place { IsSitePlace form.now site place }
    ensures rise { result
        ≡ place_rise (form_of form.now) (turned_below form.now choices.now site) site place }
    ensures small { unsigned_abs result ≤ pair_cost_limit }
{
    let rises = rises_of_place(form, site, place);
    let head = form.ends.heads[place as usize];
    if value_below(form, choices, site, head) {
        return i64::from(rises.high);
    }
    i64::from(rises.low)
}

/// By how much the energy rises where a site turns to 1, once the sites below it have turned.
fn rise_of(form: &SiteForm, choices: &[Choice], site: u32) -> i64
    requires choices { length choices.now ≡ length form.now.at.now }
    requires site { site < length form.now.at.now }
    ensures rise { Tells form.now
        (λ E. result ≡ rise E site (turned_below form.now choices.now site)) }
    ensures range { unsigned_abs result ≤ rise_limit form.now.ends.now site }
{
    let mut total = i64::from(form.own[site as usize]);
    for place in start(form, site)..start(form, site + 1) {
        total += rise_at(form, choices, site, place);
    }
    total
}

/// By how much the energy rises where a site turns, once the sites below it have turned.
fn turn(form: &SiteForm, choices: &[Choice], site: u32) -> i64
    requires choices { length choices.now ≡ length form.now.at.now }
    requires site { site < length form.now.at.now }
    ensures rise { TellsOver form.now
        (λ E. result ≡ E (turned_below form.now choices.now (site + 1))
        -ℤ E (turned_below form.now choices.now site)) }
    ensures range { unsigned_abs result ≤ rise_limit form.now.ends.now site }
{
    if !turns(form, choices, site) {
        return 0;
    }
    let rise = rise_of(form, choices, site);
    if value_of(choices, site) {
        return rise;
    }
    -rise
}

/// Whether a rise is a fall.
pub(crate) fn is_negative(rise: i64) -> bool
    ensures { IsTrue result ↔ (rise <ℤ pos 0) }
{
    rise < 0
}

/// By how much more the labels that the values make cost.
pub(crate) fn change_of_all(form: &SiteForm, choices: &[Choice]) -> i64
    requires choices { length choices.now ≡ length form.now.at.now }
    ensures rise { WhereRead form.now
        (λ m move f. result ≡ energy_rise m move f choices.now) }
    ensures range { unsigned_abs result ≤ weights_limit }
{
    let mut total = 0i64;
    for site in 0..form.at.len() {
        total += turn(form, choices, site as u32);
    }
    total
}

/// The same, where the sites whose labels change are among these.
pub(crate) fn change_of_listed(form: &SiteForm, choices: &[Choice], sites: &[u32]) -> i64
    requires choices { length choices.now ≡ length form.now.at.now }
    requires listed { HasListing (length form.now.at.now) sites.now }
    ensures rise { WhereRead form.now (λ m move f.
        HasChanges move form.now.at.now choices.now sites.now →
        result ≡ energy_rise m move f choices.now) }
    ensures range { unsigned_abs result ≤ weights_limit }
{
    let mut total = 0i64;
    for index in 0..sites.len() {
        total += turn(form, choices, sites[index]);
    }
    total
}
