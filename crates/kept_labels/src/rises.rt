//! By how much the energy rises where the sites of a label turn last, read of a form. They turn one
//! after another, and the form tells the rise of each.
ghost use Rattle.std.specs.Prelude.{◌≡◌, ◌<◌, ◌≤◌, ℕ, length, pos, unsigned_abs, slice_index_or};
ghost use Rattle.cost_store.specs.Limits.{pair_cost_limit};
ghost use Rattle.label_field.specs.Limits.{label_limit};
ghost use Rattle.label_energies.specs.Energies.{labelling};
ghost use Rattle.move_energy.specs.Assignments.{rise};
ghost use Rattle.move_energy.specs.Ends.{rise_limit};
ghost use Rattle.move_energy.specs.Limits.{weights_limit};
ghost use Rattle.move_energy.specs.MoveValues.{move_value};
ghost use Rattle.site_forms.specs.Forms.{place_rise};
ghost use Rattle.site_forms.specs.Numbers.{form_of, IsSitePlace, Tells, WhereRead};
ghost use Rattle.kept_labels.specs.Kept.{last_rise, turned_last};

use site_forms::{SiteForm, head_at, rises_of_place, start};

/// Whether a neighbour has turned before a site does, where the sites of this site's label turn
/// last.
#[inline]
fn has_turned(form: &SiteForm, site: u32, head: u32) -> bool
    requires site { site < length form.now.at.now }
    requires head { head < length form.now.at.now }
    ensures { result ≡ turned_last (labelling form.now.at.now)
        (labelling form.now.at.now site) site head }
{
    head < site || form.at[head as usize] != form.at[site as usize]
}

/// By how much the energy then rises where the site turns, as far as the neighbour at a place goes.
#[inline]
fn rise_at(form: &SiteForm, site: u32, place: u32) -> i64
    requires place { IsSitePlace form.now site place }
    ensures rise { result ≡ place_rise (form_of form.now) (turned_last
        (labelling form.now.at.now) (labelling form.now.at.now site) site) site place }
    ensures small { unsigned_abs result ≤ pair_cost_limit }
{
    let rises = rises_of_place(form, site, place);
    let head = head_at(form, site, place);
    if has_turned(form, site, head) {
        return i64::from(rises.high);
    }
    i64::from(rises.low)
}

/// By how much the energy then rises where the site turns.
fn rise_of(form: &SiteForm, site: u32) -> i64
    requires site { site < length form.now.at.now }
    ensures rise { Tells form.now (λ E. result ≡ rise E site (turned_last
        (labelling form.now.at.now) (labelling form.now.at.now site) site)) }
    ensures range { unsigned_abs result ≤ rise_limit form.now.ends.now site }
{
    let mut total = i64::from(form.own[site as usize]);
    for place in start(form, site)..start(form, site + 1) {
        total += rise_at(form, site, place);
    }
    total
}

/// By how much the energy rises where the sites of a label turn last, of each label that there can
/// be, in one pass over the sites and their pairs. A label that no site has rises by 0.
pub fn last_rises(form: &SiteForm) -> [i64; 256]
    ensures count { length result ≡ label_limit }
    ensures rises { (label : ℕ) → label < label_limit → WhereRead form.now (λ m move f.
        slice_index_or result label (pos 0) ≡ last_rise (move_value m move f) f label) }
    ensures range { (label : ℕ) →
        unsigned_abs (slice_index_or result label (pos 0)) ≤ weights_limit }
{
    let mut rises = [0i64; 256];
    for site in 0..form.at.len() {
        rises[form.at[site] as usize] += rise_of(form, site as u32);
    }
    rises
}
