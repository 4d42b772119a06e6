//! By how much a function of the sites rises where one of them turns, read of a form.
ghost use Rattle.std.specs.Prelude.{◌≡◌, ◌≢◌, ◌+◌, ◌*◌, ◌<◌, ◌≤◌, ℕ, true, false, length};
ghost use Rattle.std.specs.Prelude.{unsigned_abs};
ghost use Rattle.cost_store.specs.Limits.{site_cost_limit, pair_cost_limit};
ghost use Rattle.label_energies.specs.Energies.{labelling};
ghost use Rattle.move_energy.specs.declared.choice.Choice.TheVariants.{Open};
ghost use Rattle.move_energy.specs.BySite.{degree, neighbours_start, neighbour_at, pair_beside};
ghost use Rattle.move_energy.specs.BySite.{is_first as is_first_of, weight_at as weight_of};
ghost use Rattle.move_energy.specs.Choices.{choice_at};
ghost use Rattle.move_energy.specs.Assignments.{rise};
ghost use Rattle.move_energy.specs.Ends.{decided_or, AvoidsSite, HasNoneBefore, rise_limit};
ghost use Rattle.site_forms.specs.Forms.{place_rise};
ghost use Rattle.site_forms.specs.Numbers.{form_of, Tells, IsSitePlace, AreRisesAt, IsHighRise};
ghost use Rattle.site_forms.specs.Numbers.{AreSiteRises};

use crate::by_known::place_told;
use crate::ends::{head_at, is_first_end, weight_beside, weight_read};
use crate::expanding::{expanded_ends, high_rise};
use crate::numbers::SiteForm;
use crate::reading::{end_rises, times};
use move_energy::{Choice, EndRises, Rises, SiteRises, rises_beside};

/// By how much the value rises where a site turns, as far as the neighbour at a place goes: while
/// the neighbour is at 0, and while it is at 1.
#[inline]
pub(crate) fn place_rises<const FEW: bool>(
    form: &SiteForm,
    site: u32,
    place: u32,
    head: u32,
    weight: u32,
) -> EndRises
    requires way { FEW ≡ form.now.few }
    requires by_labels { form.now.listed ≡ false }
    requires place { IsSitePlace form.now site place }
    requires head { head ≡ neighbour_at form.now.ends.now place }
    requires weight { weight ≡ weight_of form.now.ends.now place }
    ensures { AreRisesAt form.now site place result }
{
    end_rises::<FEW>(
        form,
        is_first_end(form, site, place, head),
        weight,
        form.at[site as usize],
        form.at[head as usize],
    )
}

/// The same, where the rises are listed by place.
#[inline]
pub(crate) fn listed_rises(form: &SiteForm, site: u32, place: u32) -> EndRises
    requires listed { form.now.listed ≡ true }
    requires place { IsSitePlace form.now site place }
    ensures { AreRisesAt form.now site place result }
{
    form.rises[place as usize]
}

/// The same, where a table has the rises by what is known of the neighbour, which is this one.
#[inline]
pub(crate) fn told_ends(form: &SiteForm, site: u32, place: u32, head: u32) -> EndRises
    requires uniform { form.now.uniform ≡ true }
    requires place { IsSitePlace form.now site place }
    requires head { head ≡ neighbour_at form.now.ends.now place }
    ensures { AreRisesAt form.now site place result }
{
    let own = form.at[site as usize];
    let other = form.at[head as usize];
    let zero = place_told(own, other, Choice::Zero);
    EndRises {
        low: form.told[zero].least,
        high: form.told[zero + 1].least,
    }
}

/// The same, for who reads few places: what the form says of all is asked at each.
pub fn rises_of_place(form: &SiteForm, site: u32, place: u32) -> EndRises
    requires place { IsSitePlace form.now site place }
    ensures { AreRisesAt form.now site place result }
{
    if form.listed {
        return listed_rises(form, site, place);
    }
    let head = head_at(form, site, place);
    if form.uniform {
        return told_ends(form, site, place, head);
    }
    let weight = weight_read(form, site, place);
    if form.few {
        place_rises::<true>(form, site, place, head, weight)
    } else {
        place_rises::<false>(form, site, place, head, weight)
    }
}

/// The same, where what the form says of all places is a const parameter. `high` is the rise that
/// is the same at all places of an expansion.
#[inline]
fn rises_here<const EXPANDING: bool, const LISTED: bool, const FEW: bool, const EVEN: bool>(
    form: &SiteForm,
    site: u32,
    place: u32,
    head: u32,
    high: i32,
) -> EndRises
    requires label { EXPANDING ≡ form.now.expanding }
    requires high { IsHighRise form.now site high }
    requires kind { LISTED ≡ form.now.listed }
    requires way { (FEW ≡ form.now.few) × (EVEN ≡ form.now.even) }
    requires place { IsSitePlace form.now site place }
    requires head { head ≡ neighbour_at form.now.ends.now place }
    ensures { AreRisesAt form.now site place result }
{
    if EXPANDING {
        return expanded_ends(form, site, place, head, high);
    }
    if LISTED {
        return listed_rises(form, site, place);
    }
    let weight = weight_beside::<EVEN>(form, site, place);
    place_rises::<FEW>(form, site, place, head, weight)
}

/// The rises of a site as far as the neighbour at a place goes, at least and at most, where a table
/// has them by what is known of the neighbour.
#[inline]
fn told_rises(form: &SiteForm, known: &[Choice], site: u32, place: u32, head: u32) -> Rises
    requires uniform { form.now.uniform ≡ true }
    requires known { length known.now ≡ length form.now.at.now }
    requires place { IsSitePlace form.now site place }
    requires head { head ≡ neighbour_at form.now.ends.now place }
    ensures least { result.least
        ≡ place_rise (form_of form.now) (decided_or known.now true) site place }
    ensures greatest { result.greatest
        ≡ place_rise (form_of form.now) (decided_or known.now false) site place }
    ensures small { (unsigned_abs result.least ≤ pair_cost_limit)
        × (unsigned_abs result.greatest ≤ pair_cost_limit) }
{
    let own = form.at[site as usize];
    let other = form.at[head as usize];
    let told = form.told[place_told(own, other, known[head as usize])];
    Rises {
        least: i64::from(told.least),
        greatest: i64::from(told.greatest),
    }
}

/// The same, where the table has those of a pair of weight 1, and this is the weight.
#[inline]
fn scaled_rises(
    form: &SiteForm,
    known: &[Choice],
    site: u32,
    place: u32,
    head: u32,
    weight: u32,
) -> Rises
    requires scaled { form.now.scaled ≡ true }
    requires known { length known.now ≡ length form.now.at.now }
    requires place { IsSitePlace form.now site place }
    requires head { head ≡ neighbour_at form.now.ends.now place }
    requires weight { weight ≡ weight_of form.now.ends.now place }
    ensures least { result.least
        ≡ place_rise (form_of form.now) (decided_or known.now true) site place }
    ensures greatest { result.greatest
        ≡ place_rise (form_of form.now) (decided_or known.now false) site place }
    ensures small { (unsigned_abs result.least ≤ pair_cost_limit)
        × (unsigned_abs result.greatest ≤ pair_cost_limit) }
{
    let own = form.at[site as usize];
    let other = form.at[head as usize];
    let told = form.told[place_told(own, other, known[head as usize])];
    Rises {
        least: i64::from(times(weight, told.least)),
        greatest: i64::from(times(weight, told.greatest)),
    }
}

/// The rises of a site as far as the neighbour at a place goes, at least and at most, by what is
/// known of the neighbour.
#[inline]
fn rises_at<
    const TOLD: bool,
    const EXPANDING: bool,
    const LISTED: bool,
    const FEW: bool,
    const EVEN: bool,
>(form: &SiteForm, known: &[Choice], site: u32, place: u32, head: u32, high: i32) -> Rises
    requires uniform { TOLD ≡ true → EVEN ≡ true → form.now.uniform ≡ true }
    requires scaled { TOLD ≡ true → EVEN ≡ false → form.now.scaled ≡ true }
    requires label { EXPANDING ≡ form.now.expanding }
    requires high { IsHighRise form.now site high }
    requires kind { LISTED ≡ form.now.listed }
    requires way { (FEW ≡ form.now.few) × (EVEN ≡ form.now.even) }
    requires known { length known.now ≡ length form.now.at.now }
    requires place { IsSitePlace form.now site place }
    requires head { head ≡ neighbour_at form.now.ends.now place }
    ensures least { result.least
        ≡ place_rise (form_of form.now) (decided_or known.now true) site place }
    ensures greatest { result.greatest
        ≡ place_rise (form_of form.now) (decided_or known.now false) site place }
    ensures small { (unsigned_abs result.least ≤ pair_cost_limit)
        × (unsigned_abs result.greatest ≤ pair_cost_limit) }
{
    if TOLD && EVEN {
        return told_rises(form, known, site, place, head);
    }
    if TOLD {
        let weight = weight_beside::<EVEN>(form, site, place);
        return scaled_rises(form, known, site, place, head, weight);
    }
    let rises = rises_here::<EXPANDING, LISTED, FEW, EVEN>(form, site, place, head, high);
    rises_beside(rises, known[head as usize])
}

/// Where the places of a site begin; of the number of sites, where those of the last end.
#[inline]
pub fn start(form: &SiteForm, site: u32) -> u32
    requires { site ≤ length form.now.at.now }
    ensures { result ≡ neighbours_start form.now.ends.now site }
{
    form.ends.starts[site as usize]
}

/// Whether a neighbour is before the site, and open.
#[inline]
fn is_open_before(known: &[Choice], site: u32, head: u32) -> bool
    requires { head < length known.now }
    ensures { result ≡ false → (u : ℕ) → u < site → choice_at known.now u ≡ Open → head ≢ u }
{
    (head < site) & known[head as usize].is_open()
}

/// Whether the neighbour at a place is.
#[inline]
fn meets_open(form: &SiteForm, known: &[Choice], site: u32, place: u32, head: u32) -> bool
    requires known { length known.now ≡ length form.now.at.now }
    requires place { IsSitePlace form.now site place }
    requires head { head ≡ neighbour_at form.now.ends.now place }
    ensures { result ≡ false → (u : ℕ) → u < site → choice_at known.now u ≡ Open →
        AvoidsSite u (pair_beside form.now.ends.now site place) }
{
    is_open_before(known, site, head)
}

/// Whether one of the two holds.
#[inline]
fn either(one: bool, other: bool) -> bool
    ensures { result ≡ false → (one ≡ false) × (other ≡ false) }
{
    one | other
}

/// The rise of a site that is the same at all its places, in an expansion; else 0.
#[inline]
fn high_of<const EXPANDING: bool>(form: &SiteForm, site: u32) -> i32
    requires label { EXPANDING ≡ form.now.expanding }
    requires site { site < length form.now.at.now }
    ensures { IsHighRise form.now site result }
{
    if EXPANDING { high_rise(form, site) } else { 0 }
}

/// The rises of a site by what is known of its neighbours, summed place by place. What the form
/// says of all places is a const parameter, so that the loop does not ask for it at each.
#[inline]
fn sum_rises<
    const TOLD: bool,
    const EXPANDING: bool,
    const LISTED: bool,
    const FEW: bool,
    const EVEN: bool,
>(form: &SiteForm, known: &[Choice], site: u32) -> SiteRises
    requires uniform { TOLD ≡ true → EVEN ≡ true → form.now.uniform ≡ true }
    requires scaled { TOLD ≡ true → EVEN ≡ false → form.now.scaled ≡ true }
    requires label { EXPANDING ≡ form.now.expanding }
    requires kind { LISTED ≡ form.now.listed }
    requires way { (FEW ≡ form.now.few) × (EVEN ≡ form.now.even) }
    requires known { length known.now ≡ length form.now.at.now }
    requires site { site < length form.now.at.now }
    ensures { AreSiteRises form.now known.now site result }
{
    let mut least = i64::from(form.own[site as usize]);
    let mut greatest = least;
    let mut beside = false;
    let high = high_of::<EXPANDING>(form, site);
    for place in start(form, site)..start(form, site + 1) {
        let head = head_at(form, site, place);
        let rises = rises_at::<TOLD, EXPANDING, LISTED, FEW, EVEN>(
            form, known, site, place, head, high,
        );
        least += rises.least;
        greatest += rises.greatest;
        beside = either(beside, meets_open(form, known, site, place, head));
    }
    SiteRises {
        least,
        greatest,
        beside,
    }
}

/// The same, where whether the rises are listed by place is a const parameter, no table by what is
/// known is read, and no rise is the same at all places.
#[inline]
fn sum_by_kind<const LISTED: bool>(form: &SiteForm, known: &[Choice], site: u32) -> SiteRises
    requires apart { form.now.expanding ≡ false }
    requires kind { LISTED ≡ form.now.listed }
    requires known { length known.now ≡ length form.now.at.now }
    requires site { site < length form.now.at.now }
    ensures { AreSiteRises form.now known.now site result }
{
    match (form.few, form.even) {
        (true, true) => sum_rises::<false, false, LISTED, true, true>(form, known, site),
        (true, false) => sum_rises::<false, false, LISTED, true, false>(form, known, site),
        (false, true) => sum_rises::<false, false, LISTED, false, true>(form, known, site),
        (false, false) => sum_rises::<false, false, LISTED, false, false>(form, known, site),
    }
}

/// The same, where no table has the rises of all pairs by what is known.
fn other_rises(form: &SiteForm, known: &[Choice], site: u32) -> SiteRises
    requires known { length known.now ≡ length form.now.at.now }
    requires site { site < length form.now.at.now }
    ensures { AreSiteRises form.now known.now site result }
{
    if form.scaled {
        return sum_rises::<true, false, false, true, false>(form, known, site);
    }
    if form.expanding {
        return sum_rises::<false, true, false, false, true>(form, known, site);
    }
    if form.listed {
        return sum_by_kind::<true>(form, known, site);
    }
    sum_by_kind::<false>(form, known, site)
}

/// By how much the value rises where a site turns, at least and at most, by what is known of its
/// neighbours; and whether one of them before it is open. It stands in its caller's loop where a
/// table has the rises by what is known.
#[inline(always)]
pub fn site_rises(form: &SiteForm, known: &[Choice], site: u32) -> SiteRises
    requires known { length known.now ≡ length form.now.at.now }
    requires site { site < length form.now.at.now }
    ensures { AreSiteRises form.now known.now site result }
{
    if form.uniform {
        return sum_rises::<true, false, false, true, true>(form, known, site);
    }
    other_rises(form, known, site)
}

/// By how much the value rises where a site turns, at least and at most, by what is known of its
/// neighbours.
pub fn read_rises(form: &SiteForm, known: &[Choice], site: u32) -> Rises
    requires known { length known.now ≡ length form.now.at.now }
    requires site { site < length form.now.at.now }
    ensures least { Tells form.now (λ E. result.least ≡ rise E site (decided_or known.now true)) }
    ensures greatest { Tells form.now
        (λ E. result.greatest ≡ rise E site (decided_or known.now false)) }
    ensures range { unsigned_abs result.greatest
        ≤ site_cost_limit + pair_cost_limit * degree form.now.ends.now site }
{
    let rises = site_rises(form, known, site);
    Rises {
        least: rises.least,
        greatest: rises.greatest,
    }
}
