//! Sites that are decided by numbers alone, in one pass over a range of sites. No cost is asked, so
//! any thread can do it.
ghost use Rattle.std.specs.Prelude.{◌≡◌, ◌≢◌, ◌+◌, ◌*◌, ◌<◌, ◌≤◌, ℕ, Bool, pos, ◌≤ℤ◌, ◌<ℤ◌};
ghost use Rattle.std.specs.Prelude.{length, unsigned_abs};
ghost use Rattle.site_bounds.specs.Prelude.{Move, Instance, IsInstance, labelling, site_cost_limit};
ghost use Rattle.site_bounds.specs.Prelude.{pair_cost_limit, Open, Zero, One, degree, choice_at};
ghost use Rattle.site_bounds.specs.Prelude.{Passes, move_value, IsFormOf, ArePassedChoices};
ghost use Rattle.site_bounds.specs.Prelude.{site_weight, WhereRead, KeepsKnown, KeepsPassed};
ghost use Rattle.site_bounds.specs.Prelude.{IsSwept};

use move_energy::{Choice, Rises};
use site_forms::{SiteForm, read_rises};

/// What an open site weighs by what is known: by how much the energy rises where the site turns to
/// 1 while every other open site is at 0.
pub fn read_weight(form: &SiteForm, known: &[Choice], site: u32) -> i64
    requires known { length known.now ≡ length form.now.at.now }
    requires site { site < length form.now.at.now }
    requires opened { choice_at known.now site ≡ Open }
    ensures weight { WhereRead form.now (λ m move f. IsInstance m →
        result ≡ site_weight m move f (choice_at known.now) site) }
    ensures range { unsigned_abs result
        ≤ site_cost_limit + pair_cost_limit * degree form.now.ends.now site }
{
    read_rises(form, known, site).greatest
}

/// What the rises of a site tell of its value: 0 where turning never lowers the energy, 1 where it
/// always does, else nothing.
fn choice_told(rises: Rises) -> Choice
    ensures zero { result ≡ Zero → pos 0 ≤ℤ rises.least }
    ensures one { result ≡ One → rises.greatest <ℤ pos 0 }
    ensures none { result ≡ Open → (rises.least <ℤ pos 0) × (pos 0 ≤ℤ rises.greatest) }
{
    if rises.least >= 0 {
        Choice::Zero
    } else if rises.greatest < 0 {
        Choice::One
    } else {
        Choice::Open
    }
}

/// Decides a site, if it is open and its rises tell its value.
fn try_site(form: &SiteForm, known: &mut [Choice], site: u32)
    requires known { length known.old ≡ length form.now.at.now }
    requires site { site < length form.now.at.now }
    ensures count { length known.new ≡ length known.old }
    ensures others { (p : ℕ) → p ≢ site → choice_at known.new p ≡ choice_at known.old p }
    ensures kept { KeepsKnown known.old known.new }
    ensures passed { KeepsPassed form.now known.old known.new }
    ensures tried { (m : Instance) (move : Move) (b : Bool) → IsFormOf m move form.now →
        (ds : ArePassedChoices m move (labelling form.now.at.now) (choice_at known.old)) →
        Passes (move_value m move (labelling form.now.at.now)) ds.decisions site b →
        choice_at known.new site ≢ Open }
{
    if known[site as usize].is_open() {
        let rises = read_rises(form, known, site);
        known[site as usize] = choice_told(rises);
    }
}

/// Decides the open sites of a range that can be told, from the first to the last.
fn sweep_up(form: &SiteForm, known: &mut [Choice], from: usize, to: usize)
    requires known { length known.old ≡ length form.now.at.now }
    requires range { (from ≤ to) × (to ≤ length form.now.at.now) }
    ensures { IsSwept form.now from to known.old known.new }
{
    for site in from..to {
        try_site(form, known, site as u32);
    }
}

/// The same from the last to the first. So sites that were told by later ones are decided.
fn sweep_down(form: &SiteForm, known: &mut [Choice], from: usize, to: usize)
    requires known { length known.old ≡ length form.now.at.now }
    requires range { (from ≤ to) × (to ≤ length form.now.at.now) }
    ensures { IsSwept form.now from to known.old known.new }
{
    let mut site = to;
    while from < site {
        site -= 1;
        try_site(form, known, site as u32);
    }
}

/// Decides the open sites of a range that can be told by what is known when each is looked at,
/// twice.
pub fn sweep(form: &SiteForm, known: &mut [Choice], from: usize, to: usize)
    requires known { length known.old ≡ length form.now.at.now }
    requires range { (from ≤ to) × (to ≤ length form.now.at.now) }
    ensures { IsSwept form.now from to known.old known.new }
{
    sweep_up(form, known, from, to);
    sweep_down(form, known, from, to);
}
