//! What the two ends of a pair save together, read of a form.
ghost use Rattle.std.specs.Prelude.{◌≡◌, ◌<◌, ◌≤◌, true, false, length, pos, unsigned_abs};
ghost use Rattle.move_energy.specs.BySite.{neighbour_at, pair_beside};
ghost use Rattle.move_energy.specs.Limits.{surplus_limit};
ghost use Rattle.move_energy.specs.Weights.{surplus_of, pair_table};
ghost use Rattle.site_forms.specs.Numbers.{WhereRead, IsSitePlace, IsHighRise};

use crate::expanding::{expanded_ends, high_rise};
use crate::numbers::SiteForm;
use crate::rises::{rises_of_place, told_ends};
use move_energy::saving_of;

/// The rise of a site that is the same at all its places, in an expansion of which that is known,
/// and else 0.
#[inline(always)]
pub fn rise_at_all<const EXPANDING: bool>(form: &SiteForm, site: u32) -> i32
    requires expanding { EXPANDING ≡ true → form.now.expanding ≡ true }
    requires site { site < length form.now.at.now }
    ensures rise { EXPANDING ≡ true → IsHighRise form.now site result }
    ensures none { EXPANDING ≡ false → result ≡ pos 0 }
{
    if EXPANDING { high_rise(form, site) } else { 0 }
}

/// The surplus of the pair that a site has with the neighbour at a place: by how much its costs at
/// 01 and 10 are together above those at 00 and 11. What is known of the form is a const parameter:
/// that a table tells its rises, or that it is of an expansion. `high` is then the rise that is the
/// same at all places of the site.
#[inline(always)]
pub fn saving_by<const UNIFORM: bool, const EXPANDING: bool>(
    form: &SiteForm,
    site: u32,
    place: u32,
    head: u32,
    high: i32,
) -> i64
    requires uniform { UNIFORM ≡ true → form.now.uniform ≡ true }
    requires expanding { EXPANDING ≡ true → form.now.expanding ≡ true }
    requires high { EXPANDING ≡ true → IsHighRise form.now site high }
    requires place { IsSitePlace form.now site place }
    requires head { head ≡ neighbour_at form.now.ends.now place }
    ensures value { WhereRead form.now (λ m move f. result
        ≡ surplus_of (pair_table m move f (pair_beside form.now.ends.now site place))) }
    ensures range { unsigned_abs result ≤ surplus_limit }
{
    if UNIFORM {
        return saving_of(told_ends(form, site, place, head));
    }
    if EXPANDING {
        return saving_of(expanded_ends(form, site, place, head, high));
    }
    saving_of(rises_of_place(form, site, place))
}

/// The surplus of the pair that a site has with the neighbour at a place, for who reads few places:
/// what the form says of all is asked at each.
#[inline(always)]
pub fn saving_beside(form: &SiteForm, site: u32, place: u32, head: u32) -> i64
    requires place { IsSitePlace form.now site place }
    requires head { head ≡ neighbour_at form.now.ends.now place }
    ensures value { WhereRead form.now (λ m move f. result
        ≡ surplus_of (pair_table m move f (pair_beside form.now.ends.now site place))) }
    ensures range { unsigned_abs result ≤ surplus_limit }
{
    if form.uniform {
        return saving_by::<true, false>(form, site, place, head, 0);
    }
    if form.expanding {
        let high = rise_at_all::<true>(form, site);
        return saving_by::<false, true>(form, site, place, head, high);
    }
    saving_by::<false, false>(form, site, place, head, 0)
}
