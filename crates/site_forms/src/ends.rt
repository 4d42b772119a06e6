//! The places of a site, read of a form.
ghost use Rattle.std.specs.Prelude.{◌≡◌, ◌<◌, length};
ghost use Rattle.move_energy.specs.BySite.{neighbour_at, weight_at};
ghost use Rattle.move_energy.specs.BySite.{is_first as is_first_of};
ghost use Rattle.site_forms.specs.Numbers.{IsSitePlace};

use crate::numbers::SiteForm;

/// The neighbour at a place of a site.
#[inline]
pub fn head_at(form: &SiteForm, site: u32, place: u32) -> u32
    requires place { IsSitePlace form.now site place }
    ensures head { result ≡ neighbour_at form.now.ends.now place }
    ensures inside { result < length form.now.at.now }
{
    form.ends.heads[place as usize]
}

/// Whether a site is the first of the pair that it has with a neighbour.
#[inline]
pub fn is_first_end(form: &SiteForm, site: u32, place: u32, head: u32) -> bool
    requires place { IsSitePlace form.now site place }
    requires head { head ≡ neighbour_at form.now.ends.now place }
    ensures { result ≡ is_first_of form.now.ends.now site place }
{
    if form.rising {
        site < head
    } else {
        form.ends.firsts[place as usize]
    }
}

/// The weight of the pair at a place of a site. `EVEN` is that of the form, so that a loop over
/// places does not ask for it again.
#[inline]
pub(crate) fn weight_beside<const EVEN: bool>(form: &SiteForm, site: u32, place: u32) -> u32
    requires way { EVEN ≡ form.now.even }
    requires place { IsSitePlace form.now site place }
    ensures { result ≡ weight_at form.now.ends.now place }
{
    if EVEN {
        form.weight
    } else {
        form.ends.weights[place as usize]
    }
}

/// The same, asked for at the place.
#[inline]
pub(crate) fn weight_read(form: &SiteForm, site: u32, place: u32) -> u32
    requires place { IsSitePlace form.now site place }
    ensures { result ≡ weight_at form.now.ends.now place }
{
    if form.even {
        weight_beside::<true>(form, site, place)
    } else {
        weight_beside::<false>(form, site, place)
    }
}
