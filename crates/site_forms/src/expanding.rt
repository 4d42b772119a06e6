//! By how much pairs rise in an expansion, by the labels of their ends: one rise of a site is the
//! same beside all neighbours.
ghost use Rattle.std.specs.Prelude.{◌≡◌, ◌<◌, ◌≤◌, ◌+◌, ◌*◌, true, length, unsigned_abs};
ghost use Rattle.cost_store.specs.Limits.{pair_cost_limit};
ghost use Rattle.label_field.specs.Limits.{label_limit};
ghost use Rattle.move_energy.specs.BySite.{neighbour_at};
ghost use Rattle.site_forms.specs.Fields.{IsSiteLabel};
ghost use Rattle.site_forms.specs.Numbers.{expanded_rise, IsHighRise, IsSitePlace, AreRisesAt};

use crate::numbers::SiteForm;
use crate::reading::{smooth_of, times};
use move_energy::EndRises;

/// By how much a pair rises where an end of one label gets the label of the expansion, while its
/// other end has another.
#[inline]
fn rise_beside(form: &SiteForm, own: u8, other: u8) -> i32
    requires expanding { form.now.expanding ≡ true }
    requires own { IsSiteLabel form.now.at.now own }
    requires row { other * label_limit + label_limit ≤ length form.now.smooth.now }
    ensures value { result ≡ expanded_rise form.now own other }
    ensures small { unsigned_abs result ≤ pair_cost_limit }
{
    let gets = i32::from(smooth_of(form.smooth, true, form.alpha, other));
    let keeps = i32::from(smooth_of(form.smooth, true, own, other));
    times(form.weight, gets - keeps)
}

/// By how much a pair of a site rises where the site gets the label, while its neighbour has it
/// too.
#[inline]
pub(crate) fn high_rise(form: &SiteForm, site: u32) -> i32
    requires expanding { form.now.expanding ≡ true }
    requires site { site < length form.now.at.now }
    ensures { IsHighRise form.now site result }
{
    rise_beside(form, form.at[site as usize], form.alpha)
}

/// The rises of a site as far as the neighbour at a place goes, which is this one, and beside which
/// the site rises by this number while it has the label.
#[inline]
pub(crate) fn expanded_ends(
    form: &SiteForm,
    site: u32,
    place: u32,
    head: u32,
    high: i32,
) -> EndRises
    requires expanding { form.now.expanding ≡ true }
    requires place { IsSitePlace form.now site place }
    requires head { head ≡ neighbour_at form.now.ends.now place }
    requires high { IsHighRise form.now site high }
    ensures { AreRisesAt form.now site place result }
{
    EndRises {
        low: rise_beside(form, form.at[site as usize], form.at[head as usize]),
        high,
    }
}
