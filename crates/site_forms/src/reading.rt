//! By how much a pair's cost rises where one of its ends turns, read of a form.
ghost use Rattle.std.specs.Prelude.{◌≡◌, ◌+◌, ◌<◌, ◌≤◌, ◌*◌, length, true, false, unsigned_abs};
ghost use Rattle.std.specs.Prelude.{pos, ◌-ℤ◌, ◌*ℤ◌};
ghost use Rattle.label_field.specs.Limits.{weight_limit, label_limit};
ghost use Rattle.cost_store.specs.Limits.{pair_cost_limit};
ghost use Rattle.move_energy.specs.Rising.{table_labels, entry_place};
ghost use Rattle.site_forms.specs.Fields.{table_cost, unit_rises_at, IsSiteLabel};
ghost use Rattle.site_forms.specs.Numbers.{AreEndRises, label_by};

use crate::numbers::SiteForm;
use move_energy::EndRises;

/// What a pair of weight 1 costs whose first end, or its second, has the one label, and its other
/// end the other. The costs have a row of 256 for each label of a first end. Both labels need one.
#[inline]
pub fn smooth_of(smooth: &[u16], first: bool, own: u8, other: u8) -> u16
    requires rows { (own * label_limit + label_limit ≤ length smooth.now)
        × (other * label_limit + label_limit ≤ length smooth.now) }
    ensures { result ≡ table_cost smooth.now first own other }
{
    let own = usize::from(own);
    let other = usize::from(other);
    if first {
        smooth[own * 256 + other]
    } else {
        smooth[other * 256 + own]
    }
}

/// What a pair of this weight costs by the table.
#[inline]
fn pair_cost(smooth: &[u16], first: bool, weight: u32, own: u8, other: u8) -> i32
    requires rows { (own * label_limit + label_limit ≤ length smooth.now)
        × (other * label_limit + label_limit ≤ length smooth.now) }
    requires weight { weight ≤ weight_limit }
    requires cost { table_cost smooth.now first own other ≤ 10000 }
    ensures cost { result ≡ pos (weight * table_cost smooth.now first own other) }
    ensures small { unsigned_abs result ≤ pair_cost_limit }
{
    (weight * u32::from(smooth_of(smooth, first, own, other))) as i32
}

/// By how much the cost of a pair of this weight rises where its end of one label turns, while its
/// other end has another label.
#[inline]
fn end_rise(form: &SiteForm, first: bool, weight: u32, own: u8, other: u8) -> i32
    requires weight { weight ≤ weight_limit }
    requires row { other * label_limit + label_limit ≤ length form.now.smooth.now }
    ensures rise { result
        ≡ pos (weight * table_cost form.now.smooth.now first (label_by form.now own true) other)
        -ℤ pos (weight * table_cost form.now.smooth.now first (label_by form.now own false)
        other) }
    ensures small { unsigned_abs result ≤ pair_cost_limit }
{
    pair_cost(form.smooth, first, weight, form.turns[own as usize], other)
        - pair_cost(form.smooth, first, weight, form.stays[own as usize], other)
}

/// Where a table of 8,192 has the rises of a pair of weight 1 whose first end, or its second, has
/// the one label, and its other end the other. Both labels are below 64.
#[inline]
pub fn place_in_table(first: bool, own: u8, other: u8) -> usize
    requires { (own < table_labels) × (other < table_labels) }
    ensures { result ≡ entry_place first own other }
{
    let row = if first {
        own as usize
    } else {
        64 + own as usize
    };
    row * 64 + other as usize
}

/// The rises of a pair of weight 1 by a table of 8,192, where its first end, or its second, has the
/// one label, and its other end the other. Both labels are below 64.
#[inline]
pub fn unit_rises(table: &[EndRises], first: bool, own: u8, other: u8) -> EndRises
    requires size { length table.now ≡ 8192 }
    requires few { (own < table_labels) × (other < table_labels) }
    ensures { result ≡ unit_rises_at table.now first own other }
{
    table[place_in_table(first, own, other)]
}

/// The rise of a pair of this weight, where that of weight 1 is the difference of two costs. The
/// weight is at most 1,000, a cost at most 10,000.
#[inline]
pub fn times(weight: u32, rise: i32) -> i32
    requires weight { weight ≤ weight_limit }
    requires small { unsigned_abs rise ≤ 10000 }
    ensures product { result ≡ pos weight *ℤ rise }
    ensures small { unsigned_abs result ≤ pair_cost_limit }
{
    weight as i32 * rise
}

/// By how much the cost of a pair of this weight rises where its first end, or its second, turns:
/// while the value of its other end is 0, and while it is 1. The ends have these labels. `FEW` is
/// that of the form, so that a loop over places does not ask for it again.
#[inline]
fn ordered_rises<const FEW: bool>(
    form: &SiteForm,
    first: bool,
    weight: u32,
    own: u8,
    other: u8,
) -> EndRises
    requires way { FEW ≡ form.now.few }
    requires weight { weight ≤ weight_limit }
    requires own { IsSiteLabel form.now.at.now own }
    requires other { IsSiteLabel form.now.at.now other }
    ensures { AreEndRises form.now weight first own other result }
{
    if FEW {
        let rises = unit_rises(form.table, first, own, other);
        return EndRises {
            low: times(weight, rises.low),
            high: times(weight, rises.high),
        };
    }
    EndRises {
        low: end_rise(form, first, weight, own, form.stays[other as usize]),
        high: end_rise(form, first, weight, own, form.turns[other as usize]),
    }
}

/// The same. Where each two labels cost the same in both orders, the first end is read for the
/// second, so that a row of costs is chosen once a site.
#[inline]
pub(crate) fn end_rises<const FEW: bool>(
    form: &SiteForm,
    first: bool,
    weight: u32,
    own: u8,
    other: u8,
) -> EndRises
    requires way { FEW ≡ form.now.few }
    requires weight { weight ≤ weight_limit }
    requires own { IsSiteLabel form.now.at.now own }
    requires other { IsSiteLabel form.now.at.now other }
    ensures { AreEndRises form.now weight first own other result }
{
    if form.symmetric {
        return ordered_rises::<FEW>(form, true, weight, own, other);
    }
    ordered_rises::<FEW>(form, first, weight, own, other)
}
