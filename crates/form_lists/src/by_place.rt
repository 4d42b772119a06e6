//! By how much each pair's cost rises, listed at the places of its two ends: for pairs that have
//! costs of their own.
ghost use Rattle.std.specs.Prelude.{◌≡◌, ◌⊎◌, ◌+◌, ◌<◌, ◌≤◌, ℕ, pos, length, OnOk, unsigned_abs};
ghost use Rattle.cost_store.specs.Limits.{pair_cost_limit};
ghost use Rattle.cost_store.specs.Posed.{IsPosed, IsAsked, WhereMeant};
ghost use Rattle.move_energy.specs.BySite.{AreBySite, neighbours_start};
ghost use Rattle.site_forms.specs.Fields.{rises_in, AreRisesSmall, AreListedRises, AreRisesRead};
ghost use Rattle.site_forms.specs.Fields.{AreRisesOf};
ghost use Rattle.form_lists.specs.Lists.{HasSidesOf};

use crate::by_pair::{PairRises, sides_known};
use cost_store::Problem;
use label_energies::Move;
use move_energy::{EndRises, Neighbours, is_first, pair_beside};
use std::alloc::AllocError;

/// By how much the cost of the pair at a place of a site rises where the site turns, while the
/// neighbour is at 0 and while it is at 1.
fn rises_of_pair<F: Fn(u32, u32) -> i64 + Sync, V: Fn(u32, u32) -> i64 + Sync>(
    sides: &[PairRises],
    problem: &Problem<F, V>,
    ends: &Neighbours,
    at: &[u8],
    change: Move,
    site: u32,
    place: u32,
) -> EndRises
    requires posed { IsPosed F.Fn V.Fn problem.now }
    requires asked { IsAsked problem.now at.now change }
    requires by_site { AreBySite problem.now.pairs ends.now }
    requires sides { HasSidesOf F.Fn V.Fn problem.now at.now change sides.now }
    requires site { site < length at.now }
    requires place { (neighbours_start ends.now site ≤ place)
        × (place < neighbours_start ends.now (site + 1)) }
    ensures rises { WhereMeant F.Fn V.Fn problem.now
        (λ m. AreRisesOf m change ends.now at.now site place result) }
    ensures small { (unsigned_abs result.low ≤ pair_cost_limit)
        × (unsigned_abs result.high ≤ pair_cost_limit) }
{
    problem.pairs.keeps();
    let head = ends.heads[place as usize];
    let first = is_first(ends, site, place as usize, head);
    let pair = pair_beside(&problem.pairs, ends, site, place);
    let known = sides_known(sides, problem, at, change, pair);
    if first { known.first } else { known.second }
}

/// Lists the rises at the places of a site.
fn write_site<F: Fn(u32, u32) -> i64 + Sync, V: Fn(u32, u32) -> i64 + Sync>(
    rises: &mut [EndRises],
    sides: &[PairRises],
    problem: &Problem<F, V>,
    ends: &Neighbours,
    at: &[u8],
    change: Move,
    site: u32,
)
    requires posed { IsPosed F.Fn V.Fn problem.now }
    requires asked { IsAsked problem.now at.now change }
    requires by_site { AreBySite problem.now.pairs ends.now }
    requires sides { HasSidesOf F.Fn V.Fn problem.now at.now change sides.now }
    requires site { site < length at.now }
    requires size { length rises.old ≡ length ends.now.heads.items }
    requires small { AreRisesSmall rises.old }
    ensures size { length rises.new ≡ length rises.old }
    ensures small { AreRisesSmall rises.new }
    ensures here { WhereMeant F.Fn V.Fn problem.now (λ m. (place : ℕ) →
        neighbours_start ends.now site ≤ place → place < neighbours_start ends.now (site + 1) →
        AreRisesOf m change ends.now at.now site place (rises_in rises.new place)) }
    ensures others { (place : ℕ) →
        (place < neighbours_start ends.now site) ⊎ (neighbours_start ends.now (site + 1) ≤ place) →
        rises_in rises.new place ≡ rises_in rises.old place }
{
    for place in ends.starts[site as usize]..ends.starts[site as usize + 1] {
        rises[place as usize] = rises_of_pair(sides, problem, ends, at, change, site, place);
    }
}

/// Lists the rises at the places of all sites.
fn write_sites<F: Fn(u32, u32) -> i64 + Sync, V: Fn(u32, u32) -> i64 + Sync>(
    rises: &mut [EndRises],
    sides: &[PairRises],
    problem: &Problem<F, V>,
    ends: &Neighbours,
    at: &[u8],
    change: Move,
)
    requires posed { IsPosed F.Fn V.Fn problem.now }
    requires asked { IsAsked problem.now at.now change }
    requires by_site { AreBySite problem.now.pairs ends.now }
    requires sides { HasSidesOf F.Fn V.Fn problem.now at.now change sides.now }
    requires listed { AreListedRises ends.now rises.old }
    ensures listed { AreListedRises ends.now rises.new }
    ensures read { WhereMeant F.Fn V.Fn problem.now
        (λ m. AreRisesRead m change ends.now at.now rises.new) }
{
    for site in 0..at.len() {
        write_site(rises, sides, problem, ends, at, change, site as u32);
    }
}

/// Lists rises of 0 for so many places.
fn clear_places(rises: &mut Vec<EndRises>, places: usize) -> Result<(), AllocError>
    ensures count { OnOk result (length rises.new.items ≡ places) }
    ensures zeros { OnOk result ((place : ℕ) →
        rises_in rises.new.items place ≡ record { low = pos 0; high = pos 0 }) }
{
    rises.truncate(0);
    rises.resize(places, EndRises { low: 0, high: 0 })
}

/// Lists at each place of each site by how much the cost of the pair there rises where the site
/// turns, while the neighbour is at 0 and while it is at 1. It takes 8 bytes a place.
pub(crate) fn list_rises<F: Fn(u32, u32) -> i64 + Sync, V: Fn(u32, u32) -> i64 + Sync>(
    rises: &mut Vec<EndRises>,
    sides: &[PairRises],
    problem: &Problem<F, V>,
    ends: &Neighbours,
    at: &[u8],
    change: Move,
) -> Result<(), AllocError>
    requires posed { IsPosed F.Fn V.Fn problem.now }
    requires asked { IsAsked problem.now at.now change }
    requires by_site { AreBySite problem.now.pairs ends.now }
    requires sides { HasSidesOf F.Fn V.Fn problem.now at.now change sides.now }
    ensures listed { OnOk result (AreListedRises ends.now rises.new.items) }
    ensures read { OnOk result (WhereMeant F.Fn V.Fn problem.now
        (λ m. AreRisesRead m change ends.now at.now rises.new.items)) }
{
    clear_places(rises, ends.heads.len())?;
    write_sites(rises.as_mut_slice(), sides, problem, ends, at, change);
    Ok(())
}
