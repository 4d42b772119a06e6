//! The rows of a strip: what its sites weigh by now, what pairs within it save, and its border. All
//! are found in one pass over the neighbours of each site.
ghost use Rattle.std.specs.Prelude.{◌≡◌, ◌<◌, ◌≤◌, ◌+◌, ◌*◌, ◌-◌, ◌-ℤ◌, ◌∷◌, [], ◌&&◌};
ghost use Rattle.std.specs.Prelude.{true, not, pos, map, length, sum, sum_by, All};
ghost use Rattle.std.specs.Prelude.{unsigned_abs, IfOk, OnOk, cond, ◌++◌, ℕ, List};
ghost use Rattle.std.specs.Prelude.{◌≢◌, ◌||◌};
ghost use Rattle.std.specs.Prelude.{slice_index, slice_set};
ghost use Rattle.sums.specs.Sums.{count_if};
ghost use Rattle.compile_cut.specs.Weights.{weights_size};
ghost use Rattle.move_energy.specs.BySite.{degree, neighbour_at, neighbours_start};
ghost use Rattle.move_energy.specs.BySite.{pair_beside as beside_at};
ghost use Rattle.move_energy.specs.Built.{AddsCost};
ghost use Rattle.move_energy.specs.Choices.{choice_at, open_at, open_rank};
ghost use Rattle.move_energy.specs.declared.choice.Choice.TheVariants.{Open};
ghost use Rattle.move_energy.specs.Limits.{surplus_limit, weights_limit};
ghost use Rattle.move_energy.specs.Weights.{pair_surplus as surplus_between};
ghost use Rattle.persistency.specs.Borders.{border_at, is_beyond as beyond_of, not_ones, range_of};
ghost use Rattle.persistency.specs.Borders.{is_inside as inside_of};
ghost use Rattle.site_forms.specs.Numbers.{IsHighRise, WhereRead};
ghost use Rattle.strip_nets.specs.Building.{CanBuild, AreStripSites, IsUntoldFrom, view_by};
ghost use Rattle.strip_nets.specs.Building.{AreStartWeights, AreWeighed};
ghost use Rattle.strip_nets.specs.Building.{ArePlacesOf, IsStripNumbering};
ghost use Rattle.sink_distances.specs.Laying.{AreRowsBegun};
ghost use Rattle.sink_distances.specs.Rows.{arc_ends};
ghost use Rattle.compile_cut.specs.Weights.{source_part};
ghost use Rattle.pseudo_bool.specs.Energies.{entry};
ghost use Rattle.strip_nets.specs.RowForms.{arcs_in, form_in, IsFirstPart, IsLaidTo};
ghost use Rattle.strip_nets.specs.Meeting.{is_met, ends_at, ends_met, strip_ends, IsMet};
ghost use Rattle.strip_nets.specs.Building.{counts_in, unsaved_in, unsaved_at};
ghost use Rattle.strip_nets.specs.Building.{border_of_site, weight_by_now};
ghost use Rattle.strip_nets.specs.Adding.{AreRowsAdded};

use crate::material::{Material, Places, RowForm, StripSites};
use crate::untold::untold_from;
use move_energy::Choice;
use site_forms::{is_first_end, rise_at_all, saving_by};
use std::alloc::AllocError;

/// What a neighbour by itself is to the sites of the strip: at most one of these.
#[derive(Clone, Copy)]
struct Seen {
    /// It was open at the start and is at 1 by now.
    one: bool,
    /// It is open and lies outside the strip.
    beyond: bool,
    /// It is open and lies in the strip.
    inside: bool,
}

/// What a neighbour is to the sites of the strip. It is looked at once.
#[inline]
fn look_at(material: &Material, sites: &StripSites, head: u32) -> Seen
    requires start { head < length material.now.start.now }
    requires known { head < length material.now.known.now }
    ensures one { result.one ≡ beyond_of (choice_at material.now.start.now)
        (not_ones (choice_at material.now.known.now)) head }
    ensures beyond { result.beyond ≡ beyond_of (choice_at material.now.known.now)
        (range_of sites.now.from sites.now.to) head }
    ensures inside { result.inside ≡ inside_of (choice_at material.now.known.now)
        (range_of sites.now.from sites.now.to) head }
{
    match material.known[head as usize] {
        Choice::Zero => Seen {
            one: false,
            beyond: false,
            inside: false,
        },
        Choice::One => Seen {
            one: material.start[head as usize].is_open(),
            beyond: false,
            inside: false,
        },
        Choice::Open => {
            let inside = head >= sites.from && head < sites.to;
            Seen {
                one: false,
                beyond: !inside,
                inside,
            }
        }
    }
}

/// The open site of the strip that is listed at a place.
#[inline]
fn site_at(material: &Material, sites: &StripSites, index: usize) -> u32
    requires can { CanBuild material.now }
    requires opened { AreStripSites material.now sites.now }
    requires index { index < length sites.now.opened.now }
    ensures value { result ≡ slice_index sites.now.opened.now index }
    ensures site { (result < material.now.form.pairs.now.sites)
        × (open_at (view_by sites.now material.now) result ≡ true) }
{
    sites.opened[index]
}

/// The places of the form.
#[inline]
fn places_of<'a>(material: &Material<'a>) -> Places<'a>
    ensures { ArePlacesOf material.now result }
{
    Places {
        starts: material.form.ends.starts.as_slice(),
        heads: material.form.ends.heads.as_slice(),
    }
}

/// Where the neighbours of a site begin, which is where those of the site before it end.
#[inline]
fn row_start(material: &Material, places: &Places, site: u32) -> u32
    requires can { CanBuild material.now }
    requires places { ArePlacesOf material.now places.now }
    requires site { site ≤ material.now.form.pairs.now.sites }
    ensures { result ≡ neighbours_start material.now.form.ends.now site }
{
    places.starts[site as usize]
}

/// The neighbour of a site at a place.
#[inline]
fn head_beside(material: &Material, places: &Places, site: u32, place: u32) -> u32
    requires can { CanBuild material.now }
    requires places { ArePlacesOf material.now places.now }
    requires site { site < material.now.form.pairs.now.sites }
    requires place { (neighbours_start material.now.form.ends.now site ≤ place)
        × (place < neighbours_start material.now.form.ends.now (site + 1)) }
    ensures head { result ≡ neighbour_at material.now.form.ends.now place }
    ensures inside { result < material.now.form.pairs.now.sites }
{
    places.heads[place as usize]
}

/// Whether the pair of a site of the strip and a neighbour is met there: the neighbour is inside,
/// and the site is the first of the two.
#[inline]
fn is_met_at(
    material: &Material,
    sites: &StripSites,
    site: u32,
    place: u32,
    head: u32,
    inside: bool,
) -> bool
    requires can { CanBuild material.now }
    requires site { (site < material.now.form.pairs.now.sites)
        × (open_at (view_by sites.now material.now) site ≡ true) }
    requires place { (neighbours_start material.now.form.ends.now site ≤ place)
        × (place < neighbours_start material.now.form.ends.now (site + 1)) }
    requires head { head ≡ neighbour_at material.now.form.ends.now place }
    requires inside { inside ≡ inside_of (choice_at material.now.known.now)
        (range_of sites.now.from sites.now.to) head }
    ensures { result ≡ is_met material.now sites.now site place }
{
    if !inside {
        return false;
    }
    is_first_end(&material.form, site, place, head)
}

/// How the pair to a neighbour counts at a site of the strip: in at most one of these ways.
#[derive(Clone, Copy)]
struct Beside {
    /// The neighbour was open at the start and is at 1 by now.
    one: bool,
    /// It is open and lies outside the strip.
    beyond: bool,
    /// It is open and lies in the strip, and the pair is met at this site.
    met: bool,
}

/// How the pair to a neighbour counts. A neighbour before the site is not looked at from where on
/// nothing was told since the start: the pair was met there.
#[inline]
fn look_beside(
    material: &Material,
    sites: &StripSites,
    site: u32,
    place: u32,
    head: u32,
    untold: u32,
) -> Beside
    requires can { CanBuild material.now }
    requires site { (site < material.now.form.pairs.now.sites)
        × (open_at (view_by sites.now material.now) site ≡ true) }
    requires place { (neighbours_start material.now.form.ends.now site ≤ place)
        × (place < neighbours_start material.now.form.ends.now (site + 1)) }
    requires head { head ≡ neighbour_at material.now.form.ends.now place }
    requires inside { head < material.now.form.pairs.now.sites }
    requires untold { IsUntoldFrom material.now sites.now untold }
    ensures one { result.one ≡ beyond_of (choice_at material.now.start.now)
        (not_ones (choice_at material.now.known.now)) head }
    ensures beyond { result.beyond ≡ beyond_of (choice_at material.now.known.now)
        (range_of sites.now.from sites.now.to) head }
    ensures met { result.met ≡ is_met material.now sites.now site place }
{
    if head >= untold && head < site {
        return Beside {
            one: false,
            beyond: false,
            met: false,
        };
    }
    let seen = look_at(material, sites, head);
    Beside {
        one: seen.one,
        beyond: seen.beyond,
        met: is_met_at(material, sites, site, place, head, seen.inside),
    }
}

/// Whether the pair to a neighbour counts in any of the three ways.
#[inline]
fn counts_somewhere(beside: Beside) -> bool
    ensures { result ≡ (beside.one || beside.beyond || beside.met) }
{
    beside.one || beside.beyond || beside.met
}

/// What the pair of a site and a neighbour saves where it counts. Where it does not, 0, and nothing
/// is read of it. What is known of the form, and `high`, are those of `saving_by`.
#[inline]
fn counted_saving<const UNIFORM: bool, const EXPANDING: bool>(
    material: &Material,
    site: u32,
    place: u32,
    head: u32,
    high: i32,
    counts: bool,
) -> i64
    requires uniform { UNIFORM ≡ true → material.now.form.uniform ≡ true }
    requires expanding { EXPANDING ≡ true → material.now.form.expanding ≡ true }
    requires high { EXPANDING ≡ true → IsHighRise material.now.form site high }
    requires can { CanBuild material.now }
    requires site { site < material.now.form.pairs.now.sites }
    requires place { (neighbours_start material.now.form.ends.now site ≤ place)
        × (place < neighbours_start material.now.form.ends.now (site + 1)) }
    requires head { head ≡ neighbour_at material.now.form.ends.now place }
    ensures value { WhereRead material.now.form (λ m move f. result
        ≡ pos (count_if counts
        (surplus_between m move f (beside_at material.now.form.ends.now site place)))) }
    ensures range { unsigned_abs result ≤ surplus_limit }
{
    if !counts {
        return 0;
    }
    saving_by::<UNIFORM, EXPANDING>(&material.form, site, place, head, high)
}

/// A number where it counts, and else 0.
#[inline]
fn where_counted(counts: bool, number: i64) -> i64
    ensures value { result ≡ cond counts number (pos 0) }
    ensures range { unsigned_abs result ≤ unsigned_abs number }
{
    if counts { number } else { 0 }
}

/// The node of an open site of the strip. `numbers` has the node of each site of the strip.
#[inline]
fn node_of(material: &Material, sites: &StripSites, numbers: &[u32], site: u32) -> u32
    requires numbering { IsStripNumbering material.now.known.now sites.now numbers.now }
    requires open { choice_at (view_by sites.now material.now) site ≡ Open }
    ensures { result ≡ open_rank (view_by sites.now material.now) site }
{
    numbers[(site - sites.from) as usize]
}

/// The nodes of a pair of the strip.
#[derive(Clone, Copy)]
struct Met {
    first: u32,
    second: u32,
}

/// The nodes of a site, which is this one, and of a neighbour whose pair is met there.
#[inline]
fn met_nodes(
    material: &Material,
    sites: &StripSites,
    numbers: &[u32],
    node: u32,
    site: u32,
    place: u32,
    head: u32,
) -> Met
    requires can { CanBuild material.now }
    requires opened { AreStripSites material.now sites.now }
    requires numbering { IsStripNumbering material.now.known.now sites.now numbers.now }
    requires site { (site < material.now.form.pairs.now.sites)
        × (open_at (view_by sites.now material.now) site ≡ true) }
    requires place { (neighbours_start material.now.form.ends.now site ≤ place)
        × (place < neighbours_start material.now.form.ends.now (site + 1)) }
    requires node { node ≡ open_rank (view_by sites.now material.now) site }
    requires head { head ≡ neighbour_at material.now.form.ends.now place }
    requires met { is_met material.now sites.now site place ≡ true }
    ensures { IsMet material.now sites.now site place result }
{
    Met {
        first: node,
        second: node_of(material, sites, numbers, head),
    }
}

/// How many neighbours a site has.
#[inline]
fn count_neighbours(material: &Material, places: &Places, site: u32) -> u32
    requires can { CanBuild material.now }
    requires places { ArePlacesOf material.now places.now }
    requires site { site < material.now.form.pairs.now.sites }
    ensures { result ≡ degree material.now.form.ends.now site }
{
    row_start(material, places, site + 1) - row_start(material, places, site)
}

/// Begins the row of each listed site, with room for the pairs to all its neighbours. It answers
/// how many places all rows have. No neighbour is looked at: in a strip most of them are open.
pub(crate) fn begin_rows(material: &Material, sites: &StripSites, starts: &mut Vec<u32>) -> u32
    requires can { CanBuild material.now }
    requires opened { AreStripSites material.now sites.now }
    requires count { length starts.old.items ≡ length sites.now.opened.now }
    ensures { AreRowsBegun (length sites.now.opened.now) (strip_ends material.now sites.now)
        starts.new.items result }
{
    // Copies of its own: what is written to the lists cannot change them, so they are read once.
    let material = *material;
    let sites = *sites;
    let places = places_of(&material);
    let mut total = 0u32;
    for index in 0..sites.opened.len() {
        let site = site_at(&material, &sites, index);
        starts[index] = total;
        total += count_neighbours(&material, &places, site);
    }
    total
}

/// Takes an amount off a weight.
#[inline]
fn lessen(weights: &mut [i64], node: u32, amount: u64)
    requires node { node < length weights.old }
    requires small { weights_size weights.old ≤ 400000000000000000 }
    requires amount { amount ≤ surplus_limit }
    ensures { weights.new ≡ slice_set weights.old node (entry weights.old node -ℤ pos amount) }
{
    weights[node as usize] -= amount as i64;
}

/// A surplus above 0, and else 0.
#[inline]
fn amount_above(surplus: i64) -> u64
    requires { unsigned_abs surplus ≤ surplus_limit }
    ensures amount { result ≡ source_part surplus }
    ensures small { result ≤ surplus_limit }
{
    if surplus > 0 {
        surplus.unsigned_abs()
    } else {
        0
    }
}

/// Puts what two nodes save where both are 1, the next of the pairs whose ends were counted.
#[inline]
fn put_saving(form: &mut RowForm, first: u32, second: u32, surplus: i64) -> Result<(), AllocError>
    requires surplus { unsigned_abs surplus ≤ surplus_limit }
    requires apart { first ≢ second }
    requires laid { (n : ℕ) × (ends : List ℕ) × IsLaidTo n ends form.old
        × IsFirstPart (arc_ends (arcs_in form.old) ++ first ∷ second ∷ []) ends
        × (first < n) × (second < n) × (length ends ≤ 16777216) }
    ensures laid { OnOk result ((n : ℕ) (ends : List ℕ) → IsLaidTo n ends form.old →
        IsFirstPart (arc_ends (arcs_in form.old) ++ first ∷ second ∷ []) ends →
        IsLaidTo n ends form.new) }
    ensures ends { OnOk result ((n : ℕ) (ends : List ℕ) → IsLaidTo n ends form.old →
        IsFirstPart (arc_ends (arcs_in form.old) ++ first ∷ second ∷ []) ends →
        arc_ends (arcs_in form.new) ≡ arc_ends (arcs_in form.old) ++ first ∷ second ∷ []) }
    ensures adds { OnOk result ((n : ℕ) (ends : List ℕ) → IsLaidTo n ends form.old →
        IsFirstPart (arc_ends (arcs_in form.old) ++ first ∷ second ∷ []) ends →
        AddsCost (form_in form.old) (form_in form.new)
        (λ x. count_if (not (x first && x second)) (source_part surplus))) }
{
    let amount = amount_above(surplus);
    form.laying.put(first, second, amount)?;
    lessen(form.weights.as_mut_slice(), second, amount);
    Ok(())
}

/// Puts what the pair of a site and a neighbour saves, where it is met there.
#[inline]
fn add_inside(
    material: &Material,
    sites: &StripSites,
    form: &mut RowForm,
    numbers: &[u32],
    node: u32,
    site: u32,
    place: u32,
    head: u32,
    met: bool,
    saving: i64,
) -> Result<(), AllocError>
    requires can { CanBuild material.now }
    requires opened { AreStripSites material.now sites.now }
    requires numbering { IsStripNumbering material.now.known.now sites.now numbers.now }
    requires laid { IsLaidTo (length sites.now.opened.now) (strip_ends material.now sites.now)
        form.old }
    requires begins { IsFirstPart (arc_ends (arcs_in form.old)
        ++ ends_met material.now sites.now site place) (strip_ends material.now sites.now) }
    requires site { (site < material.now.form.pairs.now.sites)
        × (open_at (view_by sites.now material.now) site ≡ true) }
    requires place { (neighbours_start material.now.form.ends.now site ≤ place)
        × (place < neighbours_start material.now.form.ends.now (site + 1)) }
    requires node { node ≡ open_rank (view_by sites.now material.now) site }
    requires head { head ≡ neighbour_at material.now.form.ends.now place }
    requires met { met ≡ is_met material.now sites.now site place }
    requires saving { unsigned_abs saving ≤ surplus_limit }
    ensures laid { OnOk result (IsLaidTo (length sites.now.opened.now)
        (strip_ends material.now sites.now) form.new) }
    ensures ends { OnOk result (arc_ends (arcs_in form.new) ≡ arc_ends (arcs_in form.old)
        ++ ends_met material.now sites.now site place) }
    ensures adds { WhereRead material.now.form (λ m move f.
        cond met saving (pos 0) ≡ pos (count_if met
        (surplus_between m move f (beside_at material.now.form.ends.now site place))) →
        OnOk result (AddsCost (form_in form.old) (form_in form.new)
        (λ x. count_if (counts_in material.now sites.now site place)
        (unsaved_in m move f (view_by sites.now material.now) x
        (beside_at material.now.form.ends.now site place))))) }
{
    if !met {
        return Ok(());
    }
    let nodes = met_nodes(material, sites, numbers, node, site, place, head);
    put_saving(form, nodes.first, nodes.second, saving)
}

/// What the pairs of a site come to that lead to sites outside the strip.
#[derive(Clone, Copy)]
struct SiteBorders {
    /// Those to sites that were open at the start and are at 1 by now.
    ones: i64,
    /// Those to sites that are open.
    beyond: i64,
}

/// The row of a site, in one pass over its neighbours: its borders, and in the form what its pairs
/// to other sites of the strip save.
fn add_row<const UNIFORM: bool, const EXPANDING: bool>(
    material: &Material,
    sites: &StripSites,
    places: &Places,
    form: &mut RowForm,
    numbers: &[u32],
    site: u32,
    untold: u32,
) -> Result<SiteBorders, AllocError>
    requires uniform { UNIFORM ≡ true → material.now.form.uniform ≡ true }
    requires expanding { EXPANDING ≡ true → material.now.form.expanding ≡ true }
    requires can { CanBuild material.now }
    requires places { ArePlacesOf material.now places.now }
    requires opened { AreStripSites material.now sites.now }
    requires numbering { IsStripNumbering material.now.known.now sites.now numbers.now }
    requires laid { IsLaidTo (length sites.now.opened.now) (strip_ends material.now sites.now)
        form.old }
    requires begins { IsFirstPart (arc_ends (arcs_in form.old)
        ++ ends_at material.now sites.now site) (strip_ends material.now sites.now) }
    requires site { (site < material.now.form.pairs.now.sites)
        × (open_at (view_by sites.now material.now) site ≡ true) }
    requires untold { IsUntoldFrom material.now sites.now untold }
    ensures ones { WhereRead material.now.form (λ m move f. IfOk result (λ found.
        found.ones ≡ pos (border_at m move f (choice_at material.now.start.now)
        (not_ones (choice_at material.now.known.now)) site))) }
    ensures beyond { WhereRead material.now.form (λ m move f. IfOk result (λ found.
        found.beyond ≡ pos (border_of_site m move f material.now sites.now site))) }
    ensures range { IfOk result (λ found.
        (unsigned_abs found.ones ≤ surplus_limit * degree material.now.form.ends.now site)
        × (unsigned_abs found.beyond
        ≤ surplus_limit * degree material.now.form.ends.now site)) }
    ensures laid { OnOk result (IsLaidTo (length sites.now.opened.now)
        (strip_ends material.now sites.now) form.new) }
    ensures ends { OnOk result (arc_ends (arcs_in form.new) ≡ arc_ends (arcs_in form.old)
        ++ ends_at material.now sites.now site) }
    ensures adds { WhereRead material.now.form (λ m move f. OnOk result
        (AddsCost (form_in form.old) (form_in form.new)
        (λ x. unsaved_at m move f material.now sites.now x site))) }
{
    let mut ones = 0i64;
    let mut beyond = 0i64;
    let node = node_of(material, sites, numbers, site);
    let high = rise_at_all::<EXPANDING>(&material.form, site);
    for place in row_start(material, places, site)..row_start(material, places, site + 1) {
        let head = head_beside(material, places, site, place);
        let beside = look_beside(material, sites, site, place, head, untold);
        let met = beside.met;
        let counts = counts_somewhere(beside);
        let saving = counted_saving::<UNIFORM, EXPANDING>(
            material, site, place, head, high, counts,
        );
        ones += where_counted(beside.one, saving);
        beyond += where_counted(beside.beyond, saving);
        add_inside(
            material, sites, form, numbers, node, site, place, head, met, saving,
        )?;
    }
    Ok(SiteBorders { ones, beyond })
}

/// The rows of all listed sites: the weights of the sites by now and their borders in lists, and in
/// the form what pairs of two of them save.
fn add_rows_by<const UNIFORM: bool, const EXPANDING: bool>(
    material: &Material,
    sites: &StripSites,
    form: &mut RowForm,
    numbers: &[u32],
    list: &mut Vec<i64>,
    borders: &mut Vec<u64>,
) -> Result<(), AllocError>
    requires uniform { UNIFORM ≡ true → material.now.form.uniform ≡ true }
    requires expanding { EXPANDING ≡ true → material.now.form.expanding ≡ true }
    requires can { CanBuild material.now }
    requires opened { AreStripSites material.now sites.now }
    requires weighed { AreWeighed sites.now }
    requires numbering { IsStripNumbering material.now.known.now sites.now numbers.now }
    requires laid { IsLaidTo (length sites.now.opened.now) (strip_ends material.now sites.now)
        form.old }
    requires none { arc_ends (arcs_in form.old) ≡ [] }
    ensures { OnOk result (AreRowsAdded material.now sites.now form.old form.new list.new.items
        borders.new.items) }
{
    list.clear();
    borders.clear();
    list.reserve(sites.opened.len())?;
    borders.reserve(sites.opened.len())?;
    // Copies of its own: what is written to the lists cannot change them, so they are read once.
    let material = *material;
    let sites = *sites;
    let places = places_of(&material);
    let untold = untold_from(&material, &sites);
    for index in 0..sites.opened.len() {
        let site = site_at(&material, &sites, index);
        let found = add_row::<UNIFORM, EXPANDING>(
            &material, &sites, &places, form, numbers, site, untold,
        )?;
        list.push_reserved(sites.weights[index] - found.ones);
        borders.push_reserved(found.beyond.unsigned_abs());
    }
    Ok(())
}

/// The same, in the way of the form: what it says of all places is asked once.
pub(crate) fn add_rows(
    material: &Material,
    sites: &StripSites,
    form: &mut RowForm,
    numbers: &[u32],
    list: &mut Vec<i64>,
    borders: &mut Vec<u64>,
) -> Result<(), AllocError>
    requires can { CanBuild material.now }
    requires opened { AreStripSites material.now sites.now }
    requires weighed { AreWeighed sites.now }
    requires numbering { IsStripNumbering material.now.known.now sites.now numbers.now }
    requires laid { IsLaidTo (length sites.now.opened.now) (strip_ends material.now sites.now)
        form.old }
    requires none { arc_ends (arcs_in form.old) ≡ [] }
    ensures { OnOk result (AreRowsAdded material.now sites.now form.old form.new list.new.items
        borders.new.items) }
{
    if material.form.uniform {
        return add_rows_by::<true, false>(material, sites, form, numbers, list, borders);
    }
    if material.form.expanding {
        return add_rows_by::<false, true>(material, sites, form, numbers, list, borders);
    }
    add_rows_by::<false, false>(material, sites, form, numbers, list, borders)
}
