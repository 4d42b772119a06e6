//! The door: the costs of a move, read once into lists.
ghost use Rattle.std.specs.Prelude.{◌≡◌, ◌⊎◌, ◌<◌, ◌≤◌, ℕ, length, slice_index, OnOk};
ghost use Rattle.std.specs.Prelude.{true, false, unsigned_abs, Bool, ◌+◌, ◌*◌, pos, [], All, List};
ghost use Rattle.label_field.specs.Limits.{label_limit, weight_limit};
ghost use Rattle.label_energies.specs.Energies.{labelling, Instance};
ghost use Rattle.label_energies.specs.Moves.{IsMoveOf, IsSwap, label_after, IsAllowed};
ghost use Rattle.label_energies.specs.declared.change.Move.TheVariants.{Expand};
ghost use Rattle.label_energies.specs.declared.change.Move.{Move as AnyMove};
ghost use Rattle.cost_store.specs.Limits.{site_cost_limit};
ghost use Rattle.cost_store.specs.Posed.{IsPosed, IsAsked, WhereMeant};
ghost use Rattle.move_energy.specs.BySite.{AreBySite};
ghost use Rattle.move_energy.specs.MoveValues.{data_rise as data_rise_of};
ghost use Rattle.move_energy.specs.Rising.{table_labels, entry_place};
ghost use Rattle.form_lists.specs.OwnRises.{IsOff};
ghost use Rattle.site_forms.specs.Fields.{own_at, unit_rise, AreUnitRises, rises_in};
ghost use Rattle.site_forms.specs.Fields.{unit_rises_at, HaveRowsOf};
ghost use Rattle.form_lists.specs.Lists.{AreFormLists, IsReadOf, KnowsCosts, HasNoCosts};
ghost use Rattle.form_lists.specs.Lists.{AreCostsSmall, AreRisesNear, IsReadNear, CoversChanges};
ghost use Rattle.form_lists.specs.Lists.{HasCostRoom, AreMadeAsked, AreMoveLabels, ArePairLists};
ghost use Rattle.form_lists.specs.Lists.{ArePairsRead, HasTermsOf, KeepsPairLists, IsToldAsSaid};
ghost use Rattle.move_energy.specs.Terms.{AreTermsTested};
ghost use Rattle.label_field.specs.PairLists.{PairList};
ghost use Rattle.move_energy.specs.declared.by_site.Neighbours.{Neighbours as NeighbourLists};
ghost use Rattle.site_forms.specs.Numbers.{IsFormOf, IsOverPairs};

use crate::by_pair::{PairRises, list_sides, test_sides};
use crate::by_place::list_rises;
use crate::own_rises::OwnRises;
use crate::smooth_costs::AskedCosts;
use crate::told_rows::write_told_rows;
use cost_store::Problem;
use label_energies::Move;
use label_field::{Pairs, WEIGHT_LIMIT};
use move_energy::{BuildError, EndRises, Neighbours, data_rise};
use site_forms::{SiteForm, ToldRises, place_in_table, smooth_of};
use std::alloc::{AllocError, Global};

/// The most labels of which a move has a table of rises.
const TABLE_LABELS: u32 = 64;

/// How many rises stand in a table: one for each label of a first end and of a second end, and for
/// each label of its neighbour.
const ENTRIES: usize = 8192;

/// The lists of a form. They keep their memory from move to move: 4 to 8 bytes a site, 512 a label,
/// and where there are at most 64 labels 64 KB and 2 KB a label. They keep the smooth costs too, so
/// that a run asks each two labels once. Where each pair has costs of its own, they take 32 bytes a
/// pair.
#[derive(Drop)]
pub struct FormLists {
    own: OwnRises,
    stays: Vec<u8>,
    turns: Vec<u8>,
    smooth: AskedCosts,
    few: bool,
    table: Vec<EndRises>,
    /// Whether there are few labels, all weights are the same, and all costs in both orders.
    uniform: bool,
    /// Whether all but the weights is so.
    scaled: bool,
    told: Vec<ToldRises>,
    /// Whether the move is an expansion of `alpha` with more labels, all weights the same, and all
    /// costs in both orders.
    expanding: bool,
    alpha: u8,
    /// Whether the rises of pairs are listed by pair and by place, since each pair has costs of its
    /// own.
    listed: bool,
    sides: Vec<PairRises>,
    rises: Vec<EndRises>,
}

/// Whether a move over so many sites has a table of rises: where there are few labels for it, and
/// its rises are fewer than the sites.
fn has_table(labels: u32, sites: usize) -> bool
    requires { labels ≤ label_limit }
    ensures { result ≡ true → labels ≤ table_labels }
{
    labels <= TABLE_LABELS && (2 * labels * labels) as usize <= sites
}

/// Whether pairs of the same weight by these neighbours have a table of rises by what is known.
fn are_uniform(few: bool, symmetric: bool, ends: &Neighbours) -> bool
    ensures few { result ≡ true → few ≡ true }
    ensures mirrored { result ≡ true → symmetric ≡ true }
    ensures even { result ≡ true → ends.now.even ≡ true }
    ensures light { result ≡ true → ends.now.weight ≤ weight_limit }
{
    few && symmetric && ends.even && ends.weight <= WEIGHT_LIMIT
}

/// Whether pairs of weights that differ have one, which is that of a pair of weight 1.
fn are_scaled(few: bool, symmetric: bool, ends: &Neighbours) -> bool
    ensures few { result ≡ true → few ≡ true }
    ensures mirrored { result ≡ true → symmetric ≡ true }
    ensures differ { result ≡ true → ends.now.even ≡ false }
{
    few && symmetric && !ends.even
}

/// Whether one of the two is so.
fn is_either(uniform: bool, scaled: bool) -> bool
    ensures one { result ≡ true → uniform ≡ false → scaled ≡ true }
    ensures none { result ≡ false → (uniform ≡ false) × (scaled ≡ false) }
{
    uniform | scaled
}

/// The weight of the pairs whose rises by what is known a table has.
fn told_weight(uniform: bool, ends: &Neighbours) -> u32
    requires { uniform ≡ true → ends.now.weight ≤ weight_limit }
    ensures even { uniform ≡ true → result ≡ ends.now.weight }
    ensures unit { uniform ≡ false → result ≡ 1 }
    ensures light { result ≤ weight_limit }
{
    if uniform { ends.weight } else { 1 }
}

/// Whether a move gives sites one label or leaves them theirs, while pairs have no table, the same
/// weight by these neighbours, and costs the same in both orders.
fn is_expanding(change: Move, few: bool, symmetric: bool, ends: &Neighbours) -> bool
    ensures expands { result ≡ true → IsSwap change → ⊥ }
    ensures many { result ≡ true → few ≡ false }
    ensures mirrored { result ≡ true → symmetric ≡ true }
    ensures even { result ≡ true → ends.now.even ≡ true }
    ensures light { result ≡ true → ends.now.weight ≤ weight_limit }
{
    match change {
        Move::Expand(_) => !few && symmetric && ends.even && ends.weight <= WEIGHT_LIMIT,
        Move::Swap(_, _) => false,
    }
}

/// The first label of a move: of an expansion its own.
fn first_label(change: Move) -> u8
    requires { IsMoveOf label_limit change }
    ensures { (a : ℕ) → change ≡ Expand a → result ≡ a }
{
    match change {
        Move::Expand(alpha) => alpha as u8,
        Move::Swap(alpha, _) => alpha as u8,
    }
}

/// Begins a list of a label for each label: 0 for all.
fn begin_labels(list: &mut Vec<u8>) -> Result<(), AllocError>
    ensures count { OnOk result (length list.new.items ≡ label_limit) }
    ensures none { OnOk result ((old : ℕ) → slice_index list.new.items old ≡ 0) }
{
    list.clear();
    list.resize(256, 0)
}

/// Lists what each of so many labels becomes by a move, where the site's value is this bit.
fn list_labels(list: &mut Vec<u8>, change: Move, bit: bool, labels: u32) -> Result<(), AllocError>
    requires change { IsMoveOf labels change }
    requires few { labels ≤ label_limit }
    ensures count { OnOk result (length list.new.items ≡ label_limit) }
    ensures each { OnOk result ((old : ℕ) → old < labels →
        slice_index list.new.items old ≡ label_after change old bit) }
    ensures below { OnOk result ((old : ℕ) → slice_index list.new.items old < labels) }
{
    begin_labels(list)?;
    for label in 0..labels {
        list[label as usize] = change.label(label, bit) as u8;
    }
    Ok(())
}

/// By how much a pair of weight 1 rises whose first end, or its second, has the one label and
/// turns, while its other end has a label.
fn unit_rise_of(stays: &[u8], turns: &[u8], smooth: &[u16], first: bool, own: u8, other: u8) -> i32
    requires stays { length stays.now ≡ label_limit }
    requires turns { length turns.now ≡ label_limit }
    requires rows { HaveRowsOf stays.now smooth.now × HaveRowsOf turns.now smooth.now }
    requires small { AreCostsSmall smooth.now }
    requires row { other * label_limit + label_limit ≤ length smooth.now }
    ensures { result ≡ unit_rise stays.now turns.now smooth.now first own other }
{
    i32::from(smooth_of(smooth, first, turns[own as usize], other))
        - i32::from(smooth_of(smooth, first, stays[own as usize], other))
}

/// The rises of a pair of weight 1, by the labels of its ends.
fn unit_rises_of(
    stays: &[u8],
    turns: &[u8],
    smooth: &[u16],
    first: bool,
    own: u8,
    other: u8,
) -> EndRises
    requires stays { length stays.now ≡ label_limit }
    requires turns { length turns.now ≡ label_limit }
    requires rows { HaveRowsOf stays.now smooth.now × HaveRowsOf turns.now smooth.now }
    requires small { AreCostsSmall smooth.now }
    ensures { AreUnitRises stays.now turns.now smooth.now first own other result }
{
    let stayed = stays[other as usize];
    let turned = turns[other as usize];
    EndRises {
        low: unit_rise_of(stays, turns, smooth, first, own, stayed),
        high: unit_rise_of(stays, turns, smooth, first, own, turned),
    }
}

/// The same, none where the move leaves sites of the one label theirs, as a swap does of nearly all
/// labels.
fn rises_unless(
    still: bool,
    stays: &[u8],
    turns: &[u8],
    smooth: &[u16],
    first: bool,
    own: u8,
    other: u8,
) -> EndRises
    requires stays { length stays.now ≡ label_limit }
    requires turns { length turns.now ≡ label_limit }
    requires rows { HaveRowsOf stays.now smooth.now × HaveRowsOf turns.now smooth.now }
    requires small { AreCostsSmall smooth.now }
    requires still { still ≡ true → slice_index turns.now own ≡ slice_index stays.now own }
    ensures { AreUnitRises stays.now turns.now smooth.now first own other result }
{
    if still {
        return EndRises { low: 0, high: 0 };
    }
    unit_rises_of(stays, turns, smooth, first, own, other)
}

/// Writes the rises of the ends of one label, the first ends or the second ones, beside so many
/// labels.
fn write_row(
    table: &mut [EndRises],
    stays: &[u8],
    turns: &[u8],
    smooth: &[u16],
    first: bool,
    own: u8,
    labels: u32,
)
    requires stays { length stays.now ≡ label_limit }
    requires turns { length turns.now ≡ label_limit }
    requires rows { HaveRowsOf stays.now smooth.now × HaveRowsOf turns.now smooth.now }
    requires small { AreCostsSmall smooth.now }
    requires few { (own < labels) × (labels ≤ table_labels) }
    requires table { length table.old ≡ 8192 }
    ensures rises { (other : ℕ) → other < labels →
        AreUnitRises stays.now turns.now smooth.now first own other
        (unit_rises_at table.new first own other) }
    ensures others { (k : ℕ) → (k < entry_place first own 0) ⊎ (entry_place first own 64 ≤ k) →
        rises_in table.new k ≡ rises_in table.old k }
{
    let still = turns[own as usize] == stays[own as usize];
    for other in 0..labels {
        let rises = rises_unless(still, stays, turns, smooth, first, own, other as u8);
        table[place_in_table(first, own, other as u8)] = rises;
    }
}

/// Writes the rises of pairs of weight 1 by the labels of their ends, of which there are so many.
fn write_rises(table: &mut [EndRises], stays: &[u8], turns: &[u8], smooth: &[u16], labels: u32)
    requires stays { length stays.now ≡ label_limit }
    requires turns { length turns.now ≡ label_limit }
    requires rows { HaveRowsOf stays.now smooth.now × HaveRowsOf turns.now smooth.now }
    requires small { AreCostsSmall smooth.now }
    requires few { labels ≤ table_labels }
    requires table { length table.old ≡ 8192 }
    ensures { (first : Bool) (own other : ℕ) → own < labels → other < labels →
        AreUnitRises stays.now turns.now smooth.now first own other
        (unit_rises_at table.new first own other) }
{
    for own in 0..labels {
        write_row(table, stays, turns, smooth, true, own as u8, labels);
        write_row(table, stays, turns, smooth, false, own as u8, labels);
    }
}

/// How much more the label costs a site where its value turns from 0 to 1, in four bytes.
fn own_rise<F: Fn(u32, u32) -> i64 + Sync, V: Fn(u32, u32) -> i64 + Sync>(
    problem: &Problem<F, V>,
    at: &[u8],
    change: Move,
    site: u32,
) -> i32
    requires posed { IsPosed F.Fn V.Fn problem.now }
    requires asked { IsAsked problem.now at.now change }
    requires site { site < length at.now }
    ensures rise { WhereMeant F.Fn V.Fn problem.now
        (λ m. result ≡ data_rise_of m change (labelling at.now) site) }
    ensures range { unsigned_abs result ≤ site_cost_limit }
{
    data_rise(problem, change, site, u32::from(at[site as usize])) as i32
}

/// Writes how much more the label costs each site where its value turns from 0 to 1.
fn write_own_rises<F: Fn(u32, u32) -> i64 + Sync, V: Fn(u32, u32) -> i64 + Sync>(
    own: &mut [i32],
    problem: &Problem<F, V>,
    at: &[u8],
    change: Move,
)
    requires posed { IsPosed F.Fn V.Fn problem.now }
    requires asked { IsAsked problem.now at.now change }
    requires count { length own.old ≡ length at.now }
    ensures count { length own.new ≡ length at.now }
    ensures small { (u : ℕ) → unsigned_abs (own_at own.new u) ≤ site_cost_limit }
    ensures rises { WhereMeant F.Fn V.Fn problem.now (λ m. (u : ℕ) → u < length at.now →
        own_at own.new u ≡ data_rise_of m change (labelling at.now) u) }
{
    for site in 0..at.len() {
        own[site] = own_rise(problem, at, change, site as u32);
    }
}

/// Lists how much more the label costs each site where its value turns from 0 to 1.
fn list_own_rises<F: Fn(u32, u32) -> i64 + Sync, V: Fn(u32, u32) -> i64 + Sync>(
    own: &mut Vec<i32>,
    problem: &Problem<F, V>,
    at: &[u8],
    change: Move,
) -> Result<(), AllocError>
    requires posed { IsPosed F.Fn V.Fn problem.now }
    requires asked { IsAsked problem.now at.now change }
    ensures count { OnOk result (length own.new.items ≡ length at.now) }
    ensures small { OnOk result ((u : ℕ) → unsigned_abs (own_at own.new.items u)
        ≤ site_cost_limit) }
    ensures rises { OnOk result
        (WhereMeant F.Fn V.Fn problem.now (λ m. (u : ℕ) → u < length at.now →
        own_at own.new.items u ≡ data_rise_of m change (labelling at.now) u)) }
{
    own.resize(at.len(), 0)?;
    write_own_rises(own.as_mut_slice(), problem, at, change);
    Ok(())
}

/// Lists how much more the label costs each of these sites where its value turns from 0 to 1.
fn add_own_rises<F: Fn(u32, u32) -> i64 + Sync, V: Fn(u32, u32) -> i64 + Sync>(
    own: &mut [i32],
    problem: &Problem<F, V>,
    at: &[u8],
    change: Move,
    sites: &[u32],
)
    requires posed { IsPosed F.Fn V.Fn problem.now }
    requires asked { IsAsked problem.now at.now change }
    requires count { length own.old ≡ length at.now }
    requires small { (u : ℕ) → unsigned_abs (own_at own.old u) ≤ site_cost_limit }
    requires inside { All (λ p. p < length at.now) sites.now }
    ensures count { length own.new ≡ length at.now }
    ensures small { (u : ℕ) → unsigned_abs (own_at own.new u) ≤ site_cost_limit }
    ensures others { (u : ℕ) → IsOff sites.now u → own_at own.new u ≡ own_at own.old u }
    ensures rises { WhereMeant F.Fn V.Fn problem.now
        (λ m. AreRisesNear m change at.now own.old [] →
        AreRisesNear m change at.now own.new sites.now) }
{
    for place in 0..sites.len() {
        let site = sites[place];
        own[site as usize] = own_rise(problem, at, change, site);
    }
}

impl FormLists {
    /// Of no move. It takes no memory.
    pub fn empty(alloc: Global) -> FormLists
        ensures { HasNoCosts result }
    {
        FormLists {
            own: OwnRises::empty(alloc),
            stays: Vec::new(alloc),
            turns: Vec::new(alloc),
            smooth: AskedCosts::empty(alloc),
            few: false,
            table: Vec::new(alloc),
            uniform: false,
            scaled: false,
            told: Vec::new(alloc),
            expanding: false,
            alpha: 0,
            listed: false,
            sides: Vec::new(alloc),
            rises: Vec::new(alloc),
        }
    }

    /// Makes the table of a move over so many sites, where it has one.
    fn make_table(&mut self, labels: u32, sites: usize) -> Result<(), AllocError>
        requires few { labels ≤ label_limit }
        requires stays { length self.old.stays.items ≡ label_limit }
        requires turns { length self.old.turns.items ≡ label_limit }
        requires rows { HaveRowsOf self.old.stays.items self.old.smooth.costs.items
            × HaveRowsOf self.old.turns.items self.old.smooth.costs.items }
        requires small { AreCostsSmall self.old.smooth.costs.items }
        ensures same { (self.new.stays ≡ self.old.stays) × (self.new.turns ≡ self.old.turns)
            × (self.new.smooth ≡ self.old.smooth) × (self.new.listed ≡ self.old.listed) }
        ensures few { self.new.few ≡ true → labels ≤ table_labels }
        ensures count { OnOk result (self.new.few ≡ true → length self.new.table.items ≡ 8192) }
        ensures rises { OnOk result (self.new.few ≡ true → (first : Bool) (own other : ℕ) →
            own < labels → other < labels →
            AreUnitRises self.new.stays.items self.new.turns.items self.new.smooth.costs.items
            first own other (unit_rises_at self.new.table.items first own other)) }
    {
        self.few = has_table(labels, sites);
        if !self.few {
            return Ok(());
        }
        self.table.resize(ENTRIES, EndRises { low: 0, high: 0 })?;
        write_rises(
            self.table.as_mut_slice(),
            &self.stays,
            &self.turns,
            &self.smooth.costs,
            labels,
        );
        Ok(())
    }

    /// Makes the table of rises by what is known, where pairs by these neighbours have one, or one
    /// of a pair of weight 1.
    fn tell_rises(&mut self, ends: &Neighbours, labels: u32) -> Result<(), AllocError>
        requires small { AreCostsSmall self.old.smooth.costs.items }
        requires few { self.old.few ≡ true → labels ≤ table_labels }
        requires table { self.old.few ≡ true → length self.old.table.items ≡ 8192 }
        requires rises { self.old.few ≡ true → (first : Bool) (own other : ℕ) →
            own < labels → other < labels →
            AreUnitRises self.old.stays.items self.old.turns.items self.old.smooth.costs.items
            first own other (unit_rises_at self.old.table.items first own other) }
        ensures same { KeepsPairLists self.old self.new }
        ensures told { OnOk result (IsToldAsSaid labels ends.now self.new) }
    {
        self.uniform = are_uniform(self.few, self.smooth.symmetric, ends);
        self.scaled = are_scaled(self.few, self.smooth.symmetric, ends);
        if !is_either(self.uniform, self.scaled) {
            return Ok(());
        }
        let blank = ToldRises {
            least: 0,
            greatest: 0,
        };
        self.told.resize(labels as usize * 256, blank)?;
        let weight = told_weight(self.uniform, ends);
        write_told_rows(self.told.as_mut_slice(), &self.table, weight, labels);
        Ok(())
    }

    /// Makes the tables of a move over so many sites and these neighbours, those that it has.
    fn make_tables(
        &mut self,
        ends: &Neighbours,
        labels: u32,
        sites: usize,
    ) -> Result<(), AllocError>
        requires few { labels ≤ label_limit }
        requires stays { length self.old.stays.items ≡ label_limit }
        requires turns { length self.old.turns.items ≡ label_limit }
        requires rows { HaveRowsOf self.old.stays.items self.old.smooth.costs.items
            × HaveRowsOf self.old.turns.items self.old.smooth.costs.items }
        requires small { AreCostsSmall self.old.smooth.costs.items }
        ensures same { (self.new.stays ≡ self.old.stays) × (self.new.turns ≡ self.old.turns)
            × (self.new.smooth ≡ self.old.smooth) × (self.new.listed ≡ self.old.listed) }
        ensures few { self.new.few ≡ true → labels ≤ table_labels }
        ensures count { OnOk result (self.new.few ≡ true → length self.new.table.items ≡ 8192) }
        ensures rises { OnOk result (self.new.few ≡ true → (first : Bool) (own other : ℕ) →
            own < labels → other < labels →
            AreUnitRises self.new.stays.items self.new.turns.items self.new.smooth.costs.items
            first own other (unit_rises_at self.new.table.items first own other)) }
        ensures told { OnOk result (IsToldAsSaid labels ends.now self.new) }
    {
        self.make_table(labels, sites)?;
        self.tell_rises(ends, labels)
    }

    /// Lists what the labels of a move become, and makes room for its pairs' costs.
    fn begin_pairs<F: Fn(u32, u32) -> i64 + Sync, V: Fn(u32, u32) -> i64 + Sync>(
        &mut self,
        problem: &Problem<F, V>,
        at: &[u8],
        change: Move,
    ) -> Result<(), AllocError>
        requires posed { IsPosed F.Fn V.Fn problem.now }
        requires asked { IsAsked problem.now at.now change }
        requires few { problem.now.data_cost.labels ≤ label_limit }
        requires known { KnowsCosts F.Fn V.Fn problem.now self.old }
        ensures known { KnowsCosts F.Fn V.Fn problem.now self.new }
        ensures room { OnOk result (HasCostRoom problem.now.data_cost.labels self.new.smooth) }
        ensures made { OnOk result
            (problem.now.pairs.numbered ≡ false → AreMadeAsked change at.now self.new.smooth) }
        ensures labels { OnOk result
            (AreMoveLabels problem.now.data_cost.labels change self.new) }
    {
        let labels = problem.data_cost.labels;
        if problem.pairs.are_numbered() {
            self.smooth.make_room(problem)?;
        } else {
            self.smooth.ask_all(problem, at, change)?;
        }
        list_labels(&mut self.stays, change, false, labels)?;
        list_labels(&mut self.turns, change, true, labels)
    }

    /// Reads what the labels of a move become, and what pairs cost in it: what each two labels in
    /// use cost a pair of weight 1, where two that an earlier move asked are not asked again; or
    /// what each pair rises by, where each has costs of its own.
    fn read_pairs<F: Fn(u32, u32) -> i64 + Sync, V: Fn(u32, u32) -> i64 + Sync>(
        &mut self,
        problem: &Problem<F, V>,
        ends: &Neighbours,
        at: &[u8],
        change: Move,
    ) -> Result<(), AllocError>
        requires posed { IsPosed F.Fn V.Fn problem.now }
        requires asked { IsAsked problem.now at.now change }
        requires by_site { AreBySite problem.now.pairs ends.now }
        requires few { problem.now.data_cost.labels ≤ label_limit }
        requires known { KnowsCosts F.Fn V.Fn problem.now self.old }
        ensures known { KnowsCosts F.Fn V.Fn problem.now self.new }
        ensures lists { OnOk result (ArePairLists problem.now.pairs ends.now at.now self.new) }
        ensures read { OnOk result (WhereMeant F.Fn V.Fn problem.now
            (λ m. ArePairsRead m change ends.now at.now self.new)) }
        ensures terms { OnOk result (WhereMeant F.Fn V.Fn problem.now
            (λ m. HasTermsOf m change at.now self.new)) }
    {
        self.begin_pairs(problem, at, change)?;
        self.listed = problem.pairs.are_numbered();
        if self.listed {
            self.few = false;
            self.uniform = false;
            self.scaled = false;
            self.expanding = false;
            list_sides(&mut self.sides, problem, at, change)?;
            return list_rises(&mut self.rises, &self.sides, problem, ends, at, change);
        }
        self.make_tables(ends, problem.data_cost.labels, at.len())?;
        self.expanding = is_expanding(change, self.few, self.smooth.symmetric, ends);
        self.alpha = first_label(change);
        Ok(())
    }

    /// Reads the costs of a move from these labels: of each site how much more the move's label
    /// costs it, and what pairs cost. It refuses only where memory runs out.
    pub fn read<F: Fn(u32, u32) -> i64 + Sync, V: Fn(u32, u32) -> i64 + Sync>(
        &mut self,
        problem: &Problem<F, V>,
        ends: &Neighbours,
        at: &[u8],
        change: Move,
    ) -> Result<(), AllocError>
        requires posed { IsPosed F.Fn V.Fn problem.now }
        requires asked { IsAsked problem.now at.now change }
        requires by_site { AreBySite problem.now.pairs ends.now }
        requires few { problem.now.data_cost.labels ≤ label_limit }
        requires known { KnowsCosts F.Fn V.Fn problem.now self.old }
        ensures known { KnowsCosts F.Fn V.Fn problem.now self.new }
        ensures lists { OnOk result (AreFormLists problem.now.pairs ends.now at.now self.new) }
        ensures read { OnOk result (WhereMeant F.Fn V.Fn problem.now
            (λ m. IsReadOf m change ends.now at.now self.new)) }
        ensures terms { OnOk result (WhereMeant F.Fn V.Fn problem.now
            (λ m. HasTermsOf m change at.now self.new)) }
    {
        self.read_pairs(problem, ends, at, change)?;
        self.own.cleared = false;
        list_own_rises(&mut self.own.rises, problem, at, change)
    }

    /// Reads the costs of a move from these labels but for what labels cost sites, which
    /// `read_sites` reads. It refuses only where memory runs out.
    pub fn begin<F: Fn(u32, u32) -> i64 + Sync, V: Fn(u32, u32) -> i64 + Sync>(
        &mut self,
        problem: &Problem<F, V>,
        ends: &Neighbours,
        at: &[u8],
        change: Move,
    ) -> Result<(), AllocError>
        requires posed { IsPosed F.Fn V.Fn problem.now }
        requires asked { IsAsked problem.now at.now change }
        requires by_site { AreBySite problem.now.pairs ends.now }
        requires few { problem.now.data_cost.labels ≤ label_limit }
        requires known { KnowsCosts F.Fn V.Fn problem.now self.old }
        ensures known { KnowsCosts F.Fn V.Fn problem.now self.new }
        ensures lists { OnOk result (AreFormLists problem.now.pairs ends.now at.now self.new) }
        ensures read { OnOk result (WhereMeant F.Fn V.Fn problem.now
            (λ m. IsReadNear m change ends.now at.now self.new [])) }
        ensures terms { OnOk result (WhereMeant F.Fn V.Fn problem.now
            (λ m. HasTermsOf m change at.now self.new)) }
    {
        self.read_pairs(problem, ends, at, change)?;
        self.own.clear(at.len())
    }

    /// Reads how much more the move's label costs each of these sites.
    pub fn read_sites<F: Fn(u32, u32) -> i64 + Sync, V: Fn(u32, u32) -> i64 + Sync>(
        &mut self,
        problem: &Problem<F, V>,
        at: &[u8],
        change: Move,
        sites: &[u32],
    )
        requires posed { IsPosed F.Fn V.Fn problem.now }
        requires asked { IsAsked problem.now at.now change }
        requires count { length self.old.own.rises.items ≡ length at.now }
        requires small { (u : ℕ) → unsigned_abs (own_at self.old.own.rises.items u)
            ≤ site_cost_limit }
        requires inside { All (λ p. p < length at.now) sites.now }
        ensures smooth { self.new.smooth ≡ self.old.smooth }
        ensures sides { (self.new.sides ≡ self.old.sides) × (self.new.listed ≡ self.old.listed) }
        ensures lists { (pairs : PairList) (ends : NeighbourLists) →
            AreFormLists pairs ends at.now self.old → AreFormLists pairs ends at.now self.new }
        ensures read { WhereMeant F.Fn V.Fn problem.now (λ m. (ends : NeighbourLists) →
            IsReadNear m change ends at.now self.old [] →
            IsReadNear m change ends at.now self.new sites.now) }
    {
        self.own.note(sites);
        add_own_rises(self.own.rises.as_mut_slice(), problem, at, change, sites);
    }

    /// Reads the costs of a move from these labels, where each site that it can change is among
    /// these: no other is looked at. It refuses only where memory runs out.
    pub fn read_among<F: Fn(u32, u32) -> i64 + Sync, V: Fn(u32, u32) -> i64 + Sync>(
        &mut self,
        problem: &Problem<F, V>,
        ends: &Neighbours,
        at: &[u8],
        change: Move,
        sites: &[u32],
    ) -> Result<(), AllocError>
        requires posed { IsPosed F.Fn V.Fn problem.now }
        requires asked { IsAsked problem.now at.now change }
        requires by_site { AreBySite problem.now.pairs ends.now }
        requires few { problem.now.data_cost.labels ≤ label_limit }
        requires known { KnowsCosts F.Fn V.Fn problem.now self.old }
        requires covers { CoversChanges change at.now sites.now }
        ensures known { KnowsCosts F.Fn V.Fn problem.now self.new }
        ensures lists { OnOk result (AreFormLists problem.now.pairs ends.now at.now self.new) }
        ensures read { OnOk result (WhereMeant F.Fn V.Fn problem.now
            (λ m. IsReadOf m change ends.now at.now self.new)) }
        ensures terms { OnOk result (WhereMeant F.Fn V.Fn problem.now
            (λ m. HasTermsOf m change at.now self.new)) }
    {
        self.begin(problem, ends, at, change)?;
        self.read_sites(problem, at, change, sites);
        Ok(())
    }

    /// Tests the term of each pair, where the pairs' costs are their own, and refuses the first
    /// that is not regular. It asks for no cost.
    pub fn test_terms(&self) -> Result<(), BuildError>
        ensures { (m : Instance) (move : AnyMove) (at : List ℕ) → self.now.listed ≡ true →
            HasTermsOf m move at self.now → AreTermsTested m move (labelling at) result }
    {
        test_sides(&self.sides)
    }

    /// The form that the lists tell, of these labels and of the neighbours by these pairs.
    pub fn form<'a>(&'a self, pairs: &'a Pairs, ends: &'a Neighbours, at: &'a [u8]) -> SiteForm<'a>
        requires lists { AreFormLists pairs.now ends.now at.now self.now }
        requires sites { length at.now ≡ pairs.now.sites }
        requires by_site { AreBySite pairs.now ends.now }
        ensures at { result.at.now ≡ at.now }
        ensures pairs { result.pairs.now ≡ pairs.now }
        ensures ends { result.ends.now ≡ ends.now }
        ensures over { IsOverPairs result }
        ensures of { (m : Instance) (move : AnyMove) → m.sites ≡ pairs.now.sites →
            m.pairs ≡ pairs.now.list → IsAllowed m move (labelling at.now) →
            IsReadOf m move ends.now at.now self.now → IsFormOf m move result }
    {
        pairs.keeps();
        SiteForm {
            pairs,
            ends,
            own: &self.own.rises,
            at,
            stays: &self.stays,
            turns: &self.turns,
            smooth: &self.smooth.costs,
            symmetric: self.smooth.symmetric,
            few: self.few,
            table: &self.table,
            uniform: self.uniform,
            scaled: self.scaled,
            told: &self.told,
            listed: self.listed,
            rises: &self.rises,
            expanding: self.expanding,
            alpha: self.alpha,
            rising: ends.rising,
            even: ends.even,
            weight: ends.weight,
        }
    }
}
