//! What labels cost beside one another, asked once.
ghost use Rattle.std.specs.Prelude.{◌≡◌, ◌<◌, ◌≤◌, ◌+◌, ◌*◌, ℕ, true, false, [], All, length, OnOk};
ghost use Rattle.std.specs.Prelude.{slice_index, slice_index_or, slice_set};
ghost use Rattle.label_field.specs.Limits.{label_limit};
ghost use Rattle.label_energies.specs.Energies.{labelling};
ghost use Rattle.label_energies.specs.Moves.{IsMoveOf};
ghost use Rattle.cost_store.specs.Posed.{IsPosed, IsAsked, WhereMeant};
ghost use Rattle.site_forms.specs.Fields.{AreSymmetric};
ghost use Rattle.form_lists.specs.Lists.{was_asked, AreCostsSmall, HasCostOf};
ghost use Rattle.form_lists.specs.Lists.{AreAskedCosts, HasCostRoom, AsksLabel, AreMadeAsked};
ghost use Rattle.form_lists.specs.Lists.{GetsCostOf, KeepsCostsOf, KeepsAsked};
ghost use Rattle.form_lists.specs.Lists.{AreMoveLabelsAsked};

use cost_store::Problem;
use label_energies::Move;
use std::alloc::{AllocError, Global};

/// How many labels there are at most, and how many costs stand in a row.
const LABELS: usize = 256;

/// What labels cost beside one another. A label is asked where it is first in use, beside each that
/// was asked before: so each two labels are asked once a run. It takes 512 bytes for each
/// label of the problem once one was.
#[derive(Drop)]
pub(crate) struct AskedCosts {
    /// Of each label whether it was asked.
    pub labels: Vec<bool>,
    /// What a pair of weight 1 costs: a row for each label of its first end.
    pub costs: Vec<u16>,
    /// Whether each two labels that were asked cost the same in both orders.
    pub symmetric: bool,
}

/// Whether both hold.
fn both(one: bool, other: bool) -> bool
    ensures { result ≡ true → (one ≡ true) × (other ≡ true) }
{
    one && other
}

/// Whether each of the first so many labels was asked.
fn are_asked(labels: &[bool], count: u32) -> bool
    requires { count ≤ length labels.now }
    ensures { result ≡ true →
        (label : ℕ) → label < count → slice_index_or labels.now label false ≡ true }
{
    let mut all = true;
    for label in 0..count {
        all = both(all, labels[label as usize]);
    }
    all
}

/// What a pair of weight 1 costs whose first end has the one label and its second the other.
fn cost_of<F: Fn(u32, u32) -> i64 + Sync, V: Fn(u32, u32) -> i64 + Sync>(
    problem: &Problem<F, V>,
    one: u32,
    other: u32,
) -> u16
    requires posed { IsPosed F.Fn V.Fn problem.now }
    requires weighted { problem.now.pairs.numbered ≡ false }
    requires labels { (one < problem.now.data_cost.labels)
        × (other < problem.now.data_cost.labels) }
    ensures cost { WhereMeant F.Fn V.Fn problem.now
        (λ m. (weight : ℕ) → weight * result ≡ m.smooth_cost weight one other) }
    ensures small { result ≤ 10000 }
{
    problem.smooth_cost.cost(one, other) as u16
}

/// Asks for that cost, and answers it.
fn ask_cost<F: Fn(u32, u32) -> i64 + Sync, V: Fn(u32, u32) -> i64 + Sync>(
    costs: &mut [u16],
    problem: &Problem<F, V>,
    one: u32,
    other: u32,
) -> u16
    requires posed { IsPosed F.Fn V.Fn problem.now }
    requires weighted { problem.now.pairs.numbered ≡ false }
    requires few { problem.now.data_cost.labels ≤ label_limit }
    requires labels { (one < problem.now.data_cost.labels)
        × (other < problem.now.data_cost.labels) }
    requires size { problem.now.data_cost.labels * label_limit ≤ length costs.old }
    ensures cost { WhereMeant F.Fn V.Fn problem.now
        (λ m. GetsCostOf m one other costs.old costs.new) }
    ensures small { AreCostsSmall costs.old → AreCostsSmall costs.new }
    ensures written { costs.new ≡ slice_set costs.old (one * label_limit + other) result }
{
    let cost = cost_of(problem, one, other);
    costs[one as usize * LABELS + other as usize] = cost;
    cost
}

/// Asks what a label costs beside another, with either at the first end, if that was asked.
/// It answers whether both cost the same.
fn ask_both<F: Fn(u32, u32) -> i64 + Sync, V: Fn(u32, u32) -> i64 + Sync>(
    costs: &mut [u16],
    labels: &[bool],
    problem: &Problem<F, V>,
    label: u32,
    other: u32,
) -> bool
    requires posed { IsPosed F.Fn V.Fn problem.now }
    requires weighted { problem.now.pairs.numbered ≡ false }
    requires few { problem.now.data_cost.labels ≤ label_limit }
    requires labels { (label < problem.now.data_cost.labels)
        × (other < problem.now.data_cost.labels) }
    requires room { (length labels.now ≡ label_limit)
        × (problem.now.data_cost.labels * label_limit ≤ length costs.old) }
    ensures both { WhereMeant F.Fn V.Fn problem.now
        (λ m. slice_index_or labels.now other false ≡ true →
        HasCostOf m costs.new label other × HasCostOf m costs.new other label) }
    ensures kept { WhereMeant F.Fn V.Fn problem.now (λ m. KeepsCostsOf m costs.old costs.new) }
    ensures small { AreCostsSmall costs.old → AreCostsSmall costs.new }
    ensures symmetric { result ≡ true → AreSymmetric costs.old → AreSymmetric costs.new }
{
    if !labels[other as usize] {
        return true;
    }
    let cost = ask_cost(costs, problem, label, other);
    let mirrored = ask_cost(costs, problem, other, label);
    cost == mirrored
}

/// Asks what a label costs beside each that was asked. It answers whether all cost the
/// same in both orders.
fn ask_beside<F: Fn(u32, u32) -> i64 + Sync, V: Fn(u32, u32) -> i64 + Sync>(
    costs: &mut [u16],
    labels: &[bool],
    problem: &Problem<F, V>,
    label: u32,
) -> bool
    requires posed { IsPosed F.Fn V.Fn problem.now }
    requires weighted { problem.now.pairs.numbered ≡ false }
    requires few { problem.now.data_cost.labels ≤ label_limit }
    requires label { label < problem.now.data_cost.labels }
    requires room { (length labels.now ≡ label_limit)
        × (problem.now.data_cost.labels * label_limit ≤ length costs.old) }
    ensures beside { WhereMeant F.Fn V.Fn problem.now
        (λ m. (other : ℕ) → other < m.labels → slice_index_or labels.now other false ≡ true →
        HasCostOf m costs.new label other × HasCostOf m costs.new other label) }
    ensures kept { WhereMeant F.Fn V.Fn problem.now (λ m. KeepsCostsOf m costs.old costs.new) }
    ensures small { AreCostsSmall costs.old → AreCostsSmall costs.new }
    ensures symmetric { result ≡ true → AreSymmetric costs.old → AreSymmetric costs.new }
{
    let mut symmetric = true;
    for other in 0..problem.data_cost.labels {
        let mirrored = ask_both(costs, labels, problem, label, other);
        symmetric = both(symmetric, mirrored);
    }
    symmetric
}

/// Makes room for 256 labels. Those that were asked stay so.
fn grow_labels(labels: &mut Vec<bool>) -> Result<(), AllocError>
    ensures same { (k : ℕ) → k < label_limit →
        slice_index_or labels.new.items k false ≡ slice_index_or labels.old.items k false }
    ensures size { OnOk result (length labels.new.items ≡ label_limit) }
{
    labels.resize(LABELS, false)
}

/// Makes room for the costs of so many labels. Those that were listed stay.
fn grow_costs(costs: &mut Vec<u16>, labels: u32) -> Result<(), AllocError>
    requires few { labels ≤ label_limit }
    ensures same { (k : ℕ) → slice_index costs.new.items k ≡ slice_index costs.old.items k }
    ensures size { OnOk result (labels * label_limit ≤ length costs.new.items) }
{
    let count = labels as usize * LABELS;
    if count <= costs.len() {
        return Ok(());
    }
    costs.resize(count, 0)
}

impl AskedCosts {
    /// No label. It takes no memory.
    pub(crate) fn empty(alloc: Global) -> AskedCosts
        ensures { (result.labels.items ≡ []) × (result.costs.items ≡ []) }
    {
        AskedCosts {
            labels: Vec::new(alloc),
            costs: Vec::new(alloc),
            symmetric: true,
        }
    }

    /// Makes room for the labels of the problem.
    pub(crate) fn make_room<F: Fn(u32, u32) -> i64 + Sync, V: Fn(u32, u32) -> i64 + Sync>(
        &mut self,
        problem: &Problem<F, V>,
    ) -> Result<(), AllocError>
        requires few { problem.now.data_cost.labels ≤ label_limit }
        requires known { AreAskedCosts F.Fn V.Fn problem.now self.old }
        ensures known { AreAskedCosts F.Fn V.Fn problem.now self.new }
        ensures room { OnOk result (HasCostRoom problem.now.data_cost.labels self.new) }
    {
        grow_labels(&mut self.labels)?;
        grow_costs(&mut self.costs, problem.data_cost.labels)
    }

    /// Asks a label that was not asked yet.
    fn ask_new<F: Fn(u32, u32) -> i64 + Sync, V: Fn(u32, u32) -> i64 + Sync>(
        &mut self,
        problem: &Problem<F, V>,
        label: u32,
    )
        requires posed { IsPosed F.Fn V.Fn problem.now }
        requires weighted { problem.now.pairs.numbered ≡ false }
        requires few { problem.now.data_cost.labels ≤ label_limit }
        requires label { label < problem.now.data_cost.labels }
        requires room { HasCostRoom problem.now.data_cost.labels self.old }
        requires known { AreAskedCosts F.Fn V.Fn problem.now self.old }
        ensures known { AreAskedCosts F.Fn V.Fn problem.now self.new }
        ensures asks { AsksLabel problem.now.data_cost.labels label self.old self.new }
    {
        self.labels[label as usize] = true;
        let mirrored = ask_beside(self.costs.as_mut_slice(), &self.labels, problem, label);
        self.symmetric = both(self.symmetric, mirrored);
    }

    /// Asks a label, unless it was asked.
    #[inline]
    fn ask<F: Fn(u32, u32) -> i64 + Sync, V: Fn(u32, u32) -> i64 + Sync>(
        &mut self,
        problem: &Problem<F, V>,
        label: u32,
    )
        requires posed { IsPosed F.Fn V.Fn problem.now }
        requires weighted { problem.now.pairs.numbered ≡ false }
        requires few { problem.now.data_cost.labels ≤ label_limit }
        requires label { label < problem.now.data_cost.labels }
        requires room { HasCostRoom problem.now.data_cost.labels self.old }
        requires known { AreAskedCosts F.Fn V.Fn problem.now self.old }
        ensures known { AreAskedCosts F.Fn V.Fn problem.now self.new }
        ensures asks { AsksLabel problem.now.data_cost.labels label self.old self.new }
    {
        if self.labels[label as usize] {
            return;
        }
        self.ask_new(problem, label);
    }

    /// Asks the labels of the sites. Where all labels were asked, no site is looked at.
    fn ask_sites<F: Fn(u32, u32) -> i64 + Sync, V: Fn(u32, u32) -> i64 + Sync>(
        &mut self,
        problem: &Problem<F, V>,
        at: &[u8],
    )
        requires posed { IsPosed F.Fn V.Fn problem.now }
        requires weighted { problem.now.pairs.numbered ≡ false }
        requires few { problem.now.data_cost.labels ≤ label_limit }
        requires labels { All (λ label. label < problem.now.data_cost.labels) at.now }
        requires room { HasCostRoom problem.now.data_cost.labels self.old }
        requires known { AreAskedCosts F.Fn V.Fn problem.now self.old }
        ensures known { AreAskedCosts F.Fn V.Fn problem.now self.new }
        ensures sites { (u : ℕ) → u < length at.now →
            was_asked self.new (labelling at.now u) ≡ true }
        ensures kept { KeepsAsked problem.now.data_cost.labels self.old self.new }
    {
        if are_asked(&self.labels, problem.data_cost.labels) {
            return;
        }
        for site in 0..at.len() {
            self.ask(problem, u32::from(at[site]));
        }
    }

    /// Asks the labels of a move.
    fn ask_move<F: Fn(u32, u32) -> i64 + Sync, V: Fn(u32, u32) -> i64 + Sync>(
        &mut self,
        problem: &Problem<F, V>,
        change: Move,
    )
        requires posed { IsPosed F.Fn V.Fn problem.now }
        requires weighted { problem.now.pairs.numbered ≡ false }
        requires few { problem.now.data_cost.labels ≤ label_limit }
        requires change { IsMoveOf problem.now.data_cost.labels change }
        requires room { HasCostRoom problem.now.data_cost.labels self.old }
        requires known { AreAskedCosts F.Fn V.Fn problem.now self.old }
        ensures known { AreAskedCosts F.Fn V.Fn problem.now self.new }
        ensures labels { AreMoveLabelsAsked change self.new }
        ensures kept { KeepsAsked problem.now.data_cost.labels self.old self.new }
    {
        match change {
            Move::Expand(alpha) => self.ask(problem, alpha),
            Move::Swap(alpha, beta) => {
                self.ask(problem, alpha);
                self.ask(problem, beta);
            }
        }
    }

    /// Asks each label that is in use in a move: that some site has, or that the move makes.
    pub(crate) fn ask_all<F: Fn(u32, u32) -> i64 + Sync, V: Fn(u32, u32) -> i64 + Sync>(
        &mut self,
        problem: &Problem<F, V>,
        at: &[u8],
        change: Move,
    ) -> Result<(), AllocError>
        requires posed { IsPosed F.Fn V.Fn problem.now }
        requires weighted { problem.now.pairs.numbered ≡ false }
        requires few { problem.now.data_cost.labels ≤ label_limit }
        requires asked { IsAsked problem.now at.now change }
        requires known { AreAskedCosts F.Fn V.Fn problem.now self.old }
        ensures known { AreAskedCosts F.Fn V.Fn problem.now self.new }
        ensures room { OnOk result (HasCostRoom problem.now.data_cost.labels self.new) }
        ensures made { OnOk result (AreMadeAsked change at.now self.new) }
    {
        self.make_room(problem)?;
        self.ask_move(problem, change);
        self.ask_sites(problem, at);
        Ok(())
    }
}
