//! A problem: sites, labels, pairs, and what they cost.
ghost use Rattle.std.specs.Prelude.{◌≡◌, ◌*◌, ℕ, pos, ◌<◌, ◌≤◌, ◌≤ℤ◌, All, length, IsTrue, OnOk};
ghost use Rattle.std.specs.Prelude.{OnErr, IfErr, true, false};
ghost use Rattle.label_field.specs.Limits.{weight_limit};
ghost use Rattle.label_field.specs.PairLists.{IsPair, IsWeightIn, number_pairs};
ghost use Rattle.label_energies.specs.Energies.{IsInstance, HasMetric, labelling as labels_of};
ghost use Rattle.label_energies.specs.Energies.{energy as energy_of, data_energy as data_of};
ghost use Rattle.label_energies.specs.Energies.{smooth_energy as smooth_of};
ghost use Rattle.label_energies.specs.Energies.{label_energy as label_of};
ghost use Rattle.label_energies.specs.Energies.{pair_cost as cost_of_pair};
ghost use Rattle.cost_store.specs.Limits.{data_energy_limit, smooth_energy_limit};
ghost use Rattle.cost_store.specs.Limits.{label_energy_limit, site_cost_limit, pair_cost_limit};
ghost use Rattle.cost_store.specs.LabelCosts.{costs_of as costs_in, AreLabelCosts, IsSetRefusal};
ghost use Rattle.cost_store.specs.Posed.{IsPosed, IsMeant, WhereMeant, HasEnergy, IsOfEnergy};
ghost use Rattle.cost_store.specs.Posed.{KeepsCosts, KeepsSmoothCosts, KeepsPairCosts};
ghost use Rattle.cost_store.specs.Posed.{instance_of_costs, instance_by_pair, MeansByPair};
ghost use Rattle.cost_store.specs.Promises.{AnswersTable};

use crate::by_label::total_paid;
use crate::{
    CostError, DataCost, LABEL_COST_LIMIT, LabelCostError, SmoothCost, check_table, costs_of,
};
use label_field::{Labelling, Pair, Pairs};
use std::alloc::Global;

/// What labels cost sites, what they cost pairs of sites, the pairs, and what labels cost by
/// themselves. The four have the same sites and labels, and both closures keep their promises: that
/// is `IsPosed`, which each call asks for.
#[derive(Drop)]
pub struct Problem<F, V> {
    pub pairs: Pairs,
    pub data_cost: DataCost<F>,
    pub smooth_cost: SmoothCost<V>,
    /// What each label costs by itself, once where some site has it: 0 where none were set.
    pub label_costs: Option<Vec<i64>>,
}

impl<F: Fn(u32, u32) -> i64 + Sync, V: Fn(u32, u32) -> i64 + Sync> Problem<F, V> {
    /// The problem of these pairs and costs, in which no label costs anything by itself. What it
    /// means is the instance of the tables that the closures answer: who calls it names them.
    pub fn new(pairs: Pairs, data_cost: DataCost<F>, smooth_cost: SmoothCost<V>) -> Problem<F, V>
        requires costs { KeepsCosts F.Fn data_cost }
        requires weighted { pairs.numbered ≡ false }
        requires smooth { KeepsSmoothCosts V.Fn smooth_cost }
        requires sites { data_cost.sites ≡ pairs.sites }
        requires labels { smooth_cost.labels ≡ data_cost.labels }
        ensures posed { IsPosed F.Fn V.Fn result }
        ensures parts { (result.pairs ≡ pairs) × (result.data_cost ≡ data_cost)
            × (result.smooth_cost ≡ smooth_cost) }
        ensures means { (at_sites between : ℕ → ℕ → ℕ) →
            AnswersTable (F.post data_cost.f) at_sites pairs.sites data_cost.labels →
            AnswersTable (V.post smooth_cost.v) between data_cost.labels data_cost.labels →
            IsMeant F.Fn V.Fn result (instance_of_costs pairs data_cost.labels at_sites between) }
    {
        pairs.keeps();
        Problem {
            pairs,
            data_cost,
            smooth_cost,
            label_costs: None,
        }
    }

    /// The problem of these pairs, each of which has costs of its own, in which no label costs
    /// anything by itself. The weights of the pairs go: each pair gets its place in the list as its
    /// number. `pair_costs` was stored by `SmoothCost::by_pair`, for as many pairs.
    pub fn by_pair(pairs: Pairs, data_cost: DataCost<F>, pair_costs: SmoothCost<V>) -> Problem<F, V>
        requires costs { KeepsCosts F.Fn data_cost }
        requires smooth { KeepsPairCosts V.Fn (length pairs.list) pair_costs }
        requires sites { data_cost.sites ≡ pairs.sites }
        requires labels { pair_costs.labels ≡ data_cost.labels }
        ensures posed { IsPosed F.Fn V.Fn result }
        ensures pairs { result.pairs ≡ record {
          sites = pairs.sites;
          list = number_pairs 0 pairs.list;
          numbered = true;
        } }
        ensures parts { (result.data_cost ≡ data_cost) × (result.smooth_cost ≡ pair_costs) }
        ensures means { (at_sites : ℕ → ℕ → ℕ) (between : ℕ → ℕ → ℕ → ℕ) →
            AnswersTable (F.post data_cost.f) at_sites pairs.sites data_cost.labels →
            MeansByPair V.Fn pair_costs.v (length pairs.list) data_cost.labels
            (instance_by_pair pairs data_cost.labels at_sites between) →
            IsMeant F.Fn V.Fn result (instance_by_pair pairs data_cost.labels at_sites between) }
    {
        let mut numbered = pairs;
        numbered.number();
        numbered.keeps();
        Problem {
            pairs: numbered,
            data_cost,
            smooth_cost: pair_costs,
            label_costs: None,
        }
    }

    /// What it means, told to a proof: an instance, whose smooth costs are a metric where they were
    /// stored as one. It does nothing.
    pub fn means(&self)
        requires posed { IsPosed F.Fn V.Fn self.now }
        ensures instance { WhereMeant F.Fn V.Fn self.now IsInstance }
        ensures metric { IsTrue self.now.smooth_cost.by_metric →
            WhereMeant F.Fn V.Fn self.now HasMetric }
    {}

    /// What a label costs a site. It takes no memory.
    pub fn site_cost(&self, site: u32, label: u32) -> i64
        requires posed { IsPosed F.Fn V.Fn self.now }
        requires inside { (site < self.now.pairs.sites) × (label < self.now.data_cost.labels) }
        ensures cost { WhereMeant F.Fn V.Fn self.now (λ m. result ≡ pos (m.data_cost site label)) }
        ensures range { (pos 0 ≤ℤ result) × (result ≤ℤ pos site_cost_limit) }
    {
        self.data_cost.cost(site, label)
    }

    /// What a pair of this weight costs at two labels: the weight times what the labels cost a pair
    /// of weight 1; or, where the pairs are numbered, what they cost the pair of this number. It
    /// takes no memory.
    pub fn pair_cost(&self, weight: u32, first: u32, second: u32) -> i64
        requires posed { IsPosed F.Fn V.Fn self.now }
        requires weight { IsWeightIn self.now.pairs weight }
        requires inside { (first < self.now.data_cost.labels)
            × (second < self.now.data_cost.labels) }
        ensures cost { WhereMeant F.Fn V.Fn self.now
            (λ m. result ≡ pos (m.smooth_cost weight first second)) }
        ensures range { (pos 0 ≤ℤ result) × (result ≤ℤ pos pair_cost_limit) }
    {
        if self.pairs.are_numbered() {
            return self
                .smooth_cost
                .cost_of_pair(weight, first, second, self.pairs.len());
        }
        self.weighted_cost(weight, first, second)
    }

    /// The weight of a pair times what two labels cost a pair of weight 1.
    fn weighted_cost(&self, weight: u32, first: u32, second: u32) -> i64
        requires posed { IsPosed F.Fn V.Fn self.now }
        requires weighted { self.now.pairs.numbered ≡ false }
        requires weight { weight ≤ weight_limit }
        requires inside { (first < self.now.data_cost.labels)
            × (second < self.now.data_cost.labels) }
        ensures cost { WhereMeant F.Fn V.Fn self.now
            (λ m. result ≡ pos (m.smooth_cost weight first second)) }
        ensures range { (pos 0 ≤ℤ result) × (result ≤ℤ pos pair_cost_limit) }
    {
        (u64::from(weight) * self.smooth_cost.cost(first, second).unsigned_abs()) as i64
    }

    /// What the labels cost the sites. It takes no memory.
    pub fn data_energy(&self, labelling: &Labelling) -> i64
        requires { HasEnergy F.Fn V.Fn self.now labelling.now }
        ensures { IsOfEnergy F.Fn V.Fn self.now data_of labelling.now data_energy_limit result }
    {
        let at = labelling.as_slice();
        let mut total = 0u64;
        for site in 0..labelling.sites() {
            total += self.site_energy(at, site);
        }
        total as i64
    }

    /// What the label of one site costs it.
    fn site_energy(&self, at: &[u8], site: u32) -> u64
        requires posed { IsPosed F.Fn V.Fn self.now }
        requires site { (site < length at.now) × (length at.now ≡ self.now.pairs.sites) }
        requires labels { All (λ label. label < self.now.data_cost.labels) at.now }
        ensures cost { WhereMeant F.Fn V.Fn self.now
            (λ m. result ≡ m.data_cost site (labels_of at.now site)) }
        ensures range { result ≤ site_cost_limit }
    {
        self.site_cost(site, u32::from(at[site as usize]))
            .unsigned_abs()
    }

    /// What the labels cost the pairs. It takes no memory.
    pub fn smooth_energy(&self, labelling: &Labelling) -> i64
        requires { HasEnergy F.Fn V.Fn self.now labelling.now }
        ensures { IsOfEnergy F.Fn V.Fn self.now smooth_of labelling.now smooth_energy_limit result }
    {
        let at = labelling.as_slice();
        let mut total = 0u64;
        for index in 0..self.pairs.len() {
            total += self.pair_energy(at, self.pairs.get(index));
        }
        total as i64
    }

    /// What one pair costs.
    fn pair_energy(&self, at: &[u8], pair: Pair) -> u64
        requires posed { IsPosed F.Fn V.Fn self.now }
        requires pair { IsPair (length at.now) pair }
        requires weight { IsWeightIn self.now.pairs pair.weight }
        requires labels { All (λ label. label < self.now.data_cost.labels) at.now }
        ensures cost { WhereMeant F.Fn V.Fn self.now
            (λ m. result ≡ cost_of_pair m (labels_of at.now) pair) }
        ensures range { result ≤ pair_cost_limit }
    {
        let first = u32::from(at[pair.first as usize]);
        let second = u32::from(at[pair.second as usize]);
        self.pair_cost(pair.weight, first, second).unsigned_abs()
    }

    /// What the labels that some site has cost by themselves. It takes no memory.
    pub fn label_energy(&self, labelling: &Labelling) -> i64
        requires { HasEnergy F.Fn V.Fn self.now labelling.now }
        ensures { IsOfEnergy F.Fn V.Fn self.now label_of labelling.now label_energy_limit result }
    {
        labelling.keeps();
        total_paid(labelling.as_slice(), costs_of(&self.label_costs)) as i64
    }

    /// The energy of a labelling. It takes no memory.
    pub fn energy(&self, labelling: &Labelling) -> i64
        requires { HasEnergy F.Fn V.Fn self.now labelling.now }
        ensures { WhereMeant F.Fn V.Fn self.now
            (λ m. result ≡ pos (energy_of m (labels_of labelling.now.at))) }
    {
        let plain = self.data_energy(labelling) + self.smooth_energy(labelling);
        plain + self.label_energy(labelling)
    }

    /// Sets what labels cost by themselves, in place of what was set before. Refused, the first
    /// that holds: `CostRange` where a cost is not from 0 to `LABEL_COST_LIMIT`, `OutOfMemory`.
    pub fn set_label_costs(&mut self, alloc: Global, costs: &[i64]) -> Result<(), LabelCostError>
        requires { length costs.now ≡ self.old.data_cost.labels }
        ensures set { OnOk result ((costs_in self.new.label_costs ≡ costs.now)
            × AreLabelCosts self.old.data_cost.labels self.new.label_costs) }
        ensures same { (self.new.pairs ≡ self.old.pairs) × (self.new.data_cost ≡ self.old.data_cost)
            × (self.new.smooth_cost ≡ self.old.smooth_cost) }
        ensures refused { IfErr result (IsSetRefusal costs.now) }
        ensures unchanged { OnErr result (self.new ≡ self.old) }
    {
        if let Err(CostError::CostRange(label)) = check_table(costs, LABEL_COST_LIMIT) {
            return Err(LabelCostError::CostRange(label));
        }
        let set = costs.iter().copied().collect(alloc)?;
        self.label_costs = Some(set);
        Ok(())
    }
}
