//! What the cheapest labels cost the sites: a bound without any message.
ghost use Rattle.std.specs.Prelude.{◌≡◌, ℕ, ◌<◌, ◌≤◌};
ghost use Rattle.label_energies.specs.Energies.{IsLabelled, data_energy};
ghost use Rattle.cost_store.specs.Posed.{IsPosed, WhereMeant};
ghost use Rattle.cost_store.specs.Limits.{site_cost_limit, data_energy_limit};
ghost use Rattle.message_bound.specs.Bounds.{IsCheapest};

use cost_store::Problem;

/// What a label costs a site.
fn cost_of<F: Fn(u32, u32) -> i64 + Sync, V: Fn(u32, u32) -> i64 + Sync>(
    problem: &Problem<F, V>,
    site: u32,
    label: u32,
) -> u64
    requires posed { IsPosed F.Fn V.Fn problem.now }
    requires inside { (site < problem.now.pairs.sites) × (label < problem.now.data_cost.labels) }
    ensures cost { WhereMeant F.Fn V.Fn problem.now (λ m. result ≡ m.data_cost site label) }
    ensures range { result ≤ site_cost_limit }
{
    problem.site_cost(site, label).unsigned_abs()
}

/// What the cheapest label of a site costs it.
fn least_cost<F: Fn(u32, u32) -> i64 + Sync, V: Fn(u32, u32) -> i64 + Sync>(
    problem: &Problem<F, V>,
    site: u32,
) -> u64
    requires posed { IsPosed F.Fn V.Fn problem.now }
    requires site { site < problem.now.pairs.sites }
    requires labels { 0 < problem.now.data_cost.labels }
    ensures least { WhereMeant F.Fn V.Fn problem.now (λ m. (l : ℕ)
        → l < problem.now.data_cost.labels → result ≤ m.data_cost site l) }
    ensures most { WhereMeant F.Fn V.Fn problem.now (λ m. (c : ℕ)
        → ((l : ℕ) → l < problem.now.data_cost.labels → c ≤ m.data_cost site l) → c ≤ result) }
    ensures range { result ≤ site_cost_limit }
{
    let mut least = cost_of(problem, site, 0);
    for label in 0..problem.data_cost.labels {
        least = least.min(cost_of(problem, site, label));
    }
    least
}

/// What the cheapest labels of all sites cost them: the bound without any pair.
pub fn bound_of_sites<F: Fn(u32, u32) -> i64 + Sync, V: Fn(u32, u32) -> i64 + Sync>(
    problem: &Problem<F, V>,
) -> u64
    requires posed { IsPosed F.Fn V.Fn problem.now }
    requires labels { 0 < problem.now.data_cost.labels }
    ensures below { WhereMeant F.Fn V.Fn problem.now
        (λ m. (g : ℕ → ℕ) → IsLabelled m g → result ≤ data_energy m g) }
    ensures cheapest { WhereMeant F.Fn V.Fn problem.now
        (λ m. (h : ℕ → ℕ) → IsCheapest m h → data_energy m h ≤ result) }
    ensures range { result ≤ data_energy_limit }
{
    let mut total = 0u64;
    for site in 0..problem.pairs.sites() {
        total += least_cost(problem, site);
    }
    total
}
