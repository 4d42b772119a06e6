//! A bound from below of the energies of all labellings.
ghost use Rattle.std.specs.Prelude.{◌≡◌, ◌⊎◌, ℕ, pos, ◌≤◌, ◌≤ℤ◌, IfOk, IfErr};
ghost use Rattle.label_energies.specs.Energies.{data_energy};
ghost use Rattle.cost_store.specs.Posed.{IsPosed, WhereMeant, FitsProblem};
ghost use Rattle.label_field.specs.Limits.{label_limit};
ghost use Rattle.message_bound.specs.Bounds.{IsLowerBound, IsCheapest};
ghost use Rattle.dual_bound.specs.Sizes.{bytes_of, IsBoundRefusal};

use crate::ascent::messages_after;
use crate::error::BoundError;
use cost_store::Problem;
use label_field::Labelling;
use message_bound::{bound_by_messages, bound_of_sites};
use std::alloc::{AllocError, Global};

/// The greater of two numbers, which is one of them.
fn greater(a: i64, b: i64) -> i64
    ensures either { (result ≡ a) ⊎ (result ≡ b) }
    ensures greater { (a ≤ℤ result) × (b ≤ℤ result) }
{
    if a < b { b } else { a }
}

/// A number that no labelling's energy is below, and a labelling whose energy is mostly near it.
#[derive(Drop)]
pub struct LowerBound {
    pub low: i64,
    /// What the messages tell: a labelling to start a run of moves from. Nothing is promised of its
    /// energy.
    pub labelling: Labelling,
}

/// How many bytes a search for a bound takes: 4 for each label of each pair, 8 for each label of
/// each site. Beside them it takes at most 16 a pair, 5 a site and 4 for each two labels.
pub fn search_bytes<F: Fn(u32, u32) -> i64 + Sync, V: Fn(u32, u32) -> i64 + Sync>(
    problem: &Problem<F, V>,
) -> u64
    requires posed { IsPosed F.Fn V.Fn problem.now }
    requires labels { problem.now.data_cost.labels ≤ label_limit }
    ensures { WhereMeant F.Fn V.Fn problem.now (λ m. result ≡ bytes_of m) }
{
    problem.pairs.keeps();
    let each = 8 * u64::from(problem.pairs.sites()) + 4 * problem.pairs.len() as u64;
    each * u64::from(problem.data_cost.labels)
}

/// A bound from below of the energies of all labellings: what messages prove after sweeps over the
/// sites, and at least what the cheapest labels cost the sites. There are `passes` sweeps, or fewer
/// once two of them raise the bound by less than a part in 10,000. More sweeps take longer, and
/// mostly bring it nearer to the least energy. Where each pair has costs of its own, a sweep asks
/// for all of them. Refuses before any work where the search takes more bytes than are allowed, as
/// `search_bytes` counts them, and else only where memory runs out.
pub fn lower_bound<F: Fn(u32, u32) -> i64 + Sync, V: Fn(u32, u32) -> i64 + Sync>(
    alloc: Global,
    problem: &Problem<F, V>,
    passes: u32,
    allowed: u64,
) -> Result<LowerBound, BoundError>
    requires posed { IsPosed F.Fn V.Fn problem.now }
    requires labels { (1 ≤ problem.now.data_cost.labels)
        × (problem.now.data_cost.labels ≤ label_limit) }
    ensures bound { WhereMeant F.Fn V.Fn problem.now
        (λ m. IfOk result (λ found. IsLowerBound m found.low)) }
    ensures cheapest { WhereMeant F.Fn V.Fn problem.now (λ m. IfOk result
        (λ found. (h : ℕ → ℕ) → IsCheapest m h → pos (data_energy m h) ≤ℤ found.low)) }
    ensures fits { IfOk result (λ found. FitsProblem problem.now found.labelling) }
    ensures within { WhereMeant F.Fn V.Fn problem.now
        (λ m. IfOk result (λ found. bytes_of m ≤ allowed)) }
    ensures refused { WhereMeant F.Fn V.Fn problem.now
        (λ m. IfErr result (IsBoundRefusal m allowed)) }
{
    let bytes = search_bytes(problem);
    if bytes > allowed {
        return Err(BoundError::TooLarge(bytes));
    }
    match bound_after(alloc, problem, passes) {
        Ok(found) => Ok(found),
        Err(_) => Err(BoundError::OutOfMemory),
    }
}

/// The bound after sweeps, however much memory it takes. Refuses only where memory runs out.
fn bound_after<F: Fn(u32, u32) -> i64 + Sync, V: Fn(u32, u32) -> i64 + Sync>(
    alloc: Global,
    problem: &Problem<F, V>,
    passes: u32,
) -> Result<LowerBound, AllocError>
    requires posed { IsPosed F.Fn V.Fn problem.now }
    requires labels { (1 ≤ problem.now.data_cost.labels)
        × (problem.now.data_cost.labels ≤ label_limit) }
    ensures bound { WhereMeant F.Fn V.Fn problem.now
        (λ m. IfOk result (λ found. IsLowerBound m found.low)) }
    ensures cheapest { WhereMeant F.Fn V.Fn problem.now (λ m. IfOk result
        (λ found. (h : ℕ → ℕ) → IsCheapest m h → pos (data_energy m h) ≤ℤ found.low)) }
    ensures fits { IfOk result (λ found. FitsProblem problem.now found.labelling) }
{
    let sites = bound_of_sites(problem) as i64;
    let mut labelling = Labelling::new(alloc, problem.pairs.sites(), problem.data_cost.labels)?;
    let messages = messages_after(alloc, problem, &mut labelling, passes)?;
    let bound = bound_by_messages(alloc, problem, messages.as_slice())?;
    let low = greater(bound, sites);
    Ok(LowerBound { low, labelling })
}
