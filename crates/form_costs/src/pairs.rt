//! The pairs of a form.
ghost use Rattle.std.specs.Prelude.{◌≡◌, ◌≤◌, ℕ, IfOk, IfSome, IsTrue};
ghost use Rattle.std.specs.Prelude.{false, unsigned_abs};
ghost use Rattle.cost_store.specs.Limits.{site_cost_limit};
ghost use Rattle.pseudo_bool.specs.Energies.{entry};
ghost use Rattle.form_costs.specs.FormCosts.{AreFormPairs, AddsArc};

use compile_cut::{Arc, Quadratic};
use label_field::{LabelFieldError, Pairs};
use std::alloc::{AllocError, Global};

/// The greatest size of a weight that costs have, and of a capacity.
const COST_LIMIT: u64 = 10_000_000;

/// Whether no weight is larger than what a label may cost a site.
fn are_small(weights: &[i64]) -> bool
    ensures { IsTrue result →
        (p : ℕ) → unsigned_abs (entry weights.now p) ≤ site_cost_limit }
{
    for place in 0..weights.len() {
        if weights[place].unsigned_abs() > COST_LIMIT {
            return false;
        }
    }
    true
}

/// Adds the pair of an arc, if its capacity is no larger than what labels may cost a pair, and
/// there is room. It answers whether it did.
fn add_arc(pairs: &mut Pairs, arc: Arc) -> Result<bool, AllocError>
    requires { pairs.old.numbered ≡ false }
    ensures { IfOk result (λ added. IsTrue added → AddsArc arc pairs.old pairs.new) }
{
    if arc.capacity > COST_LIMIT {
        return Ok(false);
    }
    match pairs.add(arc.from, arc.to, 0) {
        Ok(()) => Ok(true),
        Err(LabelFieldError::OutOfMemory(error)) => Err(error),
        Err(_) => Ok(false),
    }
}

/// The pairs of a form, one for each arc, if its numbers are costs: each weight is at most what a
/// label may cost a site, each capacity at most what labels may cost a pair, and there are at most
/// `SITE_LIMIT` nodes and `PAIR_LIMIT` arcs. It refuses only where memory runs out.
pub fn pairs_of_form(alloc: Global, form: &Quadratic) -> Result<Option<Pairs>, AllocError>
    ensures { IfOk result (λ found. IfSome found (AreFormPairs form.now)) }
{
    let nodes = form.weights.len();
    if nodes > u32::MAX as usize || !Pairs::fits(nodes as u32) || !are_small(&form.weights) {
        return Ok(None);
    }
    let mut pairs = Pairs::new(alloc, nodes as u32);
    for index in 0..form.arcs.len() {
        if !add_arc(&mut pairs, form.arcs[index])? {
            return Ok(None);
        }
    }
    pairs.keeps();
    Ok(Some(pairs))
}
