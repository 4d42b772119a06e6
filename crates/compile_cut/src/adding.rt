//! Weights and arcs that are added to a form.
ghost use Rattle.std.specs.Prelude.{ℕ, ◌+◌, ◌*◌, ◌<◌, ◌≤◌, Bool, not, ◌&&◌, [], ◌∷◌, ◌+ℤ◌};
ghost use Rattle.std.specs.Prelude.{unsigned_abs, vec_len, OnOk};
ghost use Rattle.sums.specs.Sums.{count_if};
ghost use Rattle.sums.specs.IntegerSums.{int_counted};
ghost use Rattle.pseudo_bool.specs.Limits.{value_limit};
ghost use Rattle.compile_cut.specs.Limits.{term_size, form_size};
ghost use Rattle.compile_cut.specs.Weights.{weights_size, AddsArcs, AddsWeights};
ghost use Rattle.compile_cut.specs.Three.{hidden_value, AreNodesBelow, IsThreePartSmall};

use crate::three::{ThreeArcs, ThreePart};
use flow_network::Arc;
use std::alloc::AllocError;

/// Adds to one of the weights.
pub fn add_weight(weights: &mut Vec<i64>, at: u32, by: i64)
    requires at { at < vec_len weights.old }
    requires room { weights_size weights.old.items ≤ form_size + term_size }
    requires step { unsigned_abs by ≤ 8 * value_limit }
    ensures { AddsWeights weights.old weights.new (unsigned_abs by) (λ x. int_counted (x at) by) }
{
    weights[at as usize] += by;
}

/// Adds an arc, if it carries anything.
pub fn add_arc(arcs: &mut Vec<Arc>, from: u32, to: u32, capacity: u64) -> Result<(), AllocError>
    ensures { OnOk result (AddsArcs arcs.old.items arcs.new.items (from ∷ to ∷ []) capacity
        (λ x. count_if (x to && not (x from)) capacity)) }
{
    if capacity > 0 {
        arcs.push(Arc { from, to, capacity })?;
    }
    Ok(())
}

/// The numbers of three variables.
#[derive(Clone, Copy)]
pub struct Nodes {
    pub first: u32,
    pub second: u32,
    pub third: u32,
}

/// Adds the weights of three variables.
pub fn add_three_weights(weights: &mut Vec<i64>, nodes: Nodes, part: &ThreePart)
    requires nodes { AreNodesBelow (vec_len weights.old) nodes }
    requires room { weights_size weights.old.items + 12 * value_limit ≤ form_size + term_size }
    requires small { IsThreePartSmall part.now }
    ensures { AddsWeights weights.old weights.new (12 * value_limit)
        (λ x. int_counted (x nodes.first) part.now.first
        +ℤ int_counted (x nodes.second) part.now.second
        +ℤ int_counted (x nodes.third) part.now.third) }
{
    add_weight(weights, nodes.first, part.first);
    add_weight(weights, nodes.second, part.second);
    add_weight(weights, nodes.third, part.third);
}

/// Adds the arcs among three variables, each from an earlier to a later.
pub fn add_three_arcs(arcs: &mut Vec<Arc>, nodes: Nodes, part: &ThreeArcs) -> Result<(), AllocError>
    ensures { OnOk result (AddsArcs arcs.old.items arcs.new.items
        (nodes.first ∷ nodes.second ∷ nodes.third ∷ [])
        (part.now.first_second + part.now.first_third + part.now.second_third)
        (λ x. count_if (x nodes.second && not (x nodes.first)) part.now.first_second
        + count_if (x nodes.third && not (x nodes.first)) part.now.first_third
        + count_if (x nodes.third && not (x nodes.second)) part.now.second_third)) }
{
    add_arc(arcs, nodes.first, nodes.second, part.first_second)?;
    add_arc(arcs, nodes.first, nodes.third, part.first_third)?;
    add_arc(arcs, nodes.second, nodes.third, part.second_third)?;
    Ok(())
}

/// Adds the arcs between a hidden node of this weight and three variables:
/// from the hidden node where the weight is above 0, and else to it.
pub fn add_hidden_arcs(
    arcs: &mut Vec<Arc>,
    hidden: u32,
    nodes: Nodes,
    weight: i64,
) -> Result<(), AllocError>
    ensures { OnOk result (AddsArcs arcs.old.items arcs.new.items
        (hidden ∷ nodes.first ∷ nodes.second ∷ nodes.third ∷ []) (3 * unsigned_abs weight)
        (λ x. hidden_value weight (x hidden) (x nodes.first) (x nodes.second) (x nodes.third))) }
{
    let capacity = weight.unsigned_abs();
    if weight > 0 {
        add_arc(arcs, hidden, nodes.first, capacity)?;
        add_arc(arcs, hidden, nodes.second, capacity)?;
        add_arc(arcs, hidden, nodes.third, capacity)?;
        return Ok(());
    }
    add_arc(arcs, nodes.first, hidden, capacity)?;
    add_arc(arcs, nodes.second, hidden, capacity)?;
    add_arc(arcs, nodes.third, hidden, capacity)?;
    Ok(())
}
