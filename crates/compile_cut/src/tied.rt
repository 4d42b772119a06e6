//! Costs over many variables, each with a hidden node that is tied to them.
ghost use Rattle.std.specs.Prelude.{ℕ, ◌+◌, ◌*◌, ◌<◌, ◌≤◌, not, ◌&&◌, ◌∷◌, All, length};
ghost use Rattle.std.specs.Prelude.{sum_by, vec_len, OnOk};
ghost use Rattle.std.specs.List.{list_all, list_any};
ghost use Rattle.sums.specs.Sums.{count_if};
ghost use Rattle.pseudo_bool.specs.Limits.{value_limit};
ghost use Rattle.compile_cut.specs.Weights.{AddsArcs};
ghost use Rattle.compile_cut.specs.Quadratics.{HasRoomForTerm, AddsLeast, IsTied};

use crate::adding::add_arc;
use crate::quadratic::Quadratic;
use flow_network::Arc;
use std::alloc::AllocError;

/// Adds an arc from each node to one node.
fn add_arcs_to(arcs: &mut Vec<Arc>, nodes: &[u32], to: u32, capacity: u64) -> Result<(), AllocError>
    ensures { OnOk result (AddsArcs arcs.old.items arcs.new.items (to ∷ nodes.now)
        (capacity * length nodes.now)
        (λ x. sum_by (λ node. count_if (x to && not (x node)) capacity) nodes.now)) }
{
    for index in 0..nodes.len() {
        add_arc(arcs, nodes[index], to, capacity)?;
    }
    Ok(())
}

/// Adds an arc from one node to each node.
fn add_arcs_from(
    arcs: &mut Vec<Arc>,
    from: u32,
    nodes: &[u32],
    capacity: u64,
) -> Result<(), AllocError>
    ensures { OnOk result (AddsArcs arcs.old.items arcs.new.items (from ∷ nodes.now)
        (capacity * length nodes.now)
        (λ x. sum_by (λ node. count_if (x node && not (x from)) capacity) nodes.now)) }
{
    for index in 0..nodes.len() {
        add_arc(arcs, from, nodes[index], capacity)?;
    }
    Ok(())
}

impl Quadratic {
    /// Adds a cost that is paid unless each of these nodes is 1, by a hidden node behind all
    /// others: of the sets that are the same on the other nodes, the least value is the old one and
    /// the cost, or the old one where each is 1. Refuses only where memory runs out, and then
    /// nothing is said of the form.
    pub fn add_unless_all(&mut self, nodes: &[u32], cost: u64) -> Result<(), AllocError>
        requires form { HasRoomForTerm self.old }
        requires nodes { All (λ node. node < vec_len self.old.weights) nodes.now }
        requires cost { cost ≤ value_limit }
        ensures tied { OnOk result (IsTied (length nodes.now + 1) cost self.old self.new) }
        ensures value { OnOk result (AddsLeast self.old self.new
            (λ x. count_if (not (list_all x nodes.now)) cost)) }
    {
        let hidden = self.weights.len() as u32;
        self.weights.push(-(cost as i64))?;
        add_arcs_to(&mut self.arcs, nodes, hidden, cost)?;
        self.constant += cost as i64;
        Ok(())
    }

    /// Adds a cost that is paid if any of these nodes is 1, by a hidden node, as `add_unless_all`
    /// does.
    pub fn add_if_any(&mut self, nodes: &[u32], cost: u64) -> Result<(), AllocError>
        requires form { HasRoomForTerm self.old }
        requires nodes { All (λ node. node < vec_len self.old.weights) nodes.now }
        requires cost { cost ≤ value_limit }
        ensures tied { OnOk result (IsTied (length nodes.now + 1) cost self.old self.new) }
        ensures value { OnOk result
            (AddsLeast self.old self.new (λ x. count_if (list_any x nodes.now) cost)) }
    {
        let hidden = self.weights.len() as u32;
        self.weights.push(cost as i64)?;
        add_arcs_from(&mut self.arcs, hidden, nodes, cost)?;
        Ok(())
    }
}
