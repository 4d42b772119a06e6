//! The test of a cut and of the preflow that is to certify it.
ghost use Rattle.std.specs.Prelude.{◌≡◌, ◌+◌, ◌<◌, ◌≤◌, ◌↔◌, ℕ, IfOk, IsTrue, length, sum};
ghost use Rattle.std.specs.Prelude.{slice_index, not};
ghost use Rattle.sums.specs.Sums.{sum_below, count_if};
ghost use Rattle.flow_network.specs.Limits.{capacity_limit};
ghost use Rattle.flow_network.specs.Cut.{nodes, set_of, capacity_of, IsNet};
ghost use Rattle.flow_network.specs.Preflow.{flow_by, gets, total_outflow, IsWithinArcs};
ghost use Rattle.flow_network.specs.Preflow.{IsWithinSinks, IsPreflow};
ghost use Rattle.flow_network.specs.Preflow.{IsCertified};
ghost use Rattle.flow_network.specs.Answer.{IsRightCut, side_of};
ghost use Rattle.flow_network.specs.Laws.{IsLeastCutOf};

use crate::{Net, Solved};
use std::alloc::{AllocError, Global};

/// Whether no number is above that at its place in the other list.
fn all_within(numbers: &[u64], limits: &[u64]) -> bool
    requires { length numbers.now ≡ length limits.now }
    ensures { IsTrue result ↔
        ((k : ℕ) → k < length limits.now → slice_index numbers.now k ≤ slice_index limits.now k) }
{
    for k in 0..limits.len() {
        if limits[k] < numbers[k] {
            return false;
        }
    }
    true
}

/// Whether no arc carries more than it can.
fn arcs_within(net: &Net, arc_flow: &[u64]) -> bool
    requires { length arc_flow.now ≡ length net.now.arcs }
    ensures { IsTrue result ↔ IsWithinArcs net.now arc_flow.now }
{
    let arcs = net.arcs();
    for k in 0..arcs.len() {
        if arcs[k].capacity < arc_flow[k] {
            return false;
        }
    }
    true
}

/// What each node gets.
fn gets_of(alloc: Global, net: &Net, arc_flow: &[u64]) -> Result<Vec<u64>, AllocError>
    requires len { length arc_flow.now ≡ length net.now.arcs }
    requires within { IsWithinArcs net.now arc_flow.now }
    ensures len { IfOk result (λ totals. length totals.items ≡ nodes net.now) }
    ensures value { IfOk result (λ totals. (v : ℕ) → v < nodes net.now →
        slice_index totals.items v ≡ gets net.now (flow_by arc_flow.now net.now.sinks) v) }
{
    let arcs = net.arcs();
    let mut totals = Vec::from_slice(alloc, net.sources())?;
    for k in 0..arcs.len() {
        let node = arcs[k].to as usize;
        totals[node] += arc_flow[k];
    }
    Ok(totals)
}

/// What each node passes on.
fn gives_of(
    alloc: Global,
    net: &Net,
    arc_flow: &[u64],
    sink_flow: &[u64],
) -> Result<Vec<u64>, AllocError>
    requires len { length arc_flow.now ≡ length net.now.arcs }
    requires sinks_len { length sink_flow.now ≡ nodes net.now }
    requires within { IsWithinArcs net.now arc_flow.now }
    requires sinks_within { IsWithinSinks net.now sink_flow.now }
    ensures len { IfOk result (λ totals. length totals.items ≡ nodes net.now) }
    ensures value { IfOk result (λ totals. (v : ℕ) → v < nodes net.now →
        slice_index totals.items v ≡ total_outflow net.now (flow_by arc_flow.now sink_flow.now) v) }
{
    let arcs = net.arcs();
    let mut totals = Vec::from_slice(alloc, sink_flow)?;
    for k in 0..arcs.len() {
        let node = arcs[k].from as usize;
        totals[node] += arc_flow[k];
    }
    Ok(totals)
}

/// Whether the numbers are a preflow.
fn is_preflow(
    alloc: Global,
    net: &Net,
    arc_flow: &[u64],
    sink_flow: &[u64],
) -> Result<bool, AllocError>
    ensures { IfOk result (λ yes. IsTrue yes ↔
        IsPreflow net.now (flow_by arc_flow.now sink_flow.now)) }
{
    if arc_flow.len() != net.arcs().len() || sink_flow.len() != net.nodes() {
        return Ok(false);
    }
    if !arcs_within(net, arc_flow) || !all_within(sink_flow, net.sinks()) {
        return Ok(false);
    }
    let gets = gets_of(alloc, net, arc_flow)?;
    let gives = gives_of(alloc, net, arc_flow, sink_flow)?;
    Ok(all_within(gives.as_slice(), gets.as_slice()))
}

/// What the nodes of the one side give by their sources, and those of the other by their sinks.
fn nodes_capacity(sources: &[u64], sinks: &[u64], side: &[bool]) -> u64
    requires len { length side.now ≡ length sources.now }
    requires sinks_len { length sinks.now ≡ length sources.now }
    requires small { sum sources.now + sum sinks.now ≤ capacity_limit }
    ensures { result ≡
        sum_below (length sources.now)
        (λ v. count_if (set_of side.now v) (slice_index sources.now v)) +
        sum_below (length sources.now)
        (λ v. count_if (not (set_of side.now v)) (slice_index sinks.now v)) }
{
    let mut total = 0;
    for v in 0..sources.len() {
        total += if side[v] { sources[v] } else { sinks[v] };
    }
    total
}

/// The capacity of the cut that the bits tell, one for each node, `true` on the sink's side: what
/// the source can send the nodes there, what the others can send the sink, and the capacities of
/// the arcs from the others to the nodes there (Boykov, Veksler, Zabih 2001, section 3).
pub fn cut_capacity(net: &Net, side: &[bool]) -> u64
    requires { length side.now ≡ nodes net.now }
    ensures { result ≡ capacity_of net.now (set_of side.now) }
{
    let mut total = nodes_capacity(net.sources(), net.sinks(), side);
    for arc in net.arcs() {
        if side[arc.to as usize] && !side[arc.from as usize] {
            total += arc.capacity;
        }
    }
    total
}

/// The sum of the numbers.
fn total_of(numbers: &[u64]) -> u64
    requires { sum numbers.now ≤ capacity_limit }
    ensures { result ≡ sum numbers.now }
{
    numbers.iter().sum()
}

/// Whether the lists are a preflow whose value is told, and that of the cut.
fn is_certified(
    alloc: Global,
    net: &Net,
    arc_flow: &[u64],
    sink_flow: &[u64],
    side: &[bool],
    value: u64,
) -> Result<bool, AllocError>
    requires limits { IsNet net.now }
    requires len { length side.now ≡ nodes net.now }
    ensures { IfOk result (λ yes. IsTrue yes ↔
        IsCertified net.now (flow_by arc_flow.now sink_flow.now) (set_of side.now) value) }
{
    if !is_preflow(alloc, net, arc_flow, sink_flow)? {
        return Ok(false);
    }
    if total_of(sink_flow) != value {
        return Ok(false);
    }
    Ok(value == cut_capacity(net, side))
}

/// Whether the numbers certify the cut: what arcs carry and nodes give the sink is a preflow, and
/// what the sink gets by it is the capacity of the cut and the value. Then no cut of the net has a
/// lower capacity (Ford, Fulkerson 1956; Goldberg, Tarjan 1988).
///
/// It may be asked of any numbers. Lists of the wrong length are answered no. It takes two numbers
/// a node, and refuses only where memory runs out.
pub fn check_cut(alloc: Global, net: &Net, solved: &Solved) -> Result<bool, AllocError>
    ensures right { IfOk result (λ yes. IsTrue yes ↔ IsRightCut net.now solved.now) }
    ensures least { IfOk result (λ yes. IsTrue yes →
        IsLeastCutOf net.now (side_of solved.now) solved.now.value) }
{
    if solved.sink_side.len() != net.nodes() {
        return Ok(false);
    }
    is_certified(
        alloc,
        net,
        solved.arc_flow.as_slice(),
        solved.sink_flow.as_slice(),
        solved.sink_side.as_slice(),
        solved.value,
    )
}
