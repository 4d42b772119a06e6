//! The least cut of a net on one thread, phase after phase.
ghost use Rattle.std.specs.Prelude.{◌≡◌, ◌-◌, ◌<◌, ◌≤◌, ℕ, IfOk, IsTrue, OnOk};
ghost use Rattle.std.specs.Prelude.{length, slice_index};
ghost use Rattle.std.specs.Simd.Lanes.{zip2};
ghost use Rattle.flow_network.specs.Limits.{capacity_limit};
ghost use Rattle.flow_network.specs.Cut.{nodes, set_of, IsNet, IsSmallestLeastCut};
ghost use Rattle.flow_network.specs.Preflow.{IsReach};
ghost use Rattle.flow_network.specs.Answer.{side_of, IsRightCut};
ghost use Rattle.flow_network.specs.Progress.{top};
ghost use Rattle.sink_distances.specs.Distances.{AreDistancesButZeros};
ghost use Rattle.sink_distances.specs.Rows.{IsRows, CarryNothing};
ghost use Rattle.sink_distances.specs.Search.{ListsAllBelow};
ghost use Rattle.plain_cut.specs.State.{work_flow, IsWork, IsRaised, HasNoActiveNode};

use crate::discharges::discharge_all;
use crate::opening::open;
use crate::phases::begin_phase;
use crate::wide::count_wide;
use crate::work::{Work, raise_near};
use crate::workspace::Workspace;
use flow_network::{Net, Solved, cut_capacity};
use sink_distances::{
    Extent, Outline, Rows, Spare, carried_flows, rows_by_node, rows_of, side_below, zeros,
};
use std::alloc::{AllocError, Global};
use std::collections::VecDeque;
use std::mem::replace;

/// The work at its end, whose labels are the exact distances where they are not 0. It takes the
/// net's rows, sources and sinks over, and the workspace's labels and queue; what the searches use
/// goes back to it.
pub fn finish(
    alloc: Global,
    net: &Outline,
    rows: Rows,
    sources: Vec<u64>,
    sinks: Vec<u64>,
    space: &mut Workspace,
) -> Result<Work, AllocError>
    requires rows { IsRows net.now rows }
    requires empty { CarryNothing net.now rows }
    requires sources { sources.items ≡ net.now.sources }
    requires sinks { sinks.items ≡ net.now.sinks }
    ensures limits { IsNet net.now }
    ensures work { IfOk result (λ w. IsWork net.now w) }
    ensures finished { IfOk result (λ w. HasNoActiveNode net.now w) }
    ensures exact { IfOk result
        (λ w. AreDistancesButZeros net.now (work_flow net.now w) w.labels.items) }
    ensures order { OnOk result (length space.new.order.items ≡ nodes net.now) }
    ensures found { OnOk result (length space.new.found.items ≡ nodes net.now) }
{
    let nodes = net.nodes();
    let labels = replace(&mut space.labels, Vec::new(alloc));
    let queue = replace(&mut space.queue, VecDeque::new(alloc));
    let mut order = zeros(replace(&mut space.order, Vec::new(alloc)), nodes)?;
    let mut found = zeros(replace(&mut space.found, Vec::new(alloc)), nodes)?;
    let mut work = open(net, rows, sources, sinks, labels, queue)?;
    maximise(
        alloc,
        net,
        &mut work,
        order.as_mut_slice(),
        found.as_mut_slice(),
    )?;
    space.order = order;
    space.found = found;
    Ok(work)
}

/// Whether the search that ended at this limit was a full one, and none of the nodes that it found,
/// which are all that reach the sink, has excess.
fn is_maximum(net: &Outline, work: &Work, found: &[u32], limit: u32) -> bool
    requires work { IsWork net.now work.now }
    requires found { (i : ℕ) → i < length found.now → slice_index found.now i < nodes net.now }
    requires listed { ListsAllBelow net.now work.now.labels.items
        limit found.now (length found.now) }
    ensures full { IsTrue result → top net.now ≤ limit }
    ensures finished { IsTrue result → HasNoActiveNode net.now work.now }
{
    let top = net.top_label();
    if limit < top {
        return false;
    }
    'nodes: for place in 0..found.len() {
        let v = found[place] as usize;
        if work.excess[v] > 0 && work.labels[v] < top {
            return false;
        }
    }
    true
}

/// How many times the room is looked for after a phase: twice as many as before it, where its queue
/// is empty. So only 64 phases of a cut have few new labels.
fn times_after(work: &Work, times: u64) -> u64 {
    if work.queue.is_empty() {
        times.saturating_mul(2)
    } else {
        times
    }
}

/// A search after a phase: one that ends early; or a full one where the phase has given no new
/// label.
fn search_again(
    net: &Outline,
    work: &mut Work,
    times: u64,
    order: &mut [u32],
    found: &mut [u32],
) -> Extent
    requires limits { IsNet net.now }
    requires work { IsWork net.now work.old }
    requires order { length order.old ≡ nodes net.now }
    requires found { length found.old ≡ nodes net.now }
    ensures raised { IsRaised net.now work.old work.new }
    ensures fits { result.limit ≤ top net.now }
    ensures count { result.count ≤ nodes net.now }
    ensures places { (i : ℕ) → i < result.count → slice_index order.new i < nodes net.now }
    ensures listed { ListsAllBelow net.now work.new.labels.items
        result.limit order.new result.count }
    ensures exact { result.limit ≡ top net.now →
        AreDistancesButZeros net.now (work_flow net.now work.new) work.new.labels.items }
    ensures counted { work.new.relabels ≡ 0 }
    ensures full { work.old.relabels ≡ 0 → result.limit ≡ top net.now }
{
    if work.relabels > 0 {
        raise_near(net, work, times, order, found)
    } else {
        raise_near(net, work, u64::MAX, order, found)
    }
}

/// Phases until no node that reaches the sink has excess; at the end the labels are the exact
/// distances, but that nodes of label 0 keep it. Where none has excess at the start, all that is
/// done is to find these.
///
/// Each phase begins with a search, and ends where no node that it found has excess, or there were
/// many new labels.
fn make_phases(
    net: &Outline,
    work: &mut Work,
    order: &mut [u32],
    found: &mut [u32],
    stops: &mut [u32],
) -> Result<(), AllocError>
    requires limits { IsNet net.now }
    requires work { IsWork net.now work.old }
    requires stops { length stops.old ≤ nodes net.now }
    requires order { length order.old ≡ nodes net.now }
    requires found { length found.old ≡ nodes net.now }
    ensures work { OnOk result (IsWork net.now work.new) }
    ensures finished { OnOk result (HasNoActiveNode net.now work.new) }
    ensures exact { OnOk result
        (AreDistancesButZeros net.now (work_flow net.now work.new) work.new.labels.items) }
{
    let mut times = 2;
    let mut extent = raise_near(net, work, times, order, found);
    'phases: while !is_maximum(net, work, &order[..extent.count], extent.limit) {
        begin_phase(net, work, &order[..extent.count], extent.limit, stops)?;
        discharge_all(net, work, extent.limit, stops)?;
        let last = work.relabels == 0 && extent.limit == net.top_label();
        times = times_after(work, times);
        extent = search_again(net, work, times, order, found);
        if last {
            return Ok(());
        }
    }
    Ok(())
}

/// Phases as `make_phases` makes them, with the places at which the pushes of wide nodes stop.
pub fn maximise(
    alloc: Global,
    net: &Outline,
    work: &mut Work,
    order: &mut [u32],
    found: &mut [u32],
) -> Result<(), AllocError>
    requires limits { IsNet net.now }
    requires work { IsWork net.now work.old }
    requires order { length order.old ≡ nodes net.now }
    requires found { length found.old ≡ nodes net.now }
    ensures work { OnOk result (IsWork net.now work.new) }
    ensures finished { OnOk result (HasNoActiveNode net.now work.new) }
    ensures exact { OnOk result
        (AreDistancesButZeros net.now (work_flow net.now work.new) work.new.labels.items) }
{
    let mut stops = vec![in alloc; 0u32; count_wide(net, &work.rows)]?;
    make_phases(net, work, order, found, stops.as_mut_slice())
}

/// A least cut of the net, with the preflow that certifies it. Of all least cuts it is the
/// smallest: its sink side lies within that of every other. Its capacity, `value`, is at most
/// `CAPACITY_LIMIT`.
///
/// The preflow method with one queue, first in and first out (Goldberg, Tarjan 1988, "A new
/// approach to the maximum-flow problem", sections 2 to 4). First excess goes from each node to
/// higher ones, back to lower ones, and up once more, but not to wide last nodes, with no labels
/// yet; then come phases. A phase raises the labels to the exact distances (Cherkassky, Goldberg
/// 1997, "On implementing the push-relabel method for the maximum flow problem"), by a search from
/// the sink that ends at the level at which it has found more than twice as much excess as the sink
/// can still take; later searches look for more. Nodes that it did not find stand aside until the
/// next search. Then it pushes once at each node that was found, the farthest from the sink first,
/// so that excess moves down all the way in one pass, and discharges those that have excess left,
/// until none has, or there were more than n / 32 new labels, where n is the number of nodes. The
/// method stops where a full search finds that no node that reaches the sink has excess: a preflow
/// certifies the cut as well as a flow. The sink side is the nodes that reach the sink over
/// residual directions.
///
/// Takes every net, also of no nodes, with parallel and opposite arcs, and with arcs from a node to
/// itself. Refuses only where memory runs out; a net of 2^31 arcs or more counts as that.
pub fn solve(alloc: Global, net: &Net) -> Result<Solved, AllocError>
    ensures certified { IfOk result (λ s. IsRightCut net.now s) }
    ensures smallest { IfOk result (λ s. IsSmallestLeastCut net.now (side_of s)) }
    ensures bound { IfOk result (λ s. s.value ≤ capacity_limit) }
{
    let sources = Vec::from_slice(alloc, net.sources())?;
    let sinks = Vec::from_slice(alloc, net.sinks())?;
    let shape = Outline::of(net.graph());
    let rows = rows_by_node(alloc, net.graph())?;
    let mut space = Workspace::new(alloc);
    let work = finish(alloc, &shape, rows, sources, sinks, &mut space)?;
    answer_of(alloc, net, &shape, work)
}

/// The sink side of the smallest least cut of the net, one bit for each node: that which `solve`
/// answers, found in the same way and refused for the same reasons.
///
/// It takes the net over: the net's own lists of sources and sinks become what the solver changes,
/// so it needs 16 bytes a node less than `solve`, and the arcs are given back as they are put into
/// rows.
pub fn smallest_side(alloc: Global, net: Net) -> Result<Vec<bool>, AllocError>
    ensures bits { IfOk result (λ side. length side.items ≡ nodes net) }
    ensures smallest { IfOk result (λ side. IsSmallestLeastCut net (set_of side.items)) }
{
    let mut space = Workspace::new(alloc);
    smallest_side_in(alloc, net, &mut space)
}

/// What `smallest_side` answers, in a workspace that is kept from one net to the next: up to
/// 262,144 nodes the lists of rows, labels, queue and order stand in what they stood in before.
pub fn smallest_side_in(
    alloc: Global,
    net: Net,
    space: &mut Workspace,
) -> Result<Vec<bool>, AllocError>
    ensures bits { IfOk result (λ side. length side.items ≡ nodes net) }
    ensures smallest { IfOk result (λ side. IsSmallestLeastCut net (set_of side.items)) }
{
    let (graph, sources, sinks) = net.into_parts();
    let outline = Outline::of(&graph);
    let spare = replace(&mut space.rows, Spare::new(alloc));
    let rows = rows_of(graph, spare)?;
    let work = finish(alloc, &outline, rows, sources, sinks, space)?;
    let side = least_side(alloc, &outline, &work)?;
    space.keep(alloc, work);
    Ok(side)
}

/// The nodes that reach the sink, of work that is finished, whose labels are the exact distances
/// where they are not 0.
pub fn least_side(alloc: Global, net: &Outline, work: &Work) -> Result<Vec<bool>, AllocError>
    requires limits { IsNet net.now }
    requires work { IsWork net.now work.now }
    requires finished { HasNoActiveNode net.now work.now }
    requires exact { AreDistancesButZeros net.now
        (work_flow net.now work.now) work.now.labels.items }
    ensures bits { IfOk result (λ side. length side.items ≡ nodes net.now) }
    ensures reach { IfOk result
        (λ side. IsReach net.now (work_flow net.now work.now) (set_of side.items)) }
    ensures smallest { IfOk result (λ side. IsSmallestLeastCut net.now (set_of side.items)) }
{
    side_below(alloc, net, work.labels.as_slice())
}

/// Turns what each node can still give the sink into what it gives.
fn turn_to_given(sinks: &[u64], rooms: &mut [u64])
    requires len { length rooms.old ≡ length sinks.now }
    requires within { (v : ℕ) → v < length sinks.now
        → slice_index rooms.old v ≤ slice_index sinks.now v }
    ensures { rooms.new ≡ zip2 (λ sink room. sink - room) sinks.now rooms.old }
{
    'nodes: for v in 0..sinks.len() {
        rooms[v] = sinks[v] - rooms[v];
    }
}

/// The answer of work that is finished, whose labels are the exact distances where they are not 0:
/// the nodes that reach the sink, and the preflow.
fn answer_of(alloc: Global, net: &Net, outline: &Outline, work: Work) -> Result<Solved, AllocError>
    requires limits { IsNet net.now }
    requires outline { outline.now ≡ net.now }
    requires work { IsWork net.now work }
    requires finished { HasNoActiveNode net.now work }
    requires exact { AreDistancesButZeros net.now (work_flow net.now work) work.labels.items }
    ensures certified { IfOk result (λ s. IsRightCut net.now s) }
    ensures smallest { IfOk result (λ s. IsSmallestLeastCut net.now (side_of s)) }
    ensures bound { IfOk result (λ s. s.value ≤ capacity_limit) }
{
    let side = least_side(alloc, outline, &work)?;
    let value = cut_capacity(net, side.as_slice());
    let arc_flow = carried_flows(alloc, net.graph(), &work.rows)?;
    let mut sink_flow = work.rooms;
    turn_to_given(net.sinks(), sink_flow.as_mut_slice());
    Ok(Solved {
        arc_flow,
        sink_flow,
        sink_side: side,
        value,
    })
}
