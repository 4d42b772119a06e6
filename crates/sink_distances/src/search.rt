//! Breadth-first searches from the sink backwards.
ghost use Rattle.std.specs.Prelude.{◌≡◌, ◌+◌, ◌<◌, ◌≤◌, ◌^◌, ℕ, length, slice_index, slice_set};
ghost use Rattle.flow_network.specs.Cut.{nodes, IsNet};
ghost use Rattle.flow_network.specs.Preflow.{arc_at, flow_by, sink_flows, AreRooms};
ghost use Rattle.flow_network.specs.Progress.{top_label};
ghost use Rattle.sink_distances.specs.Adjacency.{IsAdjacency};
ghost use Rattle.sink_distances.specs.Distances.{AreDistances};
ghost use Rattle.sink_distances.specs.Laid.{opposite_in, standing_at, standing_opposite};
ghost use Rattle.sink_distances.specs.Rows.{carried_flow, IsRows};
ghost use Rattle.sink_distances.specs.Search.{found_of, AreStartsButZeros, AreUnlabelledOrZero};
ghost use Rattle.sink_distances.specs.Search.{AreRoomy, IsBefore, IsBeforeFrom, IsLevelFrom};
ghost use Rattle.sink_distances.specs.Search.{IsNextLabel, Grows};

use crate::{Adjacency, Cell, Outline, Rows};
use flow_network::Graph;

/// A net, its arcs by node, and what each arc carries.
#[derive(Clone, Copy)]
struct Carried<'a> {
    net: &'a Graph,
    adjacency: &'a Adjacency,
    arc_flow: &'a [u64],
}

/// What a search has found. Amounts are summed modulo 2^64, which those of a net do not reach.
#[derive(Clone, Copy)]
pub(crate) struct Tally {
    /// How many nodes were found.
    pub(crate) count: usize,
    /// What they have got and not passed on.
    pub(crate) excess: u64,
    /// What they can still give the sink.
    pub(crate) room: u64,
}

/// Labels a node that has no label, and puts it last in the order. Answers how many nodes stand
/// there.
#[inline]
fn put(labels: &mut [u32], order: &mut [u32], count: usize, v: u32, label: u32) -> usize
    requires node { v < length labels.old }
    requires none { slice_index labels.old v ≡ top_label (length labels.old) }
    requires ready { IsNextLabel label (found_of labels.old order.old count) }
    ensures grows { Grows label (λ u. u ≡ v)
        (found_of labels.old order.old count) (found_of labels.new order.new result) }
    ensures marked { slice_index labels.new v ≤ label }
    ensures last { order.new ≡ slice_set order.old count v }
    ensures more { result ≡ count + 1 }
{
    labels[v as usize] = label;
    order[count] = v;
    count + 1
}

/// Labels the node where it has no label, and puts it last in the order: the step of a search by
/// levels. Answers how many nodes stand there.
///
/// `labels` has a number for each node, two more than there are nodes where a node has no label.
/// The first `count` places of `order` are the labelled nodes in the order in which they were
/// found, by rising labels; nodes of label 0 may be left out.
pub fn mark(labels: &mut [u32], order: &mut [u32], count: usize, v: u32, label: u32) -> usize
    requires node { v < length labels.old }
    requires ready { IsNextLabel label (found_of labels.old order.old count) }
    ensures grows { Grows label (λ u. u ≡ v)
        (found_of labels.old order.old count) (found_of labels.new order.new result) }
    ensures marked { slice_index labels.new v ≤ label }
{
    if labels[v as usize] as usize != labels.len() + 2 {
        return count;
    }
    put(labels, order, count, v, label)
}

/// Labels the nodes that can give the sink more, but for those of label 0: these count as the sink
/// itself, and the search passes them over.
fn mark_starts(net: &Outline, rooms: &[u64], labels: &mut [u32], order: &mut [u32]) -> usize
    requires len { length labels.old ≡ nodes net.now }
    requires order_len { length order.old ≡ nodes net.now }
    requires rooms_len { length rooms.now ≡ nodes net.now }
    requires labels { AreUnlabelledOrZero net.now labels.old }
    ensures limits { IsNet net.now }
    ensures starts { AreStartsButZeros net.now rooms.now labels.old (nodes net.now)
        (found_of labels.new order.new result) }
{
    let mut count = 0;
    for v in 0..net.nodes() {
        if rooms[v] > 0 {
            count = mark(labels, order, count, v as u32, 1);
        }
    }
    count
}

/// Labels the node that the arc leaves, where the arc can carry more.
fn mark_tail(
    carried: &Carried<'_>,
    labels: &mut [u32],
    order: &mut [u32],
    count: usize,
    k: usize,
    label: u32,
) -> usize
    requires flow { length carried.now.arc_flow.now ≡ length carried.now.net.now.arcs }
    requires len { length labels.old ≡ nodes carried.now.net.now }
    requires arc { k < length carried.now.net.now.arcs }
    requires ready { IsNextLabel label (found_of labels.old order.old count) }
    ensures grows { Grows label
        (IsBefore carried.now.net.now carried.now.arc_flow.now (arc_at carried.now.net.now k).to)
        (found_of labels.old order.old count) (found_of labels.new order.new result) }
    ensures marked { slice_index carried.now.arc_flow.now k
        < (arc_at carried.now.net.now k).capacity →
        slice_index labels.new (arc_at carried.now.net.now k).from ≤ label }
{
    let arc = carried.net.arcs()[k];
    if carried.arc_flow[k] < arc.capacity {
        mark(labels, order, count, arc.from, label)
    } else {
        count
    }
}

/// Labels the nodes that can send the node more by an arc.
fn mark_tails(
    carried: &Carried<'_>,
    labels: &mut [u32],
    order: &mut [u32],
    mut count: usize,
    w: usize,
    label: u32,
) -> usize
    requires adjacency { IsAdjacency carried.now.net.now carried.now.adjacency.now }
    requires flow { length carried.now.arc_flow.now ≡ length carried.now.net.now.arcs }
    requires len { length labels.old ≡ nodes carried.now.net.now }
    requires node { w < nodes carried.now.net.now }
    requires ready { IsNextLabel label (found_of labels.old order.old count) }
    ensures grows { Grows label (IsBefore carried.now.net.now carried.now.arc_flow.now w)
        (found_of labels.old order.old count) (found_of labels.new order.new result) }
    ensures marked { (k : ℕ) → k < length carried.now.net.now.arcs
        → (arc_at carried.now.net.now k).to ≡ w →
        slice_index carried.now.arc_flow.now k < (arc_at carried.now.net.now k).capacity →
        slice_index labels.new (arc_at carried.now.net.now k).from ≤ label }
{
    let into = &carried.adjacency.into;
    for p in into.starts[w]..into.starts[w + 1] {
        count = mark_tail(
            carried,
            labels,
            order,
            count,
            into.places[p as usize] as usize,
            label,
        );
    }
    count
}

/// Labels the node that the arc enters, where it carries something.
fn mark_head(
    carried: &Carried<'_>,
    labels: &mut [u32],
    order: &mut [u32],
    count: usize,
    k: usize,
    label: u32,
) -> usize
    requires flow { length carried.now.arc_flow.now ≡ length carried.now.net.now.arcs }
    requires len { length labels.old ≡ nodes carried.now.net.now }
    requires arc { k < length carried.now.net.now.arcs }
    requires ready { IsNextLabel label (found_of labels.old order.old count) }
    ensures grows { Grows label
        (IsBefore carried.now.net.now carried.now.arc_flow.now (arc_at carried.now.net.now k).from)
        (found_of labels.old order.old count) (found_of labels.new order.new result) }
    ensures marked { 0 < slice_index carried.now.arc_flow.now k →
        slice_index labels.new (arc_at carried.now.net.now k).to ≤ label }
{
    let arc = carried.net.arcs()[k];
    if carried.arc_flow[k] > 0 {
        mark(labels, order, count, arc.to, label)
    } else {
        count
    }
}

/// Labels the nodes that can take back what an arc carries to them from the node.
fn mark_heads(
    carried: &Carried<'_>,
    labels: &mut [u32],
    order: &mut [u32],
    mut count: usize,
    w: usize,
    label: u32,
) -> usize
    requires adjacency { IsAdjacency carried.now.net.now carried.now.adjacency.now }
    requires flow { length carried.now.arc_flow.now ≡ length carried.now.net.now.arcs }
    requires len { length labels.old ≡ nodes carried.now.net.now }
    requires node { w < nodes carried.now.net.now }
    requires ready { IsNextLabel label (found_of labels.old order.old count) }
    ensures grows { Grows label (IsBefore carried.now.net.now carried.now.arc_flow.now w)
        (found_of labels.old order.old count) (found_of labels.new order.new result) }
    ensures marked { (k : ℕ) → k < length carried.now.net.now.arcs
        → (arc_at carried.now.net.now k).from ≡ w →
        0 < slice_index carried.now.arc_flow.now k →
        slice_index labels.new (arc_at carried.now.net.now k).to ≤ label }
{
    let out = &carried.adjacency.out;
    for p in out.starts[w]..out.starts[w + 1] {
        count = mark_head(
            carried,
            labels,
            order,
            count,
            out.places[p as usize] as usize,
            label,
        );
    }
    count
}

/// Labels the nodes that have a residual direction to the node, one above its label.
fn mark_before(
    carried: &Carried<'_>,
    labels: &mut [u32],
    order: &mut [u32],
    count: usize,
    w: usize,
) -> usize
    requires limits { IsNet carried.now.net.now }
    requires adjacency { IsAdjacency carried.now.net.now carried.now.adjacency.now }
    requires flow { length carried.now.arc_flow.now ≡ length carried.now.net.now.arcs }
    requires len { length labels.old ≡ nodes carried.now.net.now }
    requires node { w < nodes carried.now.net.now }
    requires ready { IsNextLabel (slice_index labels.old w + 1)
        (found_of labels.old order.old count) }
    ensures grows { Grows (slice_index labels.old w + 1)
        (IsBefore carried.now.net.now carried.now.arc_flow.now w)
        (found_of labels.old order.old count) (found_of labels.new order.new result) }
    ensures marked { (v : ℕ) → IsBefore carried.now.net.now carried.now.arc_flow.now w v →
        slice_index labels.new v ≤ slice_index labels.old w + 1 }
{
    let label = labels[w] + 1;
    let count = mark_tails(carried, labels, order, count, w, label);
    mark_heads(carried, labels, order, count, w, label)
}

/// Writes the exact distance of each node to the sink over residual directions, or `top_label`
/// where no path leads there: a breadth-first search backwards from the sink (Goldberg, Tarjan
/// 1988, section 3).
///
/// `arc_flow` is what each arc carries and `rooms` what each node can still give the sink; they
/// need be no preflow. `labels` takes the answer, one number for each node. `order` is room for the
/// search: one place for each node, whose values before and after mean nothing. Takes no memory.
pub fn write_distances(
    net: &Graph,
    adjacency: &Adjacency,
    arc_flow: &[u64],
    rooms: &[u64],
    labels: &mut [u32],
    order: &mut [u32],
)
    requires adjacency { IsAdjacency net.now adjacency.now }
    requires arcs_len { length arc_flow.now ≡ length net.now.arcs }
    requires rooms { AreRooms net.now rooms.now }
    requires labels_len { length labels.old ≡ nodes net.now }
    requires order_len { length order.old ≡ nodes net.now }
    ensures { AreDistances net.now
        (flow_by arc_flow.now (sink_flows net.now rooms.now)) labels.new }
{
    let carried = Carried {
        net,
        adjacency,
        arc_flow,
    };
    let outline = Outline::of(net);
    labels.fill(outline.top_label());
    let mut count = mark_starts(&outline, rooms, labels, order);
    let mut next = 0;
    'search: while next < count {
        let w = order[next] as usize;
        count = mark_before(&carried, labels, order, count, w);
        next += 1;
    }
}

/// Lists the nodes that can give the sink more, in their order. Answers how many these are.
///
/// Each node is written behind those that were listed, and counted only where it can: no branch
/// hangs on its room.
fn list_rooms(rooms: &[u64], order: &mut [u32]) -> usize
    requires len { length order.old ≡ length rooms.now }
    requires small { length rooms.now ≤ 2 ^ 32 }
    ensures { AreRoomy rooms.now (length rooms.now) result order.new }
{
    let mut count = 0;
    'nodes: for v in 0..rooms.len() {
        order[count] = v as u32;
        if rooms[v] > 0 {
            count += 1;
        }
    }
    count
}

/// Labels the node, which can give the sink more, where it has no label.
#[inline]
fn mark_start(
    rooms: &[u64],
    excess: &[u64],
    labels: &mut [u32],
    order: &mut [u32],
    tally: Tally,
    v: u32,
) -> Tally
    requires node { v < length labels.old }
    requires rooms_len { length rooms.now ≡ length labels.old }
    requires excess_len { length excess.now ≡ length labels.old }
    requires ready { IsNextLabel 1 (found_of labels.old order.old tally.count) }
    requires ones { IsLevelFrom 1 0 (found_of labels.old order.old tally.count) }
    ensures grows { Grows 1 (λ u. u ≡ v)
        (found_of labels.old order.old tally.count) (found_of labels.new order.new result.count) }
    ensures ones { IsLevelFrom 1 0 (found_of labels.new order.new result.count) }
    ensures marked { slice_index labels.new v ≤ 1 }
    ensures few { result.count ≤ tally.count + 1 }
    ensures rest { (i : ℕ) → tally.count < i →
        slice_index order.new i ≡ slice_index order.old i }
{
    if labels[v as usize] as usize != labels.len() + 2 {
        return tally;
    }
    Tally {
        count: put(labels, order, tally.count, v, 1),
        excess: tally.excess.wrapping_add(excess[v as usize]),
        room: tally.room.wrapping_add(rooms[v as usize]),
    }
}

/// Labels the nodes that can give the sink more, as `mark_starts` does, and sums what they have.
pub(crate) fn tally_starts(
    net: &Outline,
    rooms: &[u64],
    excess: &[u64],
    labels: &mut [u32],
    order: &mut [u32],
) -> Tally
    requires len { length labels.old ≡ nodes net.now }
    requires order_len { length order.old ≡ nodes net.now }
    requires rooms_len { length rooms.now ≡ nodes net.now }
    requires excess_len { length excess.now ≡ nodes net.now }
    requires labels { AreUnlabelledOrZero net.now labels.old }
    ensures limits { IsNet net.now }
    ensures starts { AreStartsButZeros net.now rooms.now labels.old (nodes net.now)
        (found_of labels.new order.new result.count) }
    ensures ones { IsLevelFrom 1 0 (found_of labels.new order.new result.count) }
{
    let _nodes = net.nodes();
    let many = list_rooms(rooms, order);
    let mut tally = Tally {
        count: 0,
        excess: 0,
        room: 0,
    };
    'starts: for place in 0..many {
        let v = order[place];
        tally = mark_start(rooms, excess, labels, order, tally, v);
    }
    tally
}

/// Labels the node to which the direction at a place leads, where what its way back can carry is
/// not used up. A node that has a label is passed over before the way back is looked up.
#[inline]
fn mark_back(
    cells: &[Cell],
    excess: &[u64],
    labels: &mut [u32],
    order: &mut [u32],
    tally: Tally,
    p: usize,
    label: u32,
) -> Tally
    requires place { p < length cells.now }
    requires opposite { opposite_in cells.now p < length cells.now }
    requires head { (standing_at cells.now p).head < length labels.old }
    requires excess_len { length excess.now ≡ length labels.old }
    requires ready { IsNextLabel label (found_of labels.old order.old tally.count) }
    ensures grows { Grows label (λ v. (v ≡ (standing_at cells.now p).head)
        × (0 < (standing_opposite cells.now p).residual))
        (found_of labels.old order.old tally.count) (found_of labels.new order.new result.count) }
    ensures marked { 0 < (standing_opposite cells.now p).residual →
        slice_index labels.new (standing_at cells.now p).head ≤ label }
{
    let head = cells[p].head;
    if labels[head as usize] as usize != labels.len() + 2
        || cells[cells[p].opposite as usize].residual == 0
    {
        return tally;
    }
    Tally {
        count: put(labels, order, tally.count, head, label),
        excess: tally.excess.wrapping_add(excess[head as usize]),
        room: tally.room,
    }
}

/// Labels the nodes that have a residual direction to the node: those to which its row leads, where
/// what the way back can carry is not used up.
fn mark_row(
    net: &Outline,
    rows: &Rows,
    excess: &[u64],
    labels: &mut [u32],
    order: &mut [u32],
    mut tally: Tally,
    w: usize,
    label: u32,
) -> Tally
    requires limits { IsNet net.now }
    requires rows { IsRows net.now rows.now }
    requires len { length labels.old ≡ nodes net.now }
    requires excess_len { length excess.now ≡ nodes net.now }
    requires node { w < nodes net.now }
    requires ready { IsNextLabel label (found_of labels.old order.old tally.count) }
    ensures grows { Grows label (IsBefore net.now (carried_flow rows.now) w)
        (found_of labels.old order.old tally.count) (found_of labels.new order.new result.count) }
    ensures marked { (v : ℕ) → IsBefore net.now (carried_flow rows.now) w v
        → slice_index labels.new v ≤ label }
{
    let cells = rows.cells.as_slice();
    'row: for p in rows.starts[w]..rows.ends[w] {
        tally = mark_back(cells, excess, labels, order, tally, p as usize, label);
    }
    tally
}

/// Expands the nodes of a level, which stand in the order from the first on: labels those that have
/// a residual direction to one of them, one above their label.
pub(crate) fn mark_level(
    net: &Outline,
    rows: &Rows,
    excess: &[u64],
    labels: &mut [u32],
    order: &mut [u32],
    mut tally: Tally,
    first: usize,
    level: u32,
) -> Tally
    requires limits { IsNet net.now }
    requires rows { IsRows net.now rows.now }
    requires len { length labels.old ≡ nodes net.now }
    requires excess_len { length excess.now ≡ nodes net.now }
    requires ready { IsNextLabel (level + 1) (found_of labels.old order.old tally.count) }
    requires some { first < tally.count }
    requires high { 0 < level }
    requires level { IsLevelFrom level first (found_of labels.old order.old tally.count) }
    ensures grows { Grows (level + 1) (IsBeforeFrom net.now (carried_flow rows.now) first
        (found_of labels.old order.old tally.count))
        (found_of labels.old order.old tally.count) (found_of labels.new order.new result.count) }
    ensures marked { (v : ℕ) → IsBeforeFrom net.now (carried_flow rows.now) first
        (found_of labels.old order.old tally.count) v → slice_index labels.new v ≤ level + 1 }
    ensures next { IsLevelFrom (level + 1) tally.count
        (found_of labels.new order.new result.count) }
{
    let label = level + 1;
    let end = tally.count;
    'nodes: for place in first..end {
        let w = order[place] as usize;
        tally = mark_row(net, rows, excess, labels, order, tally, w, label);
    }
    tally
}
