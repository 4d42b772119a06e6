//! A search that ends early.
ghost use Rattle.std.specs.Prelude.{◌≡◌, ◌≢◌, ◌+◌, ◌<◌, ◌≤◌, ◌^◌, ℕ, length, max, min};
ghost use Rattle.std.specs.Prelude.{slice_index};
ghost use Rattle.flow_network.specs.Cut.{nodes, IsNet};
ghost use Rattle.flow_network.specs.Preflow.{flow_by, sink_flows, AreRooms};
ghost use Rattle.flow_network.specs.Labels.{IsLabelling};
ghost use Rattle.flow_network.specs.Progress.{top};
ghost use Rattle.sink_distances.specs.Distances.{AreDistancesButZeros, AreExactBelow};
ghost use Rattle.sink_distances.specs.Distances.{AreZerosUnreached};
ghost use Rattle.sink_distances.specs.Laws.{AreLow};
ghost use Rattle.sink_distances.specs.Rows.{carried_flow, IsRows};
ghost use Rattle.sink_distances.specs.Search.{AreDistancesUpTo, ListsAllBelow};

use crate::search::{mark_level, tally_starts};
use crate::{Outline, Rows};

/// How far a search went.
#[derive(Clone, Copy)]
pub struct Extent {
    /// No node that was not found is nearer to the sink than this. It is the top label where the
    /// search was a full one.
    pub limit: u32,
    /// How many nodes were found: they stand first in the order, the nearest before the others.
    pub count: usize,
}

/// What a search is to find before it ends: so many times as much excess of nodes as there is room
/// to the sink. Where `times` is the greatest number there is, it is a full one.
#[derive(Clone, Copy)]
pub struct Aim<'a> {
    /// What each node has got and not passed on.
    pub excess: &'a [u64],
    /// How many times the room is looked for.
    pub times: u64,
}

/// Begins a search: a node of label 0 keeps it, and the others have none.
fn clear(labels: &[u32], found: &mut [u32], none: u32)
    requires { length found.old ≡ length labels.now }
    ensures zeros { (v : ℕ) → v < length labels.now → slice_index labels.now v ≡ 0 →
        slice_index found.new v ≡ 0 }
    ensures others { (v : ℕ) → v < length labels.now → slice_index labels.now v ≢ 0 →
        slice_index found.new v ≡ none }
{
    'nodes: for v in 0..labels.len() {
        found[v] = if labels[v] > 0 { none } else { 0 };
    }
}

/// Searches from the sink backwards, and passes over the nodes of label 0. Where it is no full one,
/// it ends at the level by which the nodes that were found have more excess than the aim says: that
/// level is the last that was found, and one above it the limit.
fn search_near(
    net: &Outline,
    rows: &Rows,
    rooms: &[u64],
    aim: &Aim<'_>,
    labels: &[u32],
    found: &mut [u32],
    order: &mut [u32],
) -> Extent
    requires rows { IsRows net.now rows.now }
    requires rooms { AreRooms net.now rooms.now }
    requires excess_len { length aim.now.excess.now ≡ nodes net.now }
    requires labels_len { length labels.now ≡ nodes net.now }
    requires unreached { AreZerosUnreached net.now
        (flow_by (carried_flow rows.now) (sink_flows net.now rooms.now)) labels.now }
    requires found_len { length found.old ≡ nodes net.now }
    requires order_len { length order.old ≡ nodes net.now }
    ensures limits { IsNet net.now }
    ensures near { AreDistancesUpTo net.now
        (flow_by (carried_flow rows.now) (sink_flows net.now rooms.now))
        result.limit labels.now found.new }
    ensures count { result.count ≤ length order.new }
    ensures places { (i : ℕ) → i < result.count → slice_index order.new i < nodes net.now }
    ensures listed { ListsAllBelow net.now found.new result.limit order.new result.count }
    ensures whole { aim.now.times + 1 ≡ 2 ^ 64 → result.limit ≡ top net.now }
{
    clear(labels, found, net.top_label());
    let mut tally = tally_starts(net, rooms, aim.excess, found, order);
    let enough = tally.room.saturating_mul(aim.times);
    let mut level = 1;
    let mut next = 0;
    'levels: while next < tally.count {
        if level > 1 && tally.excess > enough && aim.times < u64::MAX {
            return Extent {
                limit: level + 1,
                count: tally.count,
            };
        }
        let first = next;
        next = tally.count;
        tally = mark_level(net, rows, aim.excess, found, order, tally, first, level);
        level += 1;
    }
    Extent {
        limit: net.top_label(),
        count: tally.count,
    }
}

/// Raises each label to what was found, or to the limit where that is lower.
fn raise_to(labels: &mut [u32], found: &[u32], limit: u32)
    requires { length labels.old ≡ length found.now }
    ensures { (v : ℕ) → v < length labels.old →
        slice_index labels.new v
        ≡ max (slice_index labels.old v) (min (slice_index found.now v) limit) }
{
    'nodes: for v in 0..found.len() {
        labels[v] = u32::max(labels[v], u32::min(found[v], limit));
    }
}

/// Raises labels by a search that ends early: once the nearest nodes have more excess than the aim
/// says, none beyond their level is looked for. Labels below the limit that it answers are then
/// exact distances, and where the limit is the top label all are.
///
/// Nodes of label 0 count as the sink itself: they keep that label, are passed over by the search,
/// and their room is not counted. No residual direction may lead to them from other nodes.
///
/// `found` and `order` are room for the search, one place for each node. The nodes that were found
/// then stand first in `order`: all whose label is below the limit and not 0. Takes no memory.
pub fn raise_labels(
    net: &Outline,
    rows: &Rows,
    rooms: &[u64],
    aim: &Aim<'_>,
    labels: &mut [u32],
    found: &mut [u32],
    order: &mut [u32],
) -> Extent
    requires rows { IsRows net.now rows.now }
    requires rooms { AreRooms net.now rooms.now }
    requires excess_len { length aim.now.excess.now ≡ nodes net.now }
    requires labels { IsLabelling net.now
        (flow_by (carried_flow rows.now) (sink_flows net.now rooms.now)) labels.old }
    requires low { AreLow net.now labels.old }
    requires unreached { AreZerosUnreached net.now
        (flow_by (carried_flow rows.now) (sink_flows net.now rooms.now)) labels.old }
    requires found_len { length found.old ≡ nodes net.now }
    requires order_len { length order.old ≡ nodes net.now }
    ensures labelling { IsLabelling net.now
        (flow_by (carried_flow rows.now) (sink_flows net.now rooms.now)) labels.new }
    ensures rises { (v : ℕ) → v < nodes net.now
        → slice_index labels.old v ≤ slice_index labels.new v }
    ensures low { AreLow net.now labels.new }
    ensures zeros { (v : ℕ) → v < nodes net.now → slice_index labels.old v ≡ 0 →
        slice_index labels.new v ≡ 0 }
    ensures fits { result.limit ≤ top net.now }
    ensures count { result.count ≤ length order.new }
    ensures places { (i : ℕ) → i < result.count → slice_index order.new i < nodes net.now }
    ensures listed { ListsAllBelow net.now labels.new result.limit order.new result.count }
    ensures near { AreExactBelow net.now
        (flow_by (carried_flow rows.now) (sink_flows net.now rooms.now)) result.limit labels.new }
    ensures full { result.limit ≡ top net.now →
        AreDistancesButZeros net.now (flow_by (carried_flow rows.now)
        (sink_flows net.now rooms.now)) labels.new }
    ensures whole { aim.now.times + 1 ≡ 2 ^ 64 → result.limit ≡ top net.now }
{
    let _nodes = net.nodes();
    let extent = search_near(net, rows, rooms, aim, labels, found, order);
    raise_to(labels, found, extent.limit);
    extent
}
