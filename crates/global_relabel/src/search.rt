//! The search for exact labels, from the sink backwards over all blocks.
ghost use Rattle.std.specs.Prelude.{◌≡◌, ◌+◌, ◌<◌, ◌≤◌, ℕ, true, false, length, slice_index};
ghost use Rattle.flow_network.specs.Limits.{node_limit};
ghost use Rattle.flow_network.specs.Cut.{nodes, IsNet};
ghost use Rattle.sink_distances.specs.Search.{found_of, AreStarts, IsNextLabel, Grows};
ghost use Rattle.block_events.specs.Reach.{AreExact};
ghost use Rattle.block_net.specs.Views.{lane_in, border_in};
ghost use Rattle.block_net.specs.Whole.{state_shown};
ghost use Rattle.block_split.specs.Split.{whole_of};
ghost use Rattle.net_in_blocks.specs.Views.{IsLaid, IsSpot};
ghost use Rattle.global_relabel.specs.Search.{AreNodesWithin, GivesIn, HasResidualLane};
ghost use Rattle.global_relabel.specs.Search.{AreNeighboursLabelled};
ghost use Rattle.global_relabel.specs.NodeBlocks.{AreNodeBlocks};
ghost use Rattle.global_relabel.specs.Workspaces.{IsLabelOrder};

use block_net::Cells;
use block_split::Parts;
use block_state::State;
use flow_network::Net;
use sink_distances::{mark, top_label};

/// A net, its blocks, and the block of each node.
#[derive(Clone, Copy)]
struct Split<'a> {
    net: &'a Net,
    parts: &'a Parts,
    node_blocks: &'a [u8],
}

/// A node, its block and its place there.
#[derive(Clone, Copy)]
pub(crate) struct Spot {
    pub(crate) node: usize,
    pub(crate) block: usize,
    pub(crate) place: usize,
}

/// A node's block and its place there, by the table of blocks.
fn spot_of(split: &Split<'_>, w: usize) -> (usize, usize)
    requires laid { IsLaid (whole_of split.now.net.now split.now.parts.now) }
    requires node_blocks { AreNodeBlocks split.now.net.now (length split.now.parts.now.blocks.items)
        split.now.node_blocks.now }
    requires node { w < nodes split.now.net.now }
    ensures { IsSpot (whole_of split.now.net.now split.now.parts.now) w result.0 result.1 }
{
    let block = split.node_blocks[w] as usize;
    (block, w - split.parts.firsts[block])
}

/// Labels the nodes of a block that can give the sink more. `first` is the block's first node.
fn mark_block(
    cells: &Cells,
    first: usize,
    labels: &mut [u32],
    order: &mut [u32],
    mut count: usize,
) -> usize
    requires inside { AreNodesWithin cells.now first (length labels.old) }
    requires few { length labels.old ≤ node_limit }
    requires ready { IsNextLabel 1 (found_of labels.old order.old count) }
    ensures grows { Grows 1 (GivesIn cells.now first)
        (found_of labels.old order.old count) (found_of labels.new order.new result) }
    ensures marked { (v : ℕ) → GivesIn cells.now first v → slice_index labels.new v ≤ 1 }
{
    'places: for p in 0..cells.len() {
        if cells.room(p) > 0 {
            count = mark(labels, order, count, (first + p) as u32, 1);
        }
    }
    count
}

/// Labels the nodes that can give the sink more: block by block, so that no node's block is looked
/// up.
fn mark_rooms(state: &State, labels: &mut [u32], order: &mut [u32]) -> usize
    requires len { length labels.old ≡ nodes state.now.net }
    requires order_len { length order.old ≡ nodes state.now.net }
    ensures limits { IsNet state.now.net }
    ensures starts { AreStarts state.now.net state.now.rooms (nodes state.now.net)
        (found_of labels.new order.new result) }
{
    labels.fill(top_label(state.net().graph()));
    let parts = state.parts();
    let mut count = 0;
    'each: for b in 0..parts.blocks.len() {
        count = mark_block(&parts.blocks[b], parts.firsts[b], labels, order, count);
    }
    count
}

/// Labels the node that a direction within the block leads to, where the opposite direction can
/// carry more. `first` is the block's first node.
fn mark_lane(
    cells: &Cells,
    first: usize,
    j: usize,
    labels: &mut [u32],
    order: &mut [u32],
    count: usize,
    label: u32,
) -> usize
    requires place { j < length cells.now.lanes }
    requires opposite { (lane_in cells.now j).opposite < length cells.now.lanes }
    requires node { first + (lane_in cells.now j).far < length labels.old }
    requires few { length labels.old ≤ node_limit }
    requires ready { IsNextLabel label (found_of labels.old order.old count) }
    ensures grows { Grows label
        (λ u. (u ≡ first + (lane_in cells.now j).far)
        × (0 < (lane_in cells.now (lane_in cells.now j).opposite).residual))
        (found_of labels.old order.old count) (found_of labels.new order.new result) }
    ensures marked { 0 < (lane_in cells.now (lane_in cells.now j).opposite).residual →
        slice_index labels.new (first + (lane_in cells.now j).far) ≤ label }
{
    let lane = cells.lane(j);
    let v = first + lane.far as usize;
    if labels[v] as usize == labels.len() + 2 && cells.lane(lane.opposite as usize).residual > 0 {
        mark(labels, order, count, v as u32, label)
    } else {
        count
    }
}

/// Labels the nodes of the node's block that have a residual direction to it.
fn mark_lanes(
    split: &Split<'_>,
    at: Spot,
    labels: &mut [u32],
    order: &mut [u32],
    mut count: usize,
    label: u32,
) -> usize
    requires laid { IsLaid (whole_of split.now.net.now split.now.parts.now) }
    requires spot { IsSpot (whole_of split.now.net.now split.now.parts.now)
        at.node at.block at.place }
    requires len { length labels.old ≡ nodes split.now.net.now }
    requires ready { IsNextLabel label (found_of labels.old order.old count) }
    ensures grows { Grows label
        (HasResidualLane split.now.net.now
        (state_shown (whole_of split.now.net.now split.now.parts.now)).lanes at.node)
        (found_of labels.old order.old count) (found_of labels.new order.new result) }
    ensures marked { AreNeighboursLabelled (whole_of split.now.net.now split.now.parts.now)
        false at.node label
        labels.new }
{
    let cells = &split.parts.blocks[at.block];
    let first = split.parts.firsts[at.block];
    let range = cells.range(at.place);
    for j in range.0..range.1 {
        count = mark_lane(cells, first, j, labels, order, count, label);
    }
    count
}

/// Labels the node of a block that a direction to another block leaves, where it can carry more.
/// `first` is the block's first node.
fn mark_border(
    cells: &Cells,
    first: usize,
    j: usize,
    labels: &mut [u32],
    order: &mut [u32],
    count: usize,
    label: u32,
) -> usize
    requires place { j < length cells.now.borders }
    requires node { first + (border_in cells.now j).near < length labels.old }
    requires few { length labels.old ≤ node_limit }
    requires ready { IsNextLabel label (found_of labels.old order.old count) }
    ensures grows { Grows label
        (λ u. (u ≡ first + (border_in cells.now j).near) × (0 < (border_in cells.now j).residual))
        (found_of labels.old order.old count) (found_of labels.new order.new result) }
    ensures marked { 0 < (border_in cells.now j).residual →
        slice_index labels.new (first + (border_in cells.now j).near) ≤ label }
{
    let border = cells.border(j);
    if border.residual > 0 {
        mark(
            labels,
            order,
            count,
            (first + border.near as usize) as u32,
            label,
        )
    } else {
        count
    }
}

/// Labels the nodes of other blocks that have a residual direction to the node.
fn mark_borders(
    split: &Split<'_>,
    at: Spot,
    labels: &mut [u32],
    order: &mut [u32],
    mut count: usize,
    label: u32,
) -> usize
    requires laid { IsLaid (whole_of split.now.net.now split.now.parts.now) }
    requires spot { IsSpot (whole_of split.now.net.now split.now.parts.now)
        at.node at.block at.place }
    requires len { length labels.old ≡ nodes split.now.net.now }
    requires ready { IsNextLabel label (found_of labels.old order.old count) }
    ensures grows { Grows label
        (HasResidualLane split.now.net.now
        (state_shown (whole_of split.now.net.now split.now.parts.now)).lanes at.node)
        (found_of labels.old order.old count) (found_of labels.new order.new result) }
    ensures marked { AreNeighboursLabelled (whole_of split.now.net.now split.now.parts.now)
        true at.node label
        labels.new }
{
    let parts = split.parts;
    let cells = &parts.blocks[at.block];
    let range = cells.border_range(at.place);
    for j in range.0..range.1 {
        let border = cells.border(j);
        let to = border.to as usize;
        let opposite = border.opposite as usize;
        let first = parts.firsts[to];
        count = mark_border(
            &parts.blocks[to],
            first,
            opposite,
            labels,
            order,
            count,
            label,
        );
    }
    count
}

/// Labels the nodes that have a residual direction to the node, one above its label, where there is
/// one block: a node's place there is its number, and no direction comes from another block.
fn mark_within(
    split: &Split<'_>,
    labels: &mut [u32],
    order: &mut [u32],
    count: usize,
    w: usize,
) -> usize
    requires laid { IsLaid (whole_of split.now.net.now split.now.parts.now) }
    requires one { length split.now.parts.now.blocks.items ≡ 1 }
    requires node { w < nodes split.now.net.now }
    requires len { length labels.old ≡ nodes split.now.net.now }
    requires ready { IsNextLabel (slice_index labels.old w + 1)
        (found_of labels.old order.old count) }
    ensures grows { Grows (slice_index labels.old w + 1)
        (HasResidualLane split.now.net.now
        (state_shown (whole_of split.now.net.now split.now.parts.now)).lanes w)
        (found_of labels.old order.old count) (found_of labels.new order.new result) }
    ensures marked { (v : ℕ) →
        HasResidualLane split.now.net.now
        (state_shown (whole_of split.now.net.now split.now.parts.now)).lanes w v →
        slice_index labels.new v ≤ slice_index labels.old w + 1 }
{
    let at = Spot {
        node: w,
        block: 0,
        place: w,
    };
    let label = labels[w] + 1;
    mark_lanes(split, at, labels, order, count, label)
}

/// Labels the nodes that have a residual direction to the node, one above its label.
fn mark_into(
    split: &Split<'_>,
    labels: &mut [u32],
    order: &mut [u32],
    count: usize,
    w: usize,
) -> usize
    requires laid { IsLaid (whole_of split.now.net.now split.now.parts.now) }
    requires node_blocks { AreNodeBlocks split.now.net.now (length split.now.parts.now.blocks.items)
        split.now.node_blocks.now }
    requires node { w < nodes split.now.net.now }
    requires len { length labels.old ≡ nodes split.now.net.now }
    requires ready { IsNextLabel (slice_index labels.old w + 1)
        (found_of labels.old order.old count) }
    ensures grows { Grows (slice_index labels.old w + 1)
        (HasResidualLane split.now.net.now
        (state_shown (whole_of split.now.net.now split.now.parts.now)).lanes w)
        (found_of labels.old order.old count) (found_of labels.new order.new result) }
    ensures marked { (v : ℕ) →
        HasResidualLane split.now.net.now
        (state_shown (whole_of split.now.net.now split.now.parts.now)).lanes w v →
        slice_index labels.new v ≤ slice_index labels.old w + 1 }
{
    let found = spot_of(split, w);
    let at = Spot {
        node: w,
        block: found.0,
        place: found.1,
    };
    let label = labels[w] + 1;
    let count = mark_lanes(split, at, labels, order, count, label);
    mark_borders(split, at, labels, order, count, label)
}

/// Writes the exact label of each node: a breadth-first search backwards from the sink over what
/// the blocks hold (Goldberg, Tarjan 1988, section 3). `node_blocks` tells the block of each node,
/// and `order` is room for the search: the nodes that reach the sink come first in it, the nearest
/// first. Takes no memory.
pub(crate) fn write_exact(state: &State, node_blocks: &[u8], labels: &mut [u32], order: &mut [u32])
    requires node_blocks { AreNodeBlocks state.now.net state.now.blocks node_blocks.now }
    requires len { length labels.old ≡ nodes state.now.net }
    requires order_len { length order.old ≡ nodes state.now.net }
    ensures exact { AreExact state.now labels.new }
    ensures order { IsLabelOrder labels.new order.new }
{
    let split = Split {
        net: state.net(),
        parts: state.parts(),
        node_blocks,
    };
    let mut count = mark_rooms(state, labels, order);
    let mut next = 0;
    if split.parts.blocks.len() == 1 {
        'within: while next < count {
            let w = order[next] as usize;
            count = mark_within(&split, labels, order, count, w);
            next += 1;
        }
        return;
    }
    'search: while next < count {
        let w = order[next] as usize;
        count = mark_into(&split, labels, order, count, w);
        next += 1;
    }
}
