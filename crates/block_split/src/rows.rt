//! The directions of a block, made where each comes in the order of all directions.
ghost use Rattle.std.specs.Prelude.{◌≡◌, ◌<◌, ◌≤◌, All, IfOk, length, slice_index};
ghost use Rattle.block_events.specs.Directions.{IsDirection, near, far, opposite};
ghost use Rattle.block_events.specs.Soundness.{first_residual};
ghost use Rattle.block_split.specs.Split.{CanSplit, directions, direction_in, entry_of, rows_of};
ghost use Rattle.block_split.specs.Split.{span};
ghost use Rattle.block_split.specs.Split.{node_blocks_made, lane_made, lanes_made, border_made};
ghost use Rattle.block_split.specs.Split.{borders_made, block_rows, block_made};
ghost use Rattle.block_split.specs.Slots.{IsNetSorted, split_rows};

use crate::by_node::outer_starts;
use crate::ends::{bounds, direction_at, far, near};
use crate::net_to_split::{NetInBlocks, node_block_of};
use crate::opening::block_at_opening;
use block_events::Direction;
use block_net::{Border, Cells, CompactBorder, InnerLane};
use flow_network::Net;
use std::alloc::{AllocError, Global};

/// A net that is split, with its directions in the order of the nodes that they leave, as indices
/// of the table of slots, and with the slot of each.
#[derive(Clone, Copy)]
pub(crate) struct SortedNet<'a> {
    pub split: NetInBlocks<'a>,
    pub places: &'a [u32],
    pub slots: &'a [u32],
}

/// The directions of the nodes from one on to another, as indices of the table of slots.
fn span<'a>(starts: &[u32], places: &'a [u32], first: usize, next: usize) -> &'a [u32]
    requires first { first < length starts.now }
    requires next { next < length starts.now }
    requires order { slice_index starts.now first ≤ slice_index starts.now next }
    requires within { slice_index starts.now next ≤ length places.now }
    ensures { result.now ≡ span (rows_of starts.now places.now) first next }
{
    &places[starts[first] as usize..starts[next] as usize]
}

/// What a direction can carry before any flow.
fn first_residual(net: &Net, direction: Direction) -> u64
    requires { IsDirection net.now direction }
    ensures { result ≡ first_residual net.now direction }
{
    if direction.back {
        0
    } else {
        net.arcs()[direction.arc].capacity
    }
}

/// The slot of the opposite direction.
fn opposite_slot(net: &Net, slots: &[u32], direction: Direction) -> u32
    requires direction { IsDirection net.now direction }
    requires room { length slots.now ≡ directions net.now }
    ensures { result ≡ entry_of net.now slots.now (opposite direction) }
{
    if direction.back {
        slots[direction.arc]
    } else {
        slots[net.arcs().len() + direction.arc]
    }
}

/// A direction within the block whose first node this is.
fn lane_at(net: &Net, slots: &[u32], first: usize, direction: Direction) -> InnerLane
    requires direction { IsDirection net.now direction }
    requires room { length slots.now ≡ directions net.now }
    requires far { first ≤ far net.now direction }
    ensures { result ≡ lane_made net.now slots.now first direction }
{
    InnerLane {
        residual: first_residual(net, direction),
        far: (far(net, direction) as usize - first) as u32,
        opposite: opposite_slot(net, slots, direction),
    }
}

/// A direction to another block, from the block whose first node this is.
fn border_at(
    split: &NetInBlocks,
    slots: &[u32],
    first: usize,
    direction: Direction,
) -> CompactBorder
    requires can_split { CanSplit split.now.net.now split.now.blocks }
    requires node_blocks { split.now.node_blocks.now
        ≡ node_blocks_made split.now.net.now split.now.blocks }
    requires direction { IsDirection split.now.net.now direction }
    requires room { length slots.now ≡ directions split.now.net.now }
    requires near { first ≤ near split.now.net.now direction }
    ensures { result ≡ border_made split.now.net.now split.now.blocks slots.now first direction }
{
    let net = split.net;
    CompactBorder::of(Border {
        direction,
        near: (near(net, direction) as usize - first) as u32,
        to: node_block_of(net, split.blocks, split.node_blocks, far(net, direction)) as u32,
        opposite: opposite_slot(net, slots, direction),
        capacity: net.arcs()[direction.arc].capacity,
        residual: first_residual(net, direction),
        known: 0,
        flight: None,
    })
}

/// Directions within the block whose first node this is.
fn lanes_of(
    alloc: Global,
    net: &Net,
    slots: &[u32],
    first: usize,
    indices: &[u32],
) -> Result<Vec<InnerLane>, AllocError>
    requires room { length slots.now ≡ directions net.now }
    requires small { All (λ i. i < directions net.now) indices.now }
    requires far { All (λ i. first ≤ far net.now (direction_in net.now i)) indices.now }
    ensures { IfOk result (λ lanes.
        lanes.items ≡ lanes_made net.now slots.now first indices.now) }
{
    let arcs = net.arcs().len();
    let mut lanes = Vec::with_capacity(alloc, indices.len())?;
    for index in indices {
        let direction = direction_at(arcs, *index as usize);
        lanes.push_reserved(lane_at(net, slots, first, direction));
    }
    Ok(lanes)
}

/// Directions to other blocks, from the block whose first node this is.
fn borders_of(
    alloc: Global,
    split: &NetInBlocks,
    slots: &[u32],
    first: usize,
    indices: &[u32],
) -> Result<Vec<CompactBorder>, AllocError>
    requires can_split { CanSplit split.now.net.now split.now.blocks }
    requires node_blocks { split.now.node_blocks.now
        ≡ node_blocks_made split.now.net.now split.now.blocks }
    requires room { length slots.now ≡ directions split.now.net.now }
    requires small { All (λ i. i < directions split.now.net.now) indices.now }
    requires near { All (λ i. first ≤ near split.now.net.now (direction_in split.now.net.now i))
        indices.now }
    ensures { IfOk result (λ borders. borders.items
        ≡ borders_made split.now.net.now split.now.blocks slots.now first indices.now) }
{
    let arcs = split.net.arcs().len();
    let mut borders = Vec::with_capacity(alloc, indices.len())?;
    for index in indices {
        let direction = direction_at(arcs, *index as usize);
        borders.push_reserved(border_at(split, slots, first, direction));
    }
    Ok(borders)
}

/// The directions within a block.
fn inner_of(alloc: Global, sorted: &SortedNet, block: usize) -> Result<Vec<InnerLane>, AllocError>
    requires sorted { IsNetSorted sorted.now }
    requires block { block < sorted.now.split.blocks }
    ensures { IfOk result (λ lanes. (let split = sorted.now.split in
        lanes.items ≡ (block_rows split.net.now split.blocks (split_rows split) block).lanes)) }
{
    let net = sorted.split.net;
    let (first, next) = bounds(net, sorted.split.blocks, block);
    let inner = span(sorted.split.starts, sorted.places, first, next);
    let lanes = lanes_of(alloc, net, sorted.slots, first, inner)?;
    Ok(lanes)
}

/// The directions from a block to others.
fn outer_of(
    alloc: Global,
    sorted: &SortedNet,
    block: usize,
) -> Result<Vec<CompactBorder>, AllocError>
    requires sorted { IsNetSorted sorted.now }
    requires block { block < sorted.now.split.blocks }
    ensures { IfOk result (λ borders. (let split = sorted.now.split in
        borders.items ≡ (block_rows split.net.now split.blocks (split_rows split) block).borders)) }
{
    let net = sorted.split.net;
    let (first, next) = bounds(net, sorted.split.blocks, block);
    let starts = outer_starts(net, sorted.split.starts);
    let outer = span(starts, sorted.places, first, next);
    let borders = borders_of(alloc, &sorted.split, sorted.slots, first, outer)?;
    Ok(borders)
}

/// A block as it is at the opening.
pub(crate) fn make_block(
    alloc: Global,
    sorted: &SortedNet,
    block: usize,
) -> Result<Cells, AllocError>
    requires sorted { IsNetSorted sorted.now }
    requires block { block < sorted.now.split.blocks }
    ensures { IfOk result (λ cells. (let split = sorted.now.split in
        cells ≡ block_made split.net.now split.blocks (split_rows split) block)) }
{
    let NetInBlocks {
        net,
        blocks,
        starts,
        ..
    } = sorted.split;
    let lanes = inner_of(alloc, sorted, block)?;
    let borders = outer_of(alloc, sorted, block)?;
    let cells = block_at_opening(alloc, net, blocks, starts, block, lanes, borders)?;
    Ok(cells)
}
