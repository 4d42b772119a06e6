//! Whether labels are exact, as a block tests for its own nodes.
ghost use Rattle.std.specs.Prelude.{◌≡◌, ◌≢◌, ◌↔◌, ◌⊎◌, ◌+◌, ◌^◌, ◌<◌, ◌≤◌, IsTrue, true, false};
ghost use Rattle.std.specs.Prelude.{length, slice_index, slice_index_or};
ghost use Rattle.flow_network.specs.Cut.{nodes};
ghost use Rattle.block_net.specs.Views.{count, room_in, border_in};
ghost use Rattle.block_net.specs.Whole.{no_block, state_shown};
ghost use Rattle.net_in_blocks.specs.Views.{IsLaid, IsSpot};
ghost use Rattle.global_relabel.specs.Lowering.{whole_in};
ghost use Rattle.global_relabel.specs.Local.{AreLocallyExactIn, IsLeastStep, IsLocallyExact};

use crate::search::Spot;
use block_net::{Border, Cells};
use block_split::Parts;
use block_state::State;
use flow_network::Net;

/// A net and its blocks.
#[derive(Clone, Copy)]
pub(crate) struct NetBlocks<'a> {
    pub(crate) net: &'a Net,
    pub(crate) parts: &'a Parts,
}

/// The number of the node that a direction to another block leads to.
pub(crate) fn far_node(parts: &Parts, border: &Border) -> usize
    requires block { border.now.to < length parts.now.blocks.items }
    requires firsts { length parts.now.firsts.items ≡ length parts.now.blocks.items }
    requires place { border.now.opposite
        < length (slice_index_or parts.now.blocks.items border.now.to no_block).borders }
    requires node { slice_index parts.now.firsts.items border.now.to
        + (border_in (slice_index_or parts.now.blocks.items border.now.to no_block)
        border.now.opposite).near < 2 ^ 32 }
    ensures { result ≡ slice_index parts.now.firsts.items border.now.to
        + (border_in (slice_index_or parts.now.blocks.items border.now.to no_block)
        border.now.opposite).near }
{
    let to = border.to as usize;
    let back = parts.blocks[to].border(border.opposite as usize);
    parts.firsts[to] + back.near as usize
}

/// The least of a number and of one more than a label, where the direction that leads there can
/// carry more.
fn least_step(least: u32, residual: u64, label: u32) -> u32
    ensures below { result ≤ least }
    ensures step { 0 < residual → result ≤ label + 1 }
    ensures reason { (result ≡ least) ⊎ ((0 < residual) × (result ≡ label + 1)) }
{
    if residual > 0 && label < least {
        label + 1
    } else {
        least
    }
}

/// The least of a number and of one more than each label that a residual direction within the block
/// leads to from the node.
fn least_within(split: &NetBlocks<'_>, at: Spot, labels: &[u32], mut least: u32) -> u32
    requires laid { IsLaid (whole_in split.now) }
    requires spot { IsSpot (whole_in split.now) at.node at.block at.place }
    requires len { length labels.now ≡ nodes split.now.net.now }
    ensures { IsLeastStep (state_shown (whole_in split.now)) false labels.now at.node least result }
{
    let cells = &split.parts.blocks[at.block];
    let first = split.parts.firsts[at.block];
    let range = cells.range(at.place);
    'lanes: for j in range.0..range.1 {
        let lane = cells.lane(j);
        let label = labels[first + lane.far as usize];
        least = least_step(least, lane.residual, label);
    }
    least
}

/// The least of a number and of one more than each label that a residual direction to another block
/// leads to from the node.
fn least_beyond(split: &NetBlocks<'_>, at: Spot, labels: &[u32], mut least: u32) -> u32
    requires laid { IsLaid (whole_in split.now) }
    requires spot { IsSpot (whole_in split.now) at.node at.block at.place }
    requires len { length labels.now ≡ nodes split.now.net.now }
    ensures { IsLeastStep (state_shown (whole_in split.now)) true labels.now at.node least result }
{
    let cells = &split.parts.blocks[at.block];
    let range = cells.border_range(at.place);
    'borders: for j in range.0..range.1 {
        let border = cells.border(j);
        let label = labels[far_node(split.parts, &border)];
        least = least_step(least, border.residual, label);
    }
    least
}

/// The label that the sink allows a node: 1 where the node can give it more, else the top one.
fn sink_label(cells: &Cells, place: usize) -> u32
    requires { place < count cells.now }
    ensures below { result ≤ cells.now.top }
    ensures sink { 0 < room_in cells.now place → result ≤ 1 }
    ensures reason { (result ≡ cells.now.top)
        ⊎ ((result ≡ 1) × (0 < room_in cells.now place)) }
{
    let top = cells.top();
    if cells.room(place) > 0 { 1 } else { top }
}

/// Whether a label is the least that is allowed, and either the top one or at least two below it:
/// no path has as many directions as there are nodes and one more.
fn is_label(label: u32, least: u32, top: u32) -> bool
    requires { least ≤ top }
    ensures { IsTrue result ↔ (label ≡ least) × (least + 1 ≢ top) }
{
    label == least && top - least != 1
}

/// Whether the node's label is the one that what lies next to it tells: the least of the top label,
/// of 1 where the node can give the sink, and of one more than each label that a residual direction
/// leads to.
fn is_node_exact(split: &NetBlocks<'_>, at: Spot, labels: &[u32]) -> bool
    requires laid { IsLaid (whole_in split.now) }
    requires spot { IsSpot (whole_in split.now) at.node at.block at.place }
    requires len { length labels.now ≡ nodes split.now.net.now }
    ensures { IsTrue result ↔ IsLocallyExact (state_shown (whole_in split.now)) labels.now at.node }
{
    let cells = &split.parts.blocks[at.block];
    let start = sink_label(cells, at.place);
    let within = least_within(split, at, labels, start);
    let least = least_beyond(split, at, labels, within);
    is_label(labels[at.node], least, cells.top())
}

/// Whether the label of each node of a block is exact by what lies next to the node: by what it can
/// give the sink, and by the labels of the nodes that its residual directions lead to, in the block
/// and in others. Reads the block, the ends of its directions to others, and the labels. Where each
/// block's are, all labels are exact (`local_exactness_is_exactness`).
pub fn is_block_exact(state: &State, block: usize, labels: &[u32]) -> bool
    requires block { block < state.now.blocks }
    requires len { length labels.now ≡ nodes state.now.net }
    ensures { IsTrue result ↔ AreLocallyExactIn state.now labels.now block }
{
    let split = NetBlocks {
        net: state.net(),
        parts: state.parts(),
    };
    let first = split.parts.firsts[block];
    'nodes: for place in 0..split.parts.blocks[block].len() {
        let at = Spot {
            node: first + place,
            block,
            place,
        };
        if !is_node_exact(&split, at, labels) {
            return false;
        }
    }
    true
}
