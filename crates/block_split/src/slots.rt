//! The slots of directions.
ghost use Rattle.std.specs.Prelude.{◌≡◌, ◌<◌, ◌≤◌, cond, slice_index};
ghost use Rattle.flow_network.specs.Limits.{node_limit};
ghost use Rattle.flow_network.specs.Cut.{nodes};
ghost use Rattle.block_events.specs.Directions.{IsDirection};
ghost use Rattle.block_events.specs.States.{is_border};
ghost use Rattle.block_split.specs.Split.{directions, ranks_made, base_for, near_first};
ghost use Rattle.block_split.specs.Slots.{AreNumbersMade, split_rows};

use crate::ends::{direction_at, leads_out, near};
use crate::net_to_split::{NetInBlocks, node_block_of};
use block_events::Direction;

/// The first node of the block that a direction leaves.
fn near_first(split: &NetInBlocks, direction: Direction) -> usize
    requires numbers { AreNumbersMade split.now }
    requires direction { IsDirection split.now.net.now direction }
    ensures value { result ≡ near_first split.now.net.now split.now.blocks direction }
    ensures within { result ≤ nodes split.now.net.now }
{
    let node = near(split.net, direction);
    let node_block = node_block_of(split.net, split.blocks, split.node_blocks, node);
    split.firsts[node_block]
}

/// After how many starts those of a direction's kind begin: of directions to other blocks after
/// those within blocks.
fn starts_before(split: &NetInBlocks, direction: Direction) -> usize
    requires numbers { AreNumbersMade split.now }
    requires direction { IsDirection split.now.net.now direction }
    ensures value { result
        ≡ cond (is_border split.now.net.now split.now.blocks direction)
        (nodes split.now.net.now) 0 }
    ensures within { result ≤ nodes split.now.net.now }
    ensures few { nodes split.now.net.now ≤ node_limit }
{
    let nodes = split.net.nodes();
    if leads_out(split.net, split.blocks, split.node_blocks, direction) {
        nodes
    } else {
        0
    }
}

/// Where the directions begin that leave the block of a direction's node, and lead to another block
/// just as it does.
fn base_for(split: &NetInBlocks, direction: Direction) -> u32
    requires numbers { AreNumbersMade split.now }
    requires direction { IsDirection split.now.net.now direction }
    ensures { result ≡ base_for split.now.net.now split.now.blocks direction }
{
    let before = starts_before(split, direction);
    let first = near_first(split, direction);
    split.starts[before + first]
}

/// The rank of the direction at an index becomes its slot.
pub(crate) fn write_slot(split: &NetInBlocks, index: usize, slot: &mut u32)
    requires numbers { AreNumbersMade split.now }
    requires index { index < directions split.now.net.now }
    requires rank { slot.old ≡ slice_index (ranks_made split.now.net.now split.now.blocks) index }
    ensures { slot.new ≡ slice_index (split_rows split.now).slots index }
{
    let base = base_for(split, direction_at(split.net.arcs().len(), index));
    *slot -= base;
}

/// The ranks of all directions become their slots.
pub(crate) fn write_slots(split: &NetInBlocks, slots: &mut [u32])
    requires numbers { AreNumbersMade split.now }
    requires ranks { slots.old ≡ ranks_made split.now.net.now split.now.blocks }
    ensures { slots.new ≡ (split_rows split.now).slots }
{
    for index in 0..slots.len() {
        write_slot(split, index, &mut slots[index]);
    }
}
