//! The blocks of a net, made one after another.
ghost use Rattle.std.specs.Prelude.{◌≡◌, IfOk};
ghost use Rattle.flow_network.specs.Cut.{IsNet};
ghost use Rattle.block_split.specs.Split.{CanSplit, firsts_made, rows_made, blocks_made};
ghost use Rattle.block_split.specs.Slots.{IsNetSorted, split_rows};

use crate::by_node::{keys, places_of, rank_directions};
use crate::net_to_split::NetInBlocks;
use crate::node_blocks::node_blocks_of;
use crate::rows::{SortedNet, make_block};
use crate::slots::write_slots;
use block_net::Cells;
use counting_sort::Ranked;
use flow_network::Net;
use std::alloc::{AllocError, Global};

/// The blocks in their order.
fn blocks_of(alloc: Global, sorted: &SortedNet) -> Result<Vec<Cells>, AllocError>
    requires { IsNetSorted sorted.now }
    ensures { IfOk result (λ list. (let split = sorted.now.split in
        list.items ≡ blocks_made split.net.now split.blocks (split_rows split))) }
{
    let blocks = sorted.split.blocks;
    let mut list = Vec::with_capacity(alloc, blocks)?;
    for block in 0..blocks {
        list.push_reserved(make_block(alloc, sorted, block)?);
    }
    Ok(list)
}

/// The blocks of a net, and the slot of each direction.
#[derive(Drop)]
pub(crate) struct MadeBlocks {
    pub blocks: Vec<Cells>,
    pub slots: Vec<u32>,
}

/// The blocks of a net by the first node of each, made one after another. The only error is that
/// memory runs out.
pub(crate) fn make_blocks(
    alloc: Global,
    net: &Net,
    blocks: usize,
    firsts: &[usize],
) -> Result<MadeBlocks, AllocError>
    requires net { IsNet net.now }
    requires split { CanSplit net.now blocks }
    requires firsts { firsts.now ≡ firsts_made net.now blocks }
    ensures slots { IfOk result (λ made. made.slots.items ≡ (rows_made net.now blocks).slots) }
    ensures blocks { IfOk result
        (λ made. made.blocks.items ≡ blocks_made net.now blocks (rows_made net.now blocks)) }
{
    let node_blocks = node_blocks_of(alloc, net, blocks)?;
    let keys = keys(alloc, net, blocks, node_blocks.as_slice())?;
    let Ranked { starts, ranks } = rank_directions(alloc, net, blocks, keys)?;
    let places = places_of(alloc, net, blocks, ranks.as_slice())?;
    let split = NetInBlocks {
        net,
        blocks,
        node_blocks: node_blocks.as_slice(),
        firsts,
        starts: starts.as_slice(),
    };
    let mut slots = ranks;
    write_slots(&split, slots.as_mut_slice());
    let sorted = SortedNet {
        split,
        places: places.as_slice(),
        slots: slots.as_slice(),
    };
    let blocks = blocks_of(alloc, &sorted)?;
    Ok(MadeBlocks { blocks, slots })
}
