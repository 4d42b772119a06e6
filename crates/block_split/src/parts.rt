//! A net split into blocks.
ghost use Rattle.std.specs.Prelude.{◌≡◌, ◌<◌, IfOk};
ghost use Rattle.flow_network.specs.Cut.{IsNet};
ghost use Rattle.block_split.specs.Split.{CanSplit, IsSplit, firsts_made};

use crate::ends::first_of;
use crate::one_by_one::{MadeBlocks, make_blocks};
use crate::side_by_side::make_blocks_by;
use block_net::Cells;
use flow_network::Net;
use std::alloc::{AllocError, Global};
use std::thread::Threads;

/// The fewest nodes of a net whose blocks several threads make: in smaller nets one thread has made
/// them before others have started.
const SHARED_NODES: usize = 1 << 14;

/// A net in blocks, as it is at the opening.
#[derive(Drop)]
pub struct Parts {
    /// The blocks.
    pub blocks: Vec<Cells>,
    /// The first node of each block.
    pub firsts: Vec<usize>,
    /// The place of each direction in the block of the node that it leaves, among the directions
    /// within the block or among those to other blocks: first of all arcs from tail to head, then
    /// of all arcs back.
    pub slots: Vec<u32>,
}

/// The first node of each block.
fn firsts_of(alloc: Global, net: &Net, blocks: usize) -> Result<Vec<usize>, AllocError>
    requires { CanSplit net.now blocks }
    ensures firsts { IfOk result (λ firsts. firsts.items ≡ firsts_made net.now blocks) }
    ensures limits { IsNet net.now }
{
    let nodes = net.nodes();
    let mut firsts = Vec::with_capacity(alloc, blocks)?;
    for block in 0..blocks {
        firsts.push_reserved(first_of(nodes, blocks, block));
    }
    Ok(firsts)
}

impl Parts {
    /// The net in this many blocks, 1 to `BLOCK_LIMIT`, where it has at most `ARC_LIMIT` arcs: node
    /// i of n in block i * blocks / n. There may be more blocks than nodes; then some have no node.
    ///
    /// Takes time linear in the number of nodes, arcs and blocks. While it lasts it takes 9 bytes a
    /// node and 8 an arc more than it leaves. Refuses only where memory runs out.
    pub fn split(alloc: Global, net: &Net, blocks: usize) -> Result<Parts, AllocError>
        requires { CanSplit net.now blocks }
        ensures { IfOk result (λ parts. IsSplit net.now blocks
            parts.firsts.items parts.slots.items parts.blocks.items) }
    {
        let firsts = firsts_of(alloc, net, blocks)?;
        let MadeBlocks { blocks, slots } = make_blocks(alloc, net, blocks, firsts.as_slice())?;
        Ok(Parts {
            blocks,
            firsts,
            slots,
        })
    }

    /// The same blocks, made side by side by at most so many threads where the net is large. A
    /// thread that the system does not start leaves its blocks to the one that asked for it.
    /// Refuses only where memory runs out.
    pub fn split_by<R: Threads + Sync>(
        rt: &R,
        alloc: Global,
        net: &Net,
        blocks: usize,
        threads: usize,
    ) -> Result<Parts, AllocError>
        requires split { CanSplit net.now blocks }
        requires threads { 0 < threads }
        ensures { IfOk result (λ parts. IsSplit net.now blocks
            parts.firsts.items parts.slots.items parts.blocks.items) }
    {
        if threads == 1 || blocks == 1 || net.nodes() < SHARED_NODES {
            return Parts::split(alloc, net, blocks);
        }
        let firsts = firsts_of(alloc, net, blocks)?;
        let MadeBlocks { blocks, slots } = make_blocks_by(
            rt,
            alloc,
            net,
            blocks,
            firsts.as_slice(),
            threads,
        )?;
        Ok(Parts {
            blocks,
            firsts,
            slots,
        })
    }
}
