//! The block of each node.
ghost use Rattle.std.specs.Prelude.{◌≡◌, ◌+◌, ◌<◌, IfOk};
ghost use Rattle.std.specs.Vec.{vec_len, vec_capacity};
ghost use Rattle.flow_network.specs.Cut.{nodes};
ghost use Rattle.block_events.specs.States.{block_of};
ghost use Rattle.block_net.specs.Whole.{table};
ghost use Rattle.block_split.specs.Split.{CanSplit, first_node, node_blocks_made};

use crate::ends::bounds;
use flow_network::Net;
use std::alloc::{AllocError, Global};

/// The nodes of a block join the list: for each its block.
fn add_node_blocks(net: &Net, blocks: usize, block: usize, node_blocks: &mut Vec<u8>)
    requires split { CanSplit net.now blocks }
    requires block { block < blocks }
    requires made { node_blocks.old.items
        ≡ table (first_node (nodes net.now) blocks block) (block_of net.now blocks) }
    requires len { vec_len node_blocks.old ≡ first_node (nodes net.now) blocks block }
    requires room { vec_capacity node_blocks.old ≡ nodes net.now }
    ensures made { node_blocks.new.items
        ≡ table (first_node (nodes net.now) blocks (block + 1)) (block_of net.now blocks) }
    ensures len { vec_len node_blocks.new ≡ first_node (nodes net.now) blocks (block + 1) }
    ensures room { vec_capacity node_blocks.new ≡ nodes net.now }
{
    let (first, next) = bounds(net, blocks, block);
    for _node in first..next {
        node_blocks.push_reserved(block as u8);
    }
}

/// The block of each node of a net in so many blocks, one byte a node: the nodes of a block follow
/// one another, so that none is divided. The only error is that memory runs out.
pub fn node_blocks_of(alloc: Global, net: &Net, blocks: usize) -> Result<Vec<u8>, AllocError>
    requires { CanSplit net.now blocks }
    ensures { IfOk result (λ node_blocks. node_blocks.items ≡ node_blocks_made net.now blocks) }
{
    let mut node_blocks = Vec::with_capacity(alloc, net.nodes())?;
    for block in 0..blocks {
        add_node_blocks(net, blocks, block, &mut node_blocks);
    }
    Ok(node_blocks)
}
