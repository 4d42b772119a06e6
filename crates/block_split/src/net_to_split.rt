//! A net in blocks, and the numbers by which its directions find their slots.
ghost use Rattle.std.specs.Prelude.{◌≡◌, ◌<◌, ◌≤◌};
ghost use Rattle.flow_network.specs.Cut.{nodes};
ghost use Rattle.block_events.specs.States.{block_of};
ghost use Rattle.block_split.specs.Split.{node_blocks_made};

use flow_network::Net;

/// A net that is split into so many blocks, and the numbers by which its directions find their
/// slots.
#[derive(Clone, Copy)]
pub(crate) struct NetInBlocks<'a> {
    pub net: &'a Net,
    pub blocks: usize,
    /// The block of each node.
    pub node_blocks: &'a [u8],
    /// The first node of each block.
    pub firsts: &'a [usize],
    /// Where the directions of each node begin: those within blocks, and after them those to
    /// others.
    pub starts: &'a [u32],
}

/// The block of a node, by the block of each.
pub(crate) fn node_block_of(net: &Net, blocks: usize, node_blocks: &[u8], node: u32) -> usize
    requires node { node < nodes net.now }
    requires some { 1 ≤ blocks }
    requires node_blocks { node_blocks.now ≡ node_blocks_made net.now blocks }
    ensures value { result ≡ block_of net.now blocks node }
    ensures below { result < blocks }
{
    if blocks == 1 {
        return 0;
    }
    node_blocks[node as usize] as usize
}
