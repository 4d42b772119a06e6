//! The ends of directions, and the first nodes of blocks.
ghost use Rattle.std.specs.Prelude.{◌≡◌, ◌+◌, ◌*◌, ◌<◌, ◌≤◌, length};
ghost use Rattle.flow_network.specs.Limits.{node_limit};
ghost use Rattle.flow_network.specs.Cut.{nodes, IsNet};
ghost use Rattle.block_events.specs.Directions.{IsDirection, near, far};
ghost use Rattle.block_events.specs.States.{is_border};
ghost use Rattle.block_net.specs.Limits.{block_limit};
ghost use Rattle.block_split.specs.Split.{CanSplit, first_node, node_blocks_made, slot_direction};

use block_events::Direction;
use flow_network::Net;

/// The direction at an index of the table of slots, for so many arcs.
pub(crate) fn direction_at(arcs: usize, index: usize) -> Direction
    ensures { result ≡ slot_direction arcs index }
{
    if index < arcs {
        Direction {
            arc: index,
            back: false,
        }
    } else {
        Direction {
            arc: index - arcs,
            back: true,
        }
    }
}

/// The node that a direction leaves.
pub(crate) fn near(net: &Net, direction: Direction) -> u32
    requires { IsDirection net.now direction }
    ensures value { result ≡ near net.now direction }
    ensures below { result < nodes net.now }
{
    let arc = net.arcs()[direction.arc];
    if direction.back { arc.to } else { arc.from }
}

/// The node that a direction leads to.
pub(crate) fn far(net: &Net, direction: Direction) -> u32
    requires { IsDirection net.now direction }
    ensures value { result ≡ far net.now direction }
    ensures below { result < nodes net.now }
{
    let arc = net.arcs()[direction.arc];
    if direction.back { arc.from } else { arc.to }
}

/// The first node of a block; for the number of blocks, the number of nodes.
pub(crate) fn first_of(nodes: usize, blocks: usize, block: usize) -> usize
    requires nodes { nodes ≤ node_limit }
    requires few { blocks ≤ block_limit }
    requires some { 1 ≤ blocks }
    requires block { block ≤ blocks }
    ensures value { result ≡ first_node nodes blocks block }
    ensures below { result ≤ nodes }
{
    (block * nodes + (blocks - 1)) / blocks
}

/// The first node of a block, and one past its last.
pub(crate) fn bounds(net: &Net, blocks: usize, block: usize) -> (usize, usize)
    requires split { CanSplit net.now blocks }
    requires block { block < blocks }
    ensures first { result.0 ≡ first_node (nodes net.now) blocks block }
    ensures next { result.1 ≡ first_node (nodes net.now) blocks (block + 1) }
    ensures order { result.0 ≤ result.1 }
    ensures within { result.1 ≤ nodes net.now }
    ensures few { nodes net.now ≤ node_limit }
    ensures limits { IsNet net.now }
    ensures same { length net.now.sinks ≡ nodes net.now }
{
    let nodes = net.nodes();
    (
        first_of(nodes, blocks, block),
        first_of(nodes, blocks, block + 1),
    )
}

/// Whether a direction leads to another block, by the block of each node.
pub(crate) fn leads_out(net: &Net, blocks: usize, node_blocks: &[u8], direction: Direction) -> bool
    requires direction { IsDirection net.now direction }
    requires node_blocks { node_blocks.now ≡ node_blocks_made net.now blocks }
    ensures { result ≡ is_border net.now blocks direction }
{
    let tail = near(net, direction);
    let head = far(net, direction);
    if blocks == 1 {
        return false;
    }
    let from = node_blocks[tail as usize];
    let to = node_blocks[head as usize];
    from != to
}
