//! In which order the nodes pass on their excess after a search.
ghost use Rattle.std.specs.Prelude.{◌≤◌, length};

use block_net::Cells;
use block_split::Parts;
use std::alloc::{AllocError, Global};

/// In a round, the nodes that first pass on what they have together hold this many times what the
/// sink can still take: the rest of what there is hardly gets to the sink.
const SHARE: u64 = 2;

/// One of so many of these nodes at least has something: else to go over them costs more than it
/// gives, and the nodes that wait are discharged straight.
const NODES_A_HOLDER: usize = 16;

/// What a node has, and what it can still give the sink.
#[derive(Clone, Copy)]
struct Holding {
    excess: u64,
    room: u64,
}

/// What nodes hold, by their numbers.
trait Nodes {
    /// What a node holds; none of what is no node.
    fn holding(&self, v: u32) -> Option<Holding>;
}

/// The nodes of one block, numbered from its first.
impl Nodes for Cells {
    fn holding(&self, v: u32) -> Option<Holding> {
        let v = v as usize;
        if v >= self.len() {
            return None;
        }
        Some(Holding {
            excess: self.excess(v),
            room: self.room(v),
        })
    }
}

/// The nodes of blocks, numbered through, and the block of each.
#[derive(Clone, Copy)]
struct Spread<'a> {
    parts: &'a Parts,
    node_blocks: &'a [u8],
}

impl Spread<'_> {
    /// A node's block and its place there; none of what is no node.
    fn spot(&self, v: u32) -> Option<(usize, u32)> {
        let v = v as usize;
        let block = *self.node_blocks.get(v)? as usize;
        let first = *self.parts.firsts.get(block)?;
        Some((block, v.saturating_sub(first) as u32))
    }
}

impl Nodes for Spread<'_> {
    fn holding(&self, v: u32) -> Option<Holding> {
        let (block, place) = self.spot(v)?;
        self.parts.blocks.get(block)?.holding(place)
    }
}

/// What the sink can still take of the nodes of an order, in which those that can give it something
/// stand first.
fn amount_wanted<N: Nodes>(nodes: &N, order: &[u32]) -> u64 {
    let mut wanted = 0u64;
    'nodes: for v in order {
        let Some(Holding { room, .. }) = nodes.holding(*v) else {
            return wanted;
        };
        if room == 0 {
            return wanted;
        }
        wanted = wanted.saturating_add(room);
    }
    wanted
}

/// So many nodes, of which so many have something; none where that is fewer than one in
/// `NODES_A_HOLDER`.
fn worth(near: usize, holders: usize) -> usize
    ensures { result ≤ near }
{
    if holders.saturating_mul(NODES_A_HOLDER) < near {
        return 0;
    }
    near
}

/// How many of the first nodes of an order are to pass on what they have first: those up to the
/// first with which they together have `SHARE` times what the sink can still take, or up to the
/// last that has something; none where few of them have something.
fn near_nodes<N: Nodes>(nodes: &N, order: &[u32]) -> usize
    ensures { result ≤ length order.now }
{
    let enough = amount_wanted(nodes, order).saturating_mul(SHARE);
    if enough == 0 {
        return 0;
    }
    let mut held = 0u64;
    let mut holders = 0;
    let mut near = 0;
    'nodes: for place in 0..order.len() {
        let Some(Holding { excess, .. }) = nodes.holding(order[place]) else {
            return worth(near, holders);
        };
        if excess > 0 {
            held = held.saturating_add(excess);
            holders += 1;
            near = place + 1;
            if held >= enough {
                return worth(near, holders);
            }
        }
    }
    worth(near, holders)
}

/// The order of the one block there is, whose nodes have the same numbers in it as in the net. The
/// only error is that memory runs out.
fn one_order(alloc: Global, cells: &Cells, order: &[u32]) -> Result<Vec<Vec<u32>>, AllocError> {
    let near = near_nodes(cells, order);
    let mut orders = Vec::with_capacity(alloc, 1)?;
    orders.push(Vec::from_slice(alloc, &order[..near])?)?;
    Ok(orders)
}

/// An empty order for each of so many blocks, with room for as many nodes as they have of so many
/// on average. The only error is that memory runs out.
fn empty_orders(alloc: Global, nodes: usize, blocks: usize) -> Result<Vec<Vec<u32>>, AllocError> {
    let mut orders = Vec::with_capacity(alloc, blocks)?;
    'blocks: for b in 0..blocks {
        orders.push(Vec::with_capacity(alloc, nodes / blocks)?)?;
    }
    Ok(orders)
}

/// The nodes of an order, each in that of its block and numbered from the block's first node. The
/// only error is that memory runs out.
fn deal(alloc: Global, spread: &Spread<'_>, order: &[u32]) -> Result<Vec<Vec<u32>>, AllocError> {
    let mut orders = empty_orders(alloc, order.len(), spread.parts.blocks.len())?;
    'nodes: for v in order {
        if let Some((block, place)) = spread.spot(*v) {
            if block < orders.len() {
                orders[block].push(place)?;
            }
        }
    }
    Ok(orders)
}

/// For each block those of its nodes that are to pass on what they have first, from the last on,
/// numbered from the block's first node: of an order of all nodes the first that have enough for
/// the sink, and none where few of them have something. `node_blocks` tells the block of each node.
/// What is no node is passed over. The only error is that memory runs out.
pub(crate) fn orders_of(
    alloc: Global,
    parts: &Parts,
    node_blocks: &[u8],
    order: &[u32],
) -> Result<Vec<Vec<u32>>, AllocError> {
    if parts.blocks.len() == 1 {
        return one_order(alloc, &parts.blocks[0], order);
    }
    let spread = Spread { parts, node_blocks };
    let near = near_nodes(&spread, order);
    deal(alloc, &spread, &order[..near])
}
