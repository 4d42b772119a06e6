//! Passes of turns over all blocks, until none does an event.
ghost use Rattle.std.specs.Prelude.{◌≡◌, ◌+◌, ◌<◌, ◌≤◌, ℕ, IfOk, IsFalse, length};
ghost use Rattle.sums.specs.Sums.{count_if};
ghost use Rattle.block_events.specs.Events.{IsQuiet};
ghost use Rattle.block_events.specs.Soundness.{IsFinished, potential};
ghost use Rattle.block_state.specs.Pieces.{state_in};
ghost use Rattle.cut_in_blocks.specs.Passes.{IsGoing, IsQuietAndHeld, IsStill};

use crate::orders::orders_of;
use crate::turns::turn_of;
use block_discharge::Block;
use block_net::Cells;
use block_split::Parts;
use block_state::{AllWays, Pieces, State};
use flow_network::Net;
use std::alloc::{AllocError, Global};
use std::snapshot::Snapshot;

/// How often at most each block has a turn before labels become exact again.
const PASSES: usize = 3;

/// A turn ends after more new labels than its block has nodes, divided by this.
const NODES_A_RISE: usize = 32;

/// How many events a turn does at most: as many as can be counted, since it is new labels that end
/// a turn here.
const EVENTS: u32 = u32::MAX;

/// A turn of each block over the ways: the ways and the table of places afterwards, and whether
/// some block did an event. Takes no memory.
fn pass(
    old: &Snapshot<Pieces>,
    blocks: &mut Vec<Block>,
    ways: AllWays,
    slots: Vec<u32>,
    arcs: usize,
    limit: u32,
) -> (AllWays, Vec<u32>, bool)
    requires going { IsGoing old.now.value blocks.old.items ways 0 }
    requires ready { IsQuietAndHeld old.now.value }
    requires slots { slots.items ≡ old.now.value.parts.slots.items }
    requires arcs { arcs ≡ length old.now.value.net.arcs }
    requires some { 0 < limit }
    ensures going { (n : ℕ) → IsGoing old.now.value blocks.old.items ways n
        → IsGoing old.now.value blocks.new.items result.0 (n + count_if result.2 1) }
    ensures still { IsFalse result.2 → IsStill old.now.value blocks.old.items ways 0
        → IsStill old.now.value blocks.new.items result.0 (length blocks.new.items) }
    ensures slots { result.1.items ≡ old.now.value.parts.slots.items }
{
    let mut ways = ways;
    let mut slots = slots;
    let mut some = false;
    let count = blocks.len();
    'turns: for b in 0..count {
        let (after, table, events) = turn_of(&mut blocks[b], ways, slots, b, count, arcs, limit);
        ways = after;
        slots = table;
        some = some | (events > 0);
    }
    (ways, slots, some)
}

/// Passes over the blocks until one does no event, at most so many: the ways and the table of
/// places afterwards, and whether some block did an event. Takes no memory.
fn passes(
    old: &Snapshot<Pieces>,
    blocks: &mut Vec<Block>,
    ways: AllWays,
    slots: Vec<u32>,
    arcs: usize,
    limit: u32,
) -> (AllWays, Vec<u32>, bool)
    requires going { IsGoing old.now.value blocks.old.items ways 0 }
    requires ready { IsQuietAndHeld old.now.value }
    requires slots { slots.items ≡ old.now.value.parts.slots.items }
    requires arcs { arcs ≡ length old.now.value.net.arcs }
    requires some { 0 < limit }
    ensures going { IsGoing old.now.value blocks.new.items result.0 (count_if result.2 1) }
    ensures still { IsFalse result.2 → IsStill old.now.value blocks.old.items ways 0
        → IsStill old.now.value blocks.new.items result.0 (length blocks.new.items) }
    ensures slots { result.1.items ≡ old.now.value.parts.slots.items }
{
    let (ways, slots, some) = pass(old, blocks, ways, slots, arcs, limit);
    if !some {
        return (ways, slots, false);
    }
    let (ways, slots) = more_passes(old, blocks, ways, slots, arcs, limit);
    (ways, slots, true)
}

/// Passes over the blocks until one does no event, all but the first. Takes no memory.
fn more_passes(
    old: &Snapshot<Pieces>,
    blocks: &mut Vec<Block>,
    ways: AllWays,
    slots: Vec<u32>,
    arcs: usize,
    limit: u32,
) -> (AllWays, Vec<u32>)
    requires going { IsGoing old.now.value blocks.old.items ways 1 }
    requires ready { IsQuietAndHeld old.now.value }
    requires slots { slots.items ≡ old.now.value.parts.slots.items }
    requires arcs { arcs ≡ length old.now.value.net.arcs }
    requires some { 0 < limit }
    ensures going { IsGoing old.now.value blocks.new.items result.0 1 }
    ensures slots { result.1.items ≡ old.now.value.parts.slots.items }
{
    let mut ways = ways;
    let mut slots = slots;
    'rounds: for _ in 1..PASSES {
        let (after, table, some) = pass(old, blocks, ways, slots, arcs, limit);
        ways = after;
        slots = table;
        if !some {
            return (ways, slots);
        }
    }
    (ways, slots)
}

/// The blocks, in each of which the nodes that have excess and are not cut off wait, with their
/// orders. The only error is that memory runs out.
fn blocks_of(
    alloc: Global,
    cells: Vec<Cells>,
    orders: Vec<Vec<u32>>,
) -> Result<Vec<Block>, AllocError>
    ensures { IfOk result (λ blocks. blocks.items ≡ cells.items) }
{
    let mut orders = orders.into_iter();
    let mut blocks = Vec::with_capacity(alloc, cells.len())?;
    'filling: for each in cells {
        let order = orders.next().unwrap_or(Vec::new(alloc));
        let most_rises = each.len() / NODES_A_RISE;
        blocks.push(Block::with_order(alloc, each, order, most_rises, usize::MAX)?)?;
    }
    Ok(blocks)
}

/// The blocks alone. The only error is that memory runs out.
fn cells_of(alloc: Global, blocks: Vec<Block>) -> Result<Vec<Cells>, AllocError>
    ensures { IfOk result (λ cells. cells.items ≡ blocks.items) }
{
    let mut cells = Vec::with_capacity(alloc, blocks.len())?;
    'emptying: for block in blocks {
        cells.push(block.into_cells())?;
    }
    Ok(cells)
}

/// The state that the pieces make with what the sink got by what the blocks hold. Takes no memory.
fn state_of(old: &Snapshot<Pieces>, net: Net, parts: Parts, ways: AllWays) -> State
    requires ready { IsQuietAndHeld old.now.value }
    requires net { net ≡ old.now.value.net }
    requires firsts { parts.firsts.items ≡ old.now.value.parts.firsts.items }
    requires slots { parts.slots.items ≡ old.now.value.parts.slots.items }
    requires going { IsGoing old.now.value parts.blocks.items ways 0 }
    ensures net { result.net ≡ old.now.value.net }
    ensures lower { (n : ℕ) → IsGoing old.now.value parts.blocks.items ways n
        → potential result + n ≤ potential (state_in old.now.value) }
{
    let mut pieces = Pieces {
        net,
        parts,
        ways,
        got: 0,
    };
    pieces.got = pieces.sink_total();
    pieces.into_state()
}

/// Turns of the blocks, in passes, in which nodes of each block first pass on what they have: of an
/// order the first that have enough for the sink, in reverse, where enough of them have something.
/// Best are the nearest to the sink first. `node_blocks` tells the block of each node. The only
/// error is that memory runs out.
pub(crate) fn work(
    alloc: Global,
    state: State,
    node_blocks: &[u8],
    order: &[u32],
) -> Result<State, AllocError>
    requires quiet { IsQuiet state }
    requires unfinished { ¬ IsFinished state }
    ensures net { IfOk result (λ s. s.net ≡ state.net) }
    ensures less { IfOk result (λ s. potential s < potential state) }
{
    let orders = orders_of(alloc, state.parts(), node_blocks, order)?;
    let arcs = state.arcs();
    let pieces = state.into_pieces();
    let old = Snapshot::of(&pieces);
    let Pieces {
        net,
        parts,
        ways,
        ..
    } = pieces;
    let Parts {
        blocks,
        firsts,
        slots,
    } = parts;
    let mut blocks = blocks_of(alloc, blocks, orders)?;
    let (ways, slots, _) = passes(&old, &mut blocks, ways, slots, arcs, EVENTS);
    let blocks = cells_of(alloc, blocks)?;
    let parts = Parts {
        blocks,
        firsts,
        slots,
    };
    Ok(state_of(&old, net, parts, ways))
}
