//! What each arc carries, read from the blocks.
ghost use Rattle.std.specs.Prelude.{◌≡◌, ◌+◌, ◌-◌, ◌*◌, ◌<◌, ℕ, IfOk, length, slice_index};
ghost use Rattle.flow_network.specs.Cut.{nodes};
ghost use Rattle.flow_network.specs.Preflow.{flow_by, arc_at};
ghost use Rattle.block_events.specs.Directions.{backward};
ghost use Rattle.block_events.specs.States.{room_of, residual_of};
ghost use Rattle.block_events.specs.Soundness.{IsSound};
ghost use Rattle.block_events.specs.Flows.{shown_flow};
ghost use Rattle.global_relabel.specs.NodeBlocks.{AreNodeBlocks};

use block_split::Parts;
use block_state::State;
use flow_network::Net;
use global_relabel::write_node_blocks;
use std::alloc::{AllocError, Global};

/// What a node can still give the sink, by the table of blocks.
fn room_at(state: &State, node_blocks: &[u8], v: usize) -> u64
    requires node_blocks { AreNodeBlocks state.now.net state.now.blocks node_blocks.now }
    requires node { v < nodes state.now.net }
    ensures { result ≡ room_of state.now v }
{
    let parts = state.parts();
    let block = node_blocks[v] as usize;
    parts.blocks[block].room(v - parts.firsts[block])
}

/// The blocks of the nodes that an arc leads from and to, by the table of blocks.
fn ends_node_blocks(net: &Net, node_blocks: &[u8], arc: usize) -> (usize, usize)
    requires node_blocks { length node_blocks.now ≡ nodes net.now }
    requires arc { arc < length net.now.arcs }
    ensures from { result.0 ≡ slice_index node_blocks.now (arc_at net.now arc).from }
    ensures to { result.1 ≡ slice_index node_blocks.now (arc_at net.now arc).to }
{
    let ends = net.arcs()[arc];
    (
        node_blocks[ends.from as usize] as usize,
        node_blocks[ends.to as usize] as usize,
    )
}

/// The place of an arc's direction back in the block of the node that the arc leads to.
fn back_slot(net: &Net, parts: &Parts, arc: usize) -> usize
    requires slots { length parts.now.slots.items ≡ 2 * length net.now.arcs }
    requires arc { arc < length net.now.arcs }
    ensures { result ≡ slice_index parts.now.slots.items (length net.now.arcs + arc) }
{
    parts.slots[net.arcs().len() + arc] as usize
}

/// What can be taken back of an arc, by the table of blocks.
fn taken_back(state: &State, node_blocks: &[u8], arc: usize) -> u64
    requires node_blocks { AreNodeBlocks state.now.net state.now.blocks node_blocks.now }
    requires arc { arc < length state.now.net.arcs }
    ensures { result ≡ residual_of state.now (backward arc) }
{
    let parts = state.parts();
    let (from, to) = ends_node_blocks(state.net(), node_blocks, arc);
    let slot = back_slot(state.net(), parts, arc);
    let cells = &parts.blocks[to];
    if from == to {
        cells.lane(slot).residual
    } else {
        cells.border(slot).residual
    }
}

/// What can be taken back of each arc, by the table of blocks.
fn write_flow_between(state: &State, node_blocks: &[u8], arc_flow: &mut [u64])
    requires node_blocks { AreNodeBlocks state.now.net state.now.blocks node_blocks.now }
    requires len { length arc_flow.old ≡ length state.now.net.arcs }
    ensures { (k : ℕ) → k < length state.now.net.arcs →
        slice_index arc_flow.new k ≡ residual_of state.now (backward k) }
{
    'arcs: for arc in 0..state.arcs() {
        arc_flow[arc] = taken_back(state, node_blocks, arc);
    }
}

/// What can be taken back of an arc, where there is one block.
fn taken_back_within(state: &State, arc: usize) -> u64
    requires one { state.now.blocks ≡ 1 }
    requires arc { arc < length state.now.net.arcs }
    ensures { result ≡ residual_of state.now (backward arc) }
{
    let parts = state.parts();
    let slot = back_slot(state.net(), parts, arc);
    parts.blocks[0].lane(slot).residual
}

/// What can be taken back of each arc, where there is one block, which no node is asked for.
fn write_flow_within(state: &State, arc_flow: &mut [u64])
    requires one { state.now.blocks ≡ 1 }
    requires len { length arc_flow.old ≡ length state.now.net.arcs }
    ensures { (k : ℕ) → k < length state.now.net.arcs →
        slice_index arc_flow.new k ≡ residual_of state.now (backward k) }
{
    'arcs: for arc in 0..state.arcs() {
        arc_flow[arc] = taken_back_within(state, arc);
    }
}

/// What can be taken back of each arc.
fn write_arc_flow(state: &State, node_blocks: &[u8], arc_flow: &mut [u64])
    requires node_blocks { AreNodeBlocks state.now.net state.now.blocks node_blocks.now }
    requires len { length arc_flow.old ≡ length state.now.net.arcs }
    ensures { (k : ℕ) → k < length state.now.net.arcs →
        slice_index arc_flow.new k ≡ residual_of state.now (backward k) }
{
    if state.blocks() == 1 {
        write_flow_within(state, arc_flow);
    } else {
        write_flow_between(state, node_blocks, arc_flow);
    }
}

/// What each node gave the sink.
fn write_sink_flow(state: &State, node_blocks: &[u8], sink_flow: &mut [u64])
    requires node_blocks { AreNodeBlocks state.now.net state.now.blocks node_blocks.now }
    requires len { length sink_flow.old ≡ nodes state.now.net }
    ensures sound { IsSound state.now }
    ensures sinks { (v : ℕ) → v < nodes state.now.net →
        slice_index sink_flow.new v ≡ slice_index state.now.net.sinks v - room_of state.now v }
{
    let sinks = state.net().sinks();
    'nodes: for v in 0..state.nodes() {
        sink_flow[v] = sinks[v] - room_at(state, node_blocks, v);
    }
}

/// The flow that the state shows, where no message is on the way: what each arc carries, and what
/// each node gave the sink.
///
/// Refuses only where memory runs out.
pub fn flow_of(alloc: Global, state: &State) -> Result<(Vec<u64>, Vec<u64>), AllocError>
    ensures { IfOk result (λ flow. flow_by flow.0.items flow.1.items ≡ shown_flow state.now) }
{
    let mut node_blocks = vec![in alloc; 0u8; state.nodes()]?;
    write_node_blocks(state, node_blocks.as_mut_slice());
    let mut arc_flow = vec![in alloc; 0u64; state.arcs()]?;
    let mut sink_flow = vec![in alloc; 0u64; state.nodes()]?;
    write_arc_flow(state, node_blocks.as_slice(), arc_flow.as_mut_slice());
    write_sink_flow(state, node_blocks.as_slice(), sink_flow.as_mut_slice());
    Ok((arc_flow, sink_flow))
}
