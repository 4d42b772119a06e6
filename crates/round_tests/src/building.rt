//! Nets from tables, and their states in blocks with exact labels.
use crate::rows::{hold, take_ok};
use block_net::{ARC_LIMIT, BLOCK_LIMIT};
use block_state::State;
use flow_network::{Arc, Net};
use global_relabel::raise_all;
use std::alloc::{AllocError, Global};
use std::process::Abort;

/// The node that an arc leaves, the node that it enters, and its capacity.
type Row = (u32, u32, u64);

/// The net of these lists, which have to fit.
fn net_of(rt: &impl Abort, sources: Vec<u64>, sinks: Vec<u64>, arcs: Vec<Arc>) -> Net {
    hold(
        rt,
        Net::fits(sources.as_slice(), sinks.as_slice(), arcs.as_slice()),
    );
    Net::new(sources, sinks, arcs)
}

/// The arcs of these rows.
fn arcs_of(alloc: Global, rows: &[Row]) -> Result<Vec<Arc>, AllocError> {
    let mut arcs = Vec::new(alloc);
    for (from, to, capacity) in rows {
        arcs.push(Arc {
            from: *from,
            to: *to,
            capacity: *capacity,
        })?;
    }
    Ok(arcs)
}

/// The net of these tables, which have to fit.
pub fn net_of_rows(
    rt: &(impl Abort + AllocGlobal),
    sources: &[u64],
    sinks: &[u64],
    rows: &[Row],
) -> Net {
    let alloc = rt.alloc();
    let arcs = take_ok(rt, arcs_of(alloc, rows));
    let sources = take_ok(rt, Vec::from_slice(alloc, sources));
    let sinks = take_ok(rt, Vec::from_slice(alloc, sinks));
    net_of(rt, sources, sinks, arcs)
}

/// An arc of capacity 4 from the first of two nodes to the second.
const ONE_ARC: &[Row] = &[(0, 1, 4)];

/// Two nodes, of which the first gets 4 and the second 1, the second can give the sink 3, and an
/// arc of capacity 4 leads from the first to the second.
pub fn two_nodes(rt: &(impl Abort + AllocGlobal)) -> Net {
    net_of_rows(rt, &[4, 1], &[0, 3], ONE_ARC)
}

/// And such that get nothing.
pub fn idle_nodes(rt: &(impl Abort + AllocGlobal)) -> Net {
    net_of_rows(rt, &[0, 0], &[0, 3], ONE_ARC)
}

/// From node 5 to each of the nodes 0 to 4.
const FAN: &[Row] = &[(5, 0, 1), (5, 1, 1), (5, 2, 1), (5, 3, 1), (5, 4, 1)];

/// Ten nodes, of which node 5 gets 5 and can pass 1 to each of the nodes 0 to 4, each of which can
/// give the sink 1.
pub fn fan(rt: &(impl Abort + AllocGlobal)) -> Net {
    net_of_rows(
        rt,
        &[0, 0, 0, 0, 0, 5, 0, 0, 0, 0],
        &[1, 1, 1, 1, 1, 0, 0, 0, 0, 0],
        FAN,
    )
}

/// Three nodes: an arc leads from node 0 to node 1, one from node 2 to node 0, a unit goes from the
/// source to node 2, and from node 0 to the sink.
pub fn between_two(rt: &(impl Abort + AllocGlobal)) -> Net {
    net_of_rows(rt, &[0, 0, 1], &[1, 0, 0], &[(0, 1, 1), (2, 0, 1)])
}

/// A unit at each of these nodes, of so many.
fn units_at(alloc: Global, nodes: usize, places: &[usize]) -> Result<Vec<u64>, AllocError> {
    let mut units = vec![in alloc; 0; nodes]?;
    for place in places {
        if let Some(unit) = units.get_mut(*place) {
            *unit = 1;
        }
    }
    Ok(units)
}

/// Arcs of capacity 1, as many as are told: from a node to a node, from the next to the next, and
/// so on.
fn add_steps(arcs: &mut Vec<Arc>, from: u32, to: u32, count: u32) -> Result<(), AllocError> {
    for j in 0..count {
        arcs.push(Arc {
            from: from.saturating_add(j),
            to: to.saturating_add(j),
            capacity: 1,
        })?;
    }
    Ok(())
}

/// The arcs of one way over two halves of so many nodes, from the first half to the second and back
/// at each step.
fn way_over(alloc: Global, half: u32) -> Result<Vec<Arc>, AllocError> {
    let mut arcs = Vec::new(alloc);
    add_steps(&mut arcs, 0, half, half)?;
    add_steps(&mut arcs, half, 1, half.saturating_sub(1))?;
    Ok(arcs)
}

/// The net of these arcs over so many nodes: a unit goes from the source to each of the first
/// places, and from each of the others to the sink.
fn net_of_units(
    rt: &(impl Abort + AllocGlobal),
    nodes: usize,
    sources: &[usize],
    sinks: &[usize],
    arcs: Result<Vec<Arc>, AllocError>,
) -> Net {
    let sources = take_ok(rt, units_at(rt.alloc(), nodes, sources));
    let sinks = take_ok(rt, units_at(rt.alloc(), nodes, sinks));
    net_of(rt, sources, sinks, take_ok(rt, arcs))
}

/// 4,096 nodes and one way from the first to the last, which crosses the border of two blocks 4,095
/// times: a unit goes from the source to the first node, and from the last to the sink.
pub fn long_way(rt: &(impl Abort + AllocGlobal)) -> Net {
    net_of_units(rt, 4_096, &[0], &[4_095], way_over(rt.alloc(), 2_048))
}

/// 64 nodes and such a way, which crosses the border 63 times.
pub fn short_way(rt: &(impl Abort + AllocGlobal)) -> Net {
    net_of_units(rt, 64, &[0], &[63], way_over(rt.alloc(), 32))
}

/// How many nodes a chain has: so many that blocks search labels side by side.
const CHAIN: usize = 65_536;

/// The arcs of a chain, from each node to the next.
fn chain_arcs(alloc: Global) -> Result<Vec<Arc>, AllocError> {
    let mut arcs = Vec::new(alloc);
    add_steps(&mut arcs, 0, 1, 65_535)?;
    Ok(arcs)
}

/// A chain: a unit goes from the source to the first node, and from the last to the sink.
pub fn chain(rt: &(impl Abort + AllocGlobal)) -> Net {
    net_of_units(rt, CHAIN, &[0], &[65_535], chain_arcs(rt.alloc()))
}

/// The same nodes and arcs, where a unit goes from the source to each node.
pub fn full_chain(rt: &(impl Abort + AllocGlobal)) -> Net {
    let alloc = rt.alloc();
    let sources = take_ok(rt, vec![in alloc; 1; CHAIN]);
    let sinks = take_ok(rt, units_at(alloc, CHAIN, &[65_535]));
    net_of(rt, sources, sinks, take_ok(rt, chain_arcs(alloc)))
}

/// The arcs of a way over the nodes 1 to 60, and of one over the nodes 64 to 103, each from node 0.
fn both_ways(alloc: Global) -> Result<Vec<Arc>, AllocError> {
    let mut arcs = Vec::new(alloc);
    add_steps(&mut arcs, 0, 64, 1)?;
    add_steps(&mut arcs, 0, 1, 60)?;
    add_steps(&mut arcs, 64, 65, 39)?;
    Ok(arcs)
}

/// 128 nodes and two ways from node 0, each of which ends with a unit to the sink: a short one over
/// the nodes 64 to 103, and a long one over the nodes 1 to 60. A unit goes from the source to node
/// 0, and one to node 103.
pub fn two_ways(rt: &(impl Abort + AllocGlobal)) -> Net {
    net_of_units(rt, 128, &[0, 103], &[60, 103], both_ways(rt.alloc()))
}

/// The net opened in so many blocks.
pub fn state_opened(rt: &(impl Abort + AllocGlobal), net: &Net, blocks: usize) -> State {
    hold(rt, 1 <= blocks);
    hold(rt, blocks <= BLOCK_LIMIT);
    hold(rt, net.arcs().len() <= ARC_LIMIT);
    take_ok(rt, State::open(rt.alloc(), net, blocks))
}

/// And with exact labels.
pub fn state_raised(rt: &(impl Abort + AllocGlobal), net: &Net, blocks: usize) -> State {
    let mut state = state_opened(rt, net, blocks);
    hold(rt, state.is_quiet());
    take_ok(rt, raise_all(rt.alloc(), &mut state));
    state
}
