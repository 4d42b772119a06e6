//! Nets from tables, and their states in blocks.
ghost use Rattle.block_split.specs.Split.{CanSplit};

use crate::rows::{hold, take_ok};
use block_net::{ARC_LIMIT, BLOCK_LIMIT};
use block_split::Parts;
use flow_network::{Arc, Net};
use parcel::Core;
use std::alloc::{AllocError, Global};
use std::process::Abort;

/// The node that an arc leaves, the node that it enters, and its capacity.
pub type Row = (u32, u32, u64);

/// The arcs of these rows.
pub fn arcs_of(alloc: Global, rows: &[Row]) -> Result<Vec<Arc>, AllocError> {
    let mut arcs = Vec::new(alloc);
    for (from, to, capacity) in rows {
        arcs.push(Arc {
            from: *from,
            to: *to,
            capacity: *capacity,
        })?;
    }
    Ok(arcs)
}

/// The net of these lists, which have to fit.
pub fn net_of(
    rt: &(impl Abort + AllocGlobal),
    sources: &[u64],
    sinks: &[u64],
    rows: &[Row],
) -> Net {
    let alloc = rt.alloc();
    let arcs = take_ok(rt, arcs_of(alloc, rows));
    let sources = take_ok(rt, Vec::from_slice(alloc, sources));
    let sinks = take_ok(rt, Vec::from_slice(alloc, sinks));
    hold(
        rt,
        Net::fits(sources.as_slice(), sinks.as_slice(), arcs.as_slice()),
    );
    Net::new(sources, sinks, arcs)
}

/// Ends the test where a net cannot be split into so many blocks.
pub fn hold_split(rt: &impl Abort, net: &Net, blocks: usize)
    ensures { CanSplit net.now blocks }
{
    hold(rt, 1 <= blocks);
    hold(rt, blocks <= BLOCK_LIMIT);
    hold(rt, net.arcs().len() <= ARC_LIMIT);
}

/// The opening state of a net in so many blocks, in which it has to fit.
pub fn core_of(rt: &(impl Abort + AllocGlobal), net: &Net, blocks: usize) -> Core {
    hold_split(rt, net, blocks);
    take_ok(rt, Core::open(rt.alloc(), net, blocks))
}

/// The parts of a net in so many blocks.
pub fn parts_of(rt: &(impl Abort + AllocGlobal), net: &Net, blocks: usize) -> Parts {
    hold_split(rt, net, blocks);
    take_ok(rt, Parts::split(rt.alloc(), net, blocks))
}
