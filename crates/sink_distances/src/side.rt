//! The nodes that reach the sink.
ghost use Rattle.std.specs.Prelude.{◌≡◌, IfOk, length, map, nat_lt, slice_index_or, false};
ghost use Rattle.flow_network.specs.Preflow.{Flow, flow_by, sink_flows, AreRooms, IsReach};
ghost use Rattle.flow_network.specs.Progress.{top};
ghost use Rattle.sink_distances.specs.Distances.{AreDistances};

use crate::{Outline, arcs_by_node, write_distances};
use flow_network::Graph;
use std::alloc::{AllocError, Global};

/// The exact distance of each node to the sink over residual directions, as `write_distances`
/// writes it.
///
/// Refuses only where memory runs out; a net of 2^32 arcs or more counts as that.
pub fn distances(
    alloc: Global,
    net: &Graph,
    arc_flow: &[u64],
    rooms: &[u64],
) -> Result<Vec<u32>, AllocError>
    requires arcs_len { length arc_flow.now ≡ length net.now.arcs }
    requires rooms { AreRooms net.now rooms.now }
    ensures { IfOk result (λ labels.
        AreDistances net.now (flow_by arc_flow.now (sink_flows net.now rooms.now)) labels.items) }
{
    let adjacency = arcs_by_node(alloc, net)?;
    let mut labels = vec![in alloc; 0u32; net.nodes()]?;
    let mut order = vec![in alloc; 0u32; net.nodes()]?;
    write_distances(
        net,
        &adjacency,
        arc_flow,
        rooms,
        labels.as_mut_slice(),
        order.as_mut_slice(),
    );
    Ok(labels)
}

/// The nodes that reach the sink over residual directions: those whose exact distance is below
/// `top_label`. The answer has one bit for each number of `labels`.
///
/// Refuses only where memory runs out.
pub fn sink_side(alloc: Global, net: &Graph, labels: &[u32]) -> Result<Vec<bool>, AllocError>
    ensures bits { IfOk result
        (λ side. side.items ≡ map (λ label. nat_lt label (top net.now)) labels.now) }
    ensures reach { IfOk result (λ side. (flow : Flow) → AreDistances net.now flow labels.now →
        IsReach net.now flow (λ v. slice_index_or side.items v false)) }
{
    side_below(alloc, &Outline::of(net), labels)
}

/// What `sink_side` answers, of a net whose arcs stand in rows.
pub fn side_below(alloc: Global, net: &Outline, labels: &[u32]) -> Result<Vec<bool>, AllocError>
    ensures bits { IfOk result
        (λ side. side.items ≡ map (λ label. nat_lt label (top net.now)) labels.now) }
    ensures reach { IfOk result (λ side. (flow : Flow) → AreDistances net.now flow labels.now →
        IsReach net.now flow (λ v. slice_index_or side.items v false)) }
{
    let top = net.top_label();
    labels.iter().map(|label| *label < top).collect(alloc)
}
