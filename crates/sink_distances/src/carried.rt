//! What the arcs of a net carry, read of its rows.
ghost use Rattle.std.specs.Prelude.{◌≡◌, ◌<◌, ℕ, IfOk, length, slice_index};
ghost use Rattle.sink_distances.specs.Rows.{carried_flow, residual_at, second_at, start_at};
ghost use Rattle.sink_distances.specs.Rows.{IsRows, AreNexts};

use crate::Rows;
use crate::filling::take_next;
use flow_network::Graph;
use std::alloc::{AllocError, Global};

/// Reads what each arc carries: the directions stand in each row in the order of the arcs.
fn read_each(net: &Graph, rows: &Rows, nexts: &mut [u32], flow: &mut [u64])
    requires rows { IsRows net.now rows.now }
    requires nexts { AreNexts net.now (start_at rows.now) 0 nexts.old }
    requires len { length flow.old ≡ length net.now.arcs }
    ensures { (k : ℕ) → k < length net.now.arcs →
        slice_index flow.new k ≡ residual_at rows.now (second_at rows.now k) }
{
    let arcs = net.arcs();
    'arcs: for k in 0..arcs.len() {
        let place = take_next(nexts, arcs[k].from);
        take_next(nexts, arcs[k].to);
        flow[k] = rows.back(place as usize);
    }
}

/// What each arc of a net carries, by its rows: what its direction back can carry.
pub fn carried_flows(alloc: Global, net: &Graph, rows: &Rows) -> Result<Vec<u64>, AllocError>
    requires { IsRows net.now rows.now }
    ensures { IfOk result (λ flow. flow.items ≡ carried_flow rows.now) }
{
    let mut nexts = Vec::from_slice(alloc, rows.starts.as_slice())?;
    let mut flow = vec![in alloc; 0u64; net.arcs().len()]?;
    read_each(net, rows, nexts.as_mut_slice(), flow.as_mut_slice());
    Ok(flow)
}
