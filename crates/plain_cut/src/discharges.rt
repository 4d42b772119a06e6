//! The nodes in the queue are discharged, in its order.
ghost use Rattle.std.specs.Prelude.{◌≡◌, ◌+◌, ◌<◌, ◌≤◌, OnOk, length};
ghost use Rattle.std.specs.Prelude.{slice_index};
ghost use Rattle.flow_network.specs.Cut.{nodes};
ghost use Rattle.flow_network.specs.Progress.{top};
ghost use Rattle.plain_cut.specs.State.{work_measure, IsWork, IsQueuedBut, IsSteps};
ghost use Rattle.plain_cut.specs.State.{HasNoExcessBelow};

use crate::pushes::push_all;
use crate::relabels::relabel;
use crate::work::Work;
use sink_distances::Outline;
use std::alloc::{AllocError, Global};

/// Pushes and new labels until the node has no excess, or its label has come to the limit. A node
/// whose label is there already stands aside: it does not push.
pub fn discharge(
    net: &Outline,
    work: &mut Work,
    v: usize,
    limit: u32,
    stops: &mut [u32],
) -> Result<(), AllocError>
    requires work { IsWork net.now work.old }
    requires stops { length stops.old ≤ nodes net.now }
    requires node { v < nodes net.now }
    requires limit { limit ≤ top net.now }
    ensures steps { OnOk result (IsSteps net.now v work.old work.new) }
    ensures done { OnOk result (slice_index work.new.labels.items v < limit →
        slice_index work.new.excess.items v ≡ 0) }
    ensures aside { OnOk result
        (limit ≤ slice_index work.old.labels.items v → work.new ≡ work.old) }
{
    let _nodes = net.nodes();
    'steps: while work.labels[v] < limit {
        push_all(net, work, v, stops)?;
        if work.excess[v] == 0 {
            return Ok(());
        }
        relabel(net, work, v);
    }
    Ok(())
}

/// Discharges the nodes in the order of the queue, until none whose label is below the limit has
/// excess, or there were more than n / 32 new labels, where n is the number of nodes.
pub fn discharge_all(
    net: &Outline,
    work: &mut Work,
    limit: u32,
    stops: &mut [u32],
) -> Result<(), AllocError>
    requires work { IsWork net.now work.old }
    requires stops { length stops.old ≤ nodes net.now }
    requires limit { limit ≤ top net.now }
    requires queued { IsQueuedBut net.now limit (nodes net.now) work.old }
    ensures work { OnOk result (IsWork net.now work.new) }
    ensures counted { OnOk result (work_measure net.now work.new + work.new.relabels ≤
        work_measure net.now work.old + work.old.relabels) }
    ensures done { OnOk result (work.new.relabels ≡ 0 → HasNoExcessBelow net.now limit work.new) }
{
    let most = net.nodes() / 32;
    'discharges: while work.relabels <= most {
        let Some(v) = work.queue.pop_front() else {
            return Ok(());
        };
        discharge(net, work, v as usize, limit, stops)?;
    }
    Ok(())
}
