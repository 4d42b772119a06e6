//! The beginning of a phase: one push at each node that the search found.
ghost use Rattle.std.specs.Prelude.{◌≡◌, ◌<◌, ◌≤◌, ℕ, OnOk, length, slice_index};
ghost use Rattle.flow_network.specs.Cut.{nodes, IsNet};
ghost use Rattle.sink_distances.specs.Search.{ListsAllBelow};
ghost use Rattle.plain_cut.specs.State.{IsWork, IsWave, IsPhaseStart};

use crate::pushes::push_all;
use crate::work::{Work, queue_again};
use sink_distances::Outline;
use std::alloc::AllocError;

/// Pushes at each node of the order once, the last first.
fn push_wave(
    net: &Outline,
    work: &mut Work,
    order: &[u32],
    stops: &mut [u32],
) -> Result<(), AllocError>
    requires work { IsWork net.now work.old }
    requires stops { length stops.old ≤ nodes net.now }
    requires order { (i : ℕ) → i < length order.now → slice_index order.now i < nodes net.now }
    ensures wave { OnOk result (IsWave net.now work.old work.new) }
{
    'wave: for place in (0..order.len()).rev() {
        let v = order[place] as usize;
        if work.excess[v] > 0 {
            push_all(net, work, v, stops)?;
        }
    }
    Ok(())
}

/// Begins a phase, where a search has just raised the labels. The nodes that it found are all whose
/// label is below the limit and not 0. It pushes at each of these once, the last first, and queues
/// anew those that still have excess. The other nodes stand aside until the next search.
pub fn begin_phase(
    net: &Outline,
    work: &mut Work,
    found: &[u32],
    limit: u32,
    stops: &mut [u32],
) -> Result<(), AllocError>
    requires limits { IsNet net.now }
    requires work { IsWork net.now work.old }
    requires stops { length stops.old ≤ nodes net.now }
    requires counted { work.old.relabels ≡ 0 }
    requires found { (i : ℕ) → i < length found.now → slice_index found.now i < nodes net.now }
    requires listed { ListsAllBelow net.now work.old.labels.items
        limit found.now (length found.now) }
    ensures phase { OnOk result (IsPhaseStart net.now limit work.old work.new) }
{
    work.queue.clear();
    push_wave(net, work, found, stops)?;
    queue_again(
        &mut work.queue,
        found,
        work.excess.as_slice(),
        work.labels.as_slice(),
        limit,
    )
}
