//! What the solver changes: the preflow, its excess, the labels and the queue.
ghost use Rattle.std.specs.Prelude.{◌≡◌, ◌+◌, ◌<◌, ◌≤◌, ◌^◌, ℕ, IfOk, OnOk, All, Contains};
ghost use Rattle.std.specs.Prelude.{length, replicate, slice_index};
ghost use Rattle.flow_network.specs.Cut.{nodes, IsNet};
ghost use Rattle.flow_network.specs.Progress.{top};
ghost use Rattle.sink_distances.specs.Distances.{AreDistancesButZeros};
ghost use Rattle.sink_distances.specs.Rows.{IsRows, CarryNothing};
ghost use Rattle.sink_distances.specs.Search.{StandsAmong, ListsAllBelow};
ghost use Rattle.plain_cut.specs.State.{work_flow, IsWork, IsRaised, IsUnlabelled};

use sink_distances::{Aim, Extent, Outline, Rows, raise_labels};
use std::alloc::AllocError;
use std::collections::VecDeque;

/// What the solver changes: a preflow, its excess, the labels, and the nodes that wait in
/// its queue.
#[derive(Drop)]
pub struct Work {
    /// The directions of each node's arcs, and what each can still carry.
    pub rows: Rows,
    /// What each node can still give the sink.
    pub rooms: Vec<u64>,
    /// What each node has got and not passed on.
    pub excess: Vec<u64>,
    /// Of each node at most the number of residual directions that lead to the sink, or
    /// `top_label`; 0 where the node counts as the sink itself.
    pub labels: Vec<u32>,
    /// Nodes that had excess when they came, the one that came first in front.
    pub queue: VecDeque<u32>,
    /// How many new labels there were since all labels were raised by a search.
    pub relabels: usize,
}

/// Queues anew those of the nodes found that have excess and a label below the limit, in their
/// order.
pub fn queue_again(
    queue: &mut VecDeque<u32>,
    found: &[u32],
    excess: &[u64],
    labels: &[u32],
    limit: u32,
) -> Result<(), AllocError>
    requires len { length labels.now ≡ length excess.now }
    requires inside { (i : ℕ) → i < length found.now →
        slice_index found.now i < length excess.now }
    ensures nodes { OnOk result (All (λ v. v < length excess.now) queue.new.items) }
    ensures all { OnOk result ((v : ℕ) → StandsAmong found.now (length found.now) v →
        0 < slice_index excess.now v → slice_index labels.now v < limit →
        Contains queue.new.items v) }
    ensures aside { OnOk result (All (λ v. slice_index labels.now v < limit) queue.new.items) }
{
    queue.clear();
    'nodes: for place in 0..found.len() {
        let v = found[place];
        if excess[v as usize] > 0 && labels[v as usize] < limit {
            queue.push_back(v)?;
        }
    }
    Ok(())
}

/// So many ones, in what the list stood in.
fn ones(list: Vec<u32>, count: usize) -> Result<Vec<u32>, AllocError>
    ensures { IfOk result (λ ones. ones.items ≡ replicate count 1) }
{
    let mut ones = list;
    ones.clear();
    ones.resize(count, 1)?;
    Ok(ones)
}

/// The work at the start: no flow but that of the source, all labels 1, no node queued. It takes
/// the net's rows, sources and sinks over: what the source sends each node is what the node has,
/// and what it can send the sink its room. Labels and queue stand in what these lists stood in.
pub fn start(
    net: &Outline,
    rows: Rows,
    sources: Vec<u64>,
    sinks: Vec<u64>,
    labels: Vec<u32>,
    mut queue: VecDeque<u32>,
) -> Result<Work, AllocError>
    requires rows { IsRows net.now rows }
    requires empty { CarryNothing net.now rows }
    requires sources { sources.items ≡ net.now.sources }
    requires sinks { sinks.items ≡ net.now.sinks }
    ensures work { IfOk result (λ w. IsUnlabelled net.now w) }
    ensures limits { IsNet net.now }
{
    let nodes = net.nodes();
    queue.clear();
    queue.reserve_exact(nodes)?;
    Ok(Work {
        rows,
        rooms: sinks,
        excess: sources,
        labels: ones(labels, nodes)?,
        queue,
        relabels: 0,
    })
}

/// Raises the labels by a search that ends early, as `raise_labels` does: once it has found so many
/// times as much excess as there is room, or never where that is the greatest number. `order` and
/// `found` have one place for each node: the nodes that were found then stand first in `order`, the
/// nearest before the others.
pub fn raise_near(
    net: &Outline,
    work: &mut Work,
    times: u64,
    order: &mut [u32],
    found: &mut [u32],
) -> Extent
    requires limits { IsNet net.now }
    requires work { IsWork net.now work.old }
    requires order { length order.old ≡ nodes net.now }
    requires found { length found.old ≡ nodes net.now }
    ensures raised { IsRaised net.now work.old work.new }
    ensures fits { result.limit ≤ top net.now }
    ensures count { result.count ≤ nodes net.now }
    ensures places { (i : ℕ) → i < result.count → slice_index order.new i < nodes net.now }
    ensures listed { ListsAllBelow net.now work.new.labels.items
        result.limit order.new result.count }
    ensures exact { result.limit ≡ top net.now →
        AreDistancesButZeros net.now (work_flow net.now work.new) work.new.labels.items }
    ensures whole { times + 1 ≡ 2 ^ 64 → result.limit ≡ top net.now }
    ensures counted { work.new.relabels ≡ 0 }
{
    work.relabels = 0;
    let aim = Aim {
        excess: work.excess.as_slice(),
        times,
    };
    raise_labels(
        net,
        &work.rows,
        work.rooms.as_slice(),
        &aim,
        work.labels.as_mut_slice(),
        found,
        order,
    )
}
