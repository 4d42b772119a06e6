//! A block at the opening.
ghost use Rattle.std.specs.Prelude.{◌≡◌, ◌+◌, ◌-◌, ◌<◌, ◌≤◌, ℕ, IfOk, length, replicate};
ghost use Rattle.std.specs.Prelude.{slice_index, slice_range};
ghost use Rattle.flow_network.specs.Limits.{node_limit};
ghost use Rattle.flow_network.specs.Cut.{nodes};
ghost use Rattle.block_split.specs.Split.{CanSplit, starts_from, starts_made, rows_made};
ghost use Rattle.block_split.specs.Split.{block_rows, block_made};

use crate::by_node::outer_starts;
use crate::ends::bounds;
use block_net::{Cells, CompactBorder, InnerLane, Nodes};
use flow_network::Net;
use std::alloc::{AllocError, Global};

/// The starts of the nodes from one on to another, counted from the first.
fn starts_from(
    alloc: Global,
    starts: &[u32],
    first: usize,
    next: usize,
) -> Result<Vec<u32>, AllocError>
    requires order { first ≤ next }
    requires within { next < length starts.now }
    requires grow { (v : ℕ) → first ≤ v → v ≤ next
        → slice_index starts.now first ≤ slice_index starts.now v }
    requires small { next ≤ node_limit }
    ensures { IfOk result (λ list. list.items ≡ starts_from starts.now first next) }
{
    let count = next - first + 1;
    let mut list = Vec::with_capacity(alloc, count)?;
    for node in 0..count {
        list.push_reserved(starts[first + node] - starts[first]);
    }
    Ok(list)
}

/// The nodes from one on to another: each has what its source sends it, and the label 0.
fn nodes_from(alloc: Global, net: &Net, first: usize, next: usize) -> Result<Nodes, AllocError>
    requires order { first ≤ next }
    requires within { next ≤ nodes net.now }
    requires same { length net.now.sinks ≡ nodes net.now }
    ensures excess { IfOk result
        (λ made. made.excess.items ≡ slice_range net.now.sources first next) }
    ensures labels { IfOk result (λ made. made.labels.items ≡ replicate (next - first) 0) }
    ensures rooms { IfOk result (λ made. made.rooms.items ≡ slice_range net.now.sinks first next) }
{
    Ok(Nodes {
        excess: net.sources()[first..next].to_vec(alloc)?,
        labels: vec![in alloc; 0; next - first]?,
        rooms: net.sinks()[first..next].to_vec(alloc)?,
    })
}

/// A block of a net as it is at the opening, with the directions that leave its nodes: each node
/// has what its source sends it.
pub(crate) fn block_at_opening(
    alloc: Global,
    net: &Net,
    blocks: usize,
    starts: &[u32],
    block: usize,
    lanes: Vec<InnerLane>,
    borders: Vec<CompactBorder>,
) -> Result<Cells, AllocError>
    requires split { CanSplit net.now blocks }
    requires starts { starts.now ≡ starts_made net.now blocks }
    requires block { block < blocks }
    requires lanes { lanes.items
        ≡ (block_rows net.now blocks (rows_made net.now blocks) block).lanes }
    requires borders { borders.items
        ≡ (block_rows net.now blocks (rows_made net.now blocks) block).borders }
    ensures { IfOk result (λ cells.
        cells ≡ block_made net.now blocks (rows_made net.now blocks) block) }
{
    let (first, next) = bounds(net, blocks, block);
    let nodes = nodes_from(alloc, net, first, next)?;
    let border_starts = starts_from(alloc, outer_starts(net, starts), first, next)?;
    let starts = starts_from(alloc, starts, first, next)?;
    let cells = Cells::new(
        alloc,
        net.nodes() as u32 + 2,
        nodes,
        starts,
        lanes,
        border_starts,
        borders,
    )?;
    Ok(cells)
}
