//! The arcs of a net by the nodes that they leave and enter.
ghost use Rattle.std.specs.Prelude.{◌≡◌, IfOk, map};
ghost use Rattle.sink_distances.specs.Adjacency.{IsAdjacency};

use counting_sort::{Groups, group};
use flow_network::{Arc, Graph};
use std::alloc::{AllocError, Global};

/// The arcs of a net by their nodes, as places of its list of arcs ("forward and reverse star").
#[derive(Drop)]
pub struct Adjacency {
    /// The places of the arcs that leave each node.
    pub out: Groups,
    /// The places of the arcs that enter each node.
    pub into: Groups,
}

/// The node that each arc leaves.
fn tails(alloc: Global, arcs: &[Arc]) -> Result<Vec<u32>, AllocError>
    ensures { IfOk result (λ nodes. nodes.items ≡ map (λ arc. arc.from) arcs.now) }
{
    arcs.iter().map(|arc| arc.from).collect(alloc)
}

/// The node that each arc enters.
fn heads(alloc: Global, arcs: &[Arc]) -> Result<Vec<u32>, AllocError>
    ensures { IfOk result (λ nodes. nodes.items ≡ map (λ arc. arc.to) arcs.now) }
{
    arcs.iter().map(|arc| arc.to).collect(alloc)
}

/// The arcs of the net by the node that each leaves, and by the node that each enters.
///
/// The list of the nodes that arcs leave is given back before that of the nodes that they enter is
/// made.
///
/// Refuses only where memory runs out; a net of 2^32 arcs or more counts as that.
pub fn arcs_by_node(alloc: Global, net: &Graph) -> Result<Adjacency, AllocError>
    ensures { IfOk result (λ adjacency. IsAdjacency net.now adjacency) }
{
    let tails = tails(alloc, net.arcs())?;
    let out = group(alloc, net.nodes(), tails.as_slice())?;
    drop(tails);
    let heads = heads(alloc, net.arcs())?;
    let into = group(alloc, net.nodes(), heads.as_slice())?;
    Ok(Adjacency { out, into })
}
