//! Nets with a source and a sink.
ghost use Rattle.std.specs.Prelude.{◌≡◌, ◌↔◌, ◌+◌, ◌<◌, IsTrue, sum, sum_by, All, MatchOption};
ghost use Rattle.flow_network.specs.Cut.{network_of, nodes, AreExtras, IsArc, IsNet};

use crate::{Arc, CAPACITY_LIMIT, Graph, NODE_LIMIT};
use std::marker::Model;

/// A net with a source and a sink: what the source can send each node, what each node can send
/// the sink, and the arcs between nodes.
///
/// It keeps that there are as many numbers for sinks as for sources, at most `NODE_LIMIT` nodes,
/// arcs between nodes that are there, and capacities of at most `CAPACITY_LIMIT` together. The
/// source and the sink are no nodes (Boykov, Veksler, Zabih 2001, section 4: their t-links are the
/// numbers for sources and sinks, their n-links the arcs).
#[derive(Drop)]
pub struct Net {
    graph: Graph,
    sources: Vec<u64>,
    sinks: Vec<u64>,
}

impl Model for Net {
    ghost use Rattle.std.specs.Prelude.{◌≡◌};
    ghost use Rattle.flow_network.specs.Cut.{Network};

    ghost Value = { Network };

    ghost view = { λ n. n.graph };

    ghost invariant = { λ n. record {
      sources : n.sources.items ≡ n.graph.sources;
      sinks : n.sinks.items ≡ n.graph.sinks;
    } };
}

/// Whether each arc leads between nodes.
fn arcs_fit(nodes: usize, arcs: &[Arc]) -> bool
    ensures { IsTrue result ↔ All (IsArc nodes) arcs.now }
{
    for arc in arcs {
        if nodes <= arc.from as usize || nodes <= arc.to as usize {
            return false;
        }
    }
    true
}

/// What room is left after the numbers.
fn room_after(room: u64, numbers: &[u64]) -> Option<u64>
    ensures { MatchOption result (room < sum numbers.now) (λ rest. rest + sum numbers.now ≡ room) }
{
    let mut rest = room;
    for number in numbers {
        if rest < *number {
            return None;
        }
        rest -= *number;
    }
    Some(rest)
}

/// What room is left after the capacities of the arcs.
fn room_after_arcs(room: u64, arcs: &[Arc]) -> Option<u64>
    ensures { let all = sum_by (λ arc. arc.capacity) arcs.now in
        MatchOption result (room < all) (λ rest. rest + all ≡ room) }
{
    let mut rest = room;
    for arc in arcs {
        if rest < arc.capacity {
            return None;
        }
        rest -= arc.capacity;
    }
    Some(rest)
}

impl Net {
    /// Whether the lists make a net, the condition of `new`: as many sinks as sources, at most
    /// `NODE_LIMIT` nodes, arcs between nodes that are there, and all capacities together at most
    /// `CAPACITY_LIMIT`. It may be asked of any lists.
    pub fn fits(sources: &[u64], sinks: &[u64], arcs: &[Arc]) -> bool
        ensures { IsTrue result ↔ IsNet (network_of sources.now sinks.now arcs.now) }
    {
        if sinks.len() != sources.len()
            || sources.len() > NODE_LIMIT
            || !arcs_fit(sources.len(), arcs)
        {
            return false;
        }
        let Some(after_sources) = room_after(CAPACITY_LIMIT, sources) else {
            return false;
        };
        let Some(after_sinks) = room_after(after_sources, sinks) else {
            return false;
        };
        room_after_arcs(after_sinks, arcs).is_some()
    }

    /// The net of these lists, for which `fits` says yes: of each node what the source can send
    /// it and what it can send the sink, and the arcs.
    pub fn new(sources: Vec<u64>, sinks: Vec<u64>, arcs: Vec<Arc>) -> Net
        requires { IsNet (network_of sources.items sinks.items arcs.items) }
        ensures { result ≡ network_of sources.items sinks.items arcs.items }
    {
        let graph = Graph::of(&sources, &sinks, arcs);
        Net {
            graph,
            sources,
            sinks,
        }
    }

    /// Whether each node could send the sink so much more: a number for each node, and all
    /// capacities stay together at most `CAPACITY_LIMIT`. It may be asked of any numbers.
    pub fn can_take(&self, more: &[u64]) -> bool
        ensures { IsTrue result ↔ AreExtras self.now more.now }
    {
        if more.len() != self.nodes() {
            return false;
        }
        let Some(after_sources) = room_after(CAPACITY_LIMIT, self.sources()) else {
            return false;
        };
        let Some(after_sinks) = room_after(after_sources, self.sinks()) else {
            return false;
        };
        let Some(after_more) = room_after(after_sinks, more) else {
            return false;
        };
        room_after_arcs(after_more, self.arcs()).is_some()
    }

    /// The arcs, and how many nodes the net has.
    pub fn graph(&self) -> &Graph
        ensures { result.now ≡ self.now }
    {
        &self.graph
    }

    /// The graph, what the source can send each node, and what each node can send the sink.
    pub fn into_parts(self) -> (Graph, Vec<u64>, Vec<u64>)
        ensures graph { result.0 ≡ self }
        ensures sources { result.1.items ≡ self.sources }
        ensures sinks { result.2.items ≡ self.sinks }
    {
        (self.graph, self.sources, self.sinks)
    }

    /// How many nodes the net has. They are numbered from 0.
    pub fn nodes(&self) -> usize
        ensures value { result ≡ nodes self.now }
        ensures limits { IsNet self.now }
    {
        self.graph.nodes()
    }

    /// What the source can send each node, in the order of the nodes.
    pub fn sources(&self) -> &[u64]
        ensures value { result.now ≡ self.now.sources }
        ensures limits { IsNet self.now }
    {
        let _nodes = self.graph.nodes();
        self.sources.as_slice()
    }

    /// What each node can send the sink, in the order of the nodes.
    pub fn sinks(&self) -> &[u64]
        ensures value { result.now ≡ self.now.sinks }
        ensures limits { IsNet self.now }
    {
        let _nodes = self.graph.nodes();
        self.sinks.as_slice()
    }

    /// The arcs, in the order in which they were put in.
    pub fn arcs(&self) -> &[Arc]
        ensures value { result.now ≡ self.now.arcs }
        ensures limits { IsNet self.now }
    {
        self.graph.arcs()
    }
}
