//! The arcs of a net by themselves.
ghost use Rattle.std.specs.Prelude.{◌≡◌};
ghost use Rattle.flow_network.specs.Cut.{network_of, nodes, IsNet};

use crate::Arc;
use std::marker::Model;
use std::snapshot::Snapshot;

/// The arcs of a net and how many nodes it has, without what the source can send them and what they
/// can send the sink.
///
/// Contracts see the whole net that it is of; only the proof keeps its sources and sinks.
#[derive(Drop)]
pub struct Graph {
    arcs: Vec<Arc>,
    count: usize,
    sources: Snapshot<Vec<u64>>,
    sinks: Snapshot<Vec<u64>>,
}

impl Model for Graph {
    ghost use Rattle.std.specs.Prelude.{◌≡◌, length};
    ghost use Rattle.flow_network.specs.Cut.{Network, network_of, IsNet};

    ghost Value = { Network };

    ghost view = { λ g. network_of g.sources.value.items g.sinks.value.items g.arcs.items };

    ghost invariant = { λ g. record {
      count : g.count ≡ length g.sources.value.items;
      net : IsNet (network_of g.sources.value.items g.sinks.value.items g.arcs.items);
    } };
}

impl Graph {
    /// The graph of the net of these lists.
    pub(crate) fn of(sources: &Vec<u64>, sinks: &Vec<u64>, arcs: Vec<Arc>) -> Graph
        requires { IsNet (network_of sources.now.items sinks.now.items arcs.items) }
        ensures { result ≡ network_of sources.now.items sinks.now.items arcs.items }
    {
        Graph {
            arcs,
            count: sources.len(),
            sources: Snapshot::of(sources),
            sinks: Snapshot::of(sinks),
        }
    }

    /// How many nodes the net has. They are numbered from 0.
    pub fn nodes(&self) -> usize
        ensures value { result ≡ nodes self.now }
        ensures limits { IsNet self.now }
    {
        self.count
    }

    /// The arcs, in the order in which they were put in.
    pub fn arcs(&self) -> &[Arc]
        ensures value { result.now ≡ self.now.arcs }
        ensures limits { IsNet self.now }
    {
        self.arcs.as_slice()
    }

    /// The graph of the net that has these sinks in place of its own. The arcs stay where they
    /// stand.
    pub fn with_sinks(self, sinks: &Vec<u64>) -> Graph
        requires { IsNet (network_of self.sources sinks.now.items self.arcs) }
        ensures { result ≡ network_of self.sources sinks.now.items self.arcs }
    {
        Graph {
            arcs: self.arcs,
            count: self.count,
            sources: self.sources,
            sinks: Snapshot::of(sinks),
        }
    }

    /// The arcs alone, in the order in which they were put in. Their list can be given back as it
    /// is read.
    pub fn into_arcs(self) -> Vec<Arc>
        ensures { result.items ≡ self.arcs }
    {
        self.arcs
    }
}
