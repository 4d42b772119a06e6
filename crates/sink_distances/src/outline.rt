//! A net without its arcs.
ghost use Rattle.std.specs.Prelude.{◌≡◌};
ghost use Rattle.flow_network.specs.Cut.{nodes, with_larger_sinks, AreExtras, IsNet};
ghost use Rattle.flow_network.specs.Progress.{top};
ghost use Rattle.sink_distances.specs.Laid.{laid_net};

use crate::Laid;
use flow_network::Graph;
use std::marker::Model;
use std::snapshot::Snapshot;

/// What tells the whole net of an outline. Only the proof keeps it.
#[derive(Drop)]
enum Shape {
    /// A list of its arcs.
    Listed(Snapshot<Graph>),
    /// Its rows, sources and sinks.
    Standing(Snapshot<Laid>),
    /// Those, and what each node can send the sink more.
    Wider(Snapshot<Laid>, Snapshot<Vec<u64>>),
}

/// How many nodes a net has, without its arcs: what is left of a net whose arcs stand in rows.
///
/// Contracts see the whole net that it is of; only the proof keeps its arcs, sources and sinks.
#[derive(Drop)]
pub struct Outline {
    count: usize,
    shape: Shape,
}

impl Model for Outline {
    ghost use Rattle.std.specs.Prelude.{◌≡◌};
    ghost use Rattle.flow_network.specs.Cut.{Network, nodes, IsNet};

    ghost Value = { Network };

    ghost use Rattle.sink_distances.specs.Shapes.{shape_net};

    ghost view = { λ o. shape_net o.shape };

    ghost invariant = { λ o. record
        { count : o.count ≡ nodes (shape_net o.shape); net : IsNet (shape_net o.shape) } };
}

impl Outline {
    /// The outline of the net.
    pub fn of(net: &Graph) -> Outline
        ensures { result ≡ net.now }
    {
        Outline {
            count: net.nodes(),
            shape: Shape::Listed(Snapshot::of(net)),
        }
    }

    /// The outline of the net that stands in these rows.
    pub fn of_laid(laid: &Laid) -> Outline
        requires { IsNet (laid_net laid.now) }
        ensures { result ≡ laid_net laid.now }
    {
        Outline {
            count: laid.sources.len(),
            shape: Shape::Standing(Snapshot::of(laid)),
        }
    }

    /// The outline of that net in which each node can send the sink so much more.
    pub fn of_wider(laid: &Laid, more: &Vec<u64>) -> Outline
        requires { AreExtras (laid_net laid.now) more.now.items }
        ensures { result ≡ with_larger_sinks (laid_net laid.now) more.now.items }
    {
        Outline {
            count: laid.sources.len(),
            shape: Shape::Wider(Snapshot::of(laid), Snapshot::of(more)),
        }
    }

    /// How many nodes the net has. They are numbered from 0.
    pub fn nodes(&self) -> usize
        ensures value { result ≡ nodes self.now }
        ensures limits { IsNet self.now }
    {
        self.count
    }

    /// The label of a node that is cut off from the sink, as `top_label` tells it.
    pub fn top_label(&self) -> u32
        ensures value { result ≡ top self.now }
        ensures limits { IsNet self.now }
    {
        self.count as u32 + 2
    }
}
