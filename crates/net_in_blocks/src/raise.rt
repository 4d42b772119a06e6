//! Exact labels for all nodes of a net in blocks.
ghost use Rattle.std.specs.Prelude.{◌≡◌, ◌+◌, ◌<◌, ℕ, false, List, length};
ghost use Rattle.flow_network.specs.Cut.{nodes};
ghost use Rattle.flow_network.specs.Progress.{top};
ghost use Rattle.block_events.specs.Reach.{AreExact};
ghost use Rattle.block_events.specs.Directions.{IsDirection};
ghost use Rattle.block_events.specs.Effects.{blocks_with_known_labels};
ghost use Rattle.net_in_blocks.specs.Raising.{bare, IsCutOff, IsLowered, IsStableAt, IsStableAlong};
ghost use Rattle.net_in_blocks.specs.Raising.{IsStableAcross};
ghost use Rattle.net_in_blocks.specs.Raising.{IsStable};
ghost use Rattle.net_in_blocks.specs.Views.{AreLabels};

use crate::blocks::Blocks;
use block_events::Direction;

impl Blocks {
    /// A node that can give the sink gets the label 1, where its label is above; whether it was.
    fn lower_node(&mut self, v: usize) -> bool
        requires { v < nodes self.old.net }
        ensures lowered { IsLowered self.old self.new result }
        ensures stable { result ≡ false → IsStableAt self.old v }
    {
        if self.room(v) == 0 || self.label(v) <= 1 {
            return false;
        }
        self.relabel(v, 1);
        true
    }

    /// The near end of a residual direction gets the label of the far end and 1, where its label is
    /// above; whether it was.
    fn lower_along(&mut self, direction: Direction) -> bool
        requires { IsDirection self.old.net direction }
        ensures lowered { IsLowered self.old self.new result }
        ensures stable { result ≡ false → IsStableAlong self.old direction }
    {
        let near = self.near(direction);
        let far = self.far(direction);
        let label = self.label(far);
        if self.lane(direction).residual == 0 || self.label(near) as u64 <= label as u64 + 1 {
            return false;
        }
        self.relabel(near, label + 1);
        true
    }

    /// Labels come down by what the nodes can give the sink; whether any did.
    fn lower_nodes(&mut self) -> bool
        ensures lowered { IsLowered self.old self.new result }
        ensures stable { result ≡ false → (v : ℕ) → v < nodes self.old.net → IsStableAt self.old v }
    {
        let mut lowered = false;
        'nodes: for v in 0..self.nodes() {
            if self.lower_node(v) {
                lowered = true;
            }
        }
        lowered
    }

    /// Labels come down along the directions of an arc; whether any did.
    fn lower_arc(&mut self, arc: usize) -> bool
        requires { arc < length self.old.net.arcs }
        ensures lowered { IsLowered self.old self.new result }
        ensures stable { result ≡ false → IsStableAcross self.old arc }
    {
        let forward = self.lower_along(Direction { arc, back: false });
        let backward = self.lower_along(Direction { arc, back: true });
        forward || backward
    }

    /// Labels come down along the directions; whether any did.
    fn lower_arcs(&mut self) -> bool
        ensures lowered { IsLowered self.old self.new result }
        ensures stable { result ≡ false → (k : ℕ) → k < length self.old.net.arcs
            → IsStableAcross self.old k }
    {
        let mut lowered = false;
        'arcs: for arc in 0..self.arcs() {
            if self.lower_arc(arc) {
                lowered = true;
            }
        }
        lowered
    }

    /// Labels come down once over; whether any did.
    fn lower_all(&mut self) -> bool
        ensures lowered { IsLowered self.old self.new result }
        ensures stable { result ≡ false → IsStable self.old }
    {
        let nodes = self.lower_nodes();
        let arcs = self.lower_arcs();
        nodes || arcs
    }

    /// Each label becomes the top one.
    fn cut_off(&mut self)
        ensures { IsCutOff self.old self.new }
    {
        let top = self.nodes() as u32 + 2;
        'nodes: for v in 0..self.nodes() {
            self.relabel(v, top);
        }
    }

    /// Each label becomes the exact one, by passes from the top label down until none changes.
    /// Takes no memory (Bellman 1958; Goldberg, Tarjan 1988, section 2).
    fn find_labels(&mut self)
        ensures rest { self.new ≡ record self.old { labels = self.new.labels } }
        ensures exact { AreExact (bare self.old) self.new.labels }
    {
        self.cut_off();
        'passes: while self.lower_all() {}
    }

    /// Each direction to another block knows the label of its far end: one pass over the directions
    /// between blocks.
    fn tell_all(&mut self)
        ensures { self.new ≡ blocks_with_known_labels self.old }
    {
        'each: for block in 0..self.count() {
            self.tell_from(block);
        }
    }

    /// Each node gets the label that is told, block by block.
    fn set_labels(&mut self, labels: &[u32])
        requires { AreLabels self.old labels.now }
        ensures { self.new ≡ record self.old { labels = labels.now } }
    {
        'each: for block in 0..self.count() {
            self.relabel_block(block, labels);
        }
    }

    /// Each node gets the label that is told, and each direction to another block knows that of its
    /// far end.
    pub fn raise_to(&mut self, labels: &[u32])
        requires { AreLabels self.old labels.now }
        ensures { self.new ≡ blocks_with_known_labels (record self.old { labels = labels.now }) }
    {
        self.set_labels(labels);
        self.tell_all();
    }

    /// Each label becomes the exact one, and each direction to another block knows that of its far
    /// end.
    pub fn raise(&mut self)
        ensures { (labels : List ℕ) × AreExact (bare self.old) labels
            × (self.new ≡ blocks_with_known_labels (record self.old { labels = labels })) }
    {
        self.find_labels();
        self.tell_all();
    }
}
