//! The blocks of a net, read and written by node and by direction.
ghost use Rattle.std.specs.Prelude.{IfOk, ◌≡◌, ◌≢◌, ◌↔◌, ◌+◌, ◌*◌, ◌/◌, ◌<◌, ◌≤◌, IsTrue, None, []};
ghost use Rattle.std.specs.Prelude.{length, slice_index};
ghost use Rattle.flow_network.specs.Limits.{node_limit};
ghost use Rattle.flow_network.specs.Cut.{nodes, IsNet};
ghost use Rattle.flow_network.specs.Preflow.{arc_at};
ghost use Rattle.flow_network.specs.Progress.{top};
ghost use Rattle.block_events.specs.declared.message.Message.TheVariants.{Parcel, Accepted};
ghost use Rattle.block_events.specs.declared.message.Message.TheVariants.{Refused};
ghost use Rattle.block_events.specs.Directions.{IsDirection, near, far, opposite};
ghost use Rattle.block_events.specs.States.{lane_at, block_of, is_border};
ghost use Rattle.block_events.specs.Soundness.{amount_out};
ghost use Rattle.block_events.specs.Events.{highest_label};
ghost use Rattle.block_net.specs.Limits.{arc_limit, block_limit};
ghost use Rattle.block_net.specs.Whole.{index_of, is_outer};
ghost use Rattle.block_split.specs.Split.{CanSplit, node_blocks_made, whole_of};
ghost use Rattle.block_events.specs.Effects.{state_of, opening_blocks, blocks_after_sink_push};
ghost use Rattle.block_events.specs.Effects.{blocks_after_relabel, blocks_after_push};
ghost use Rattle.block_events.specs.Effects.{blocks_after_send, blocks_after_accept};
ghost use Rattle.block_events.specs.Effects.{blocks_after_delivery, blocks_after_return};
ghost use Rattle.net_in_blocks.specs.Views.{blocks_in, IsLaid, IsLong, IsSpot, IsRow};
ghost use Rattle.net_in_blocks.specs.Views.{IsInside, IsCrossing, AreLabels, label_near, label_far};
ghost use Rattle.net_in_blocks.specs.Views.{push_amount, sink_amount};
ghost use Rattle.net_in_blocks.specs.ByBlock.{IsToldFrom, IsRelabelled};

use crate::by_block::{label_block, tell_block};
use block_events::{Direction, Lane, Message};
use block_net::opposite_of;
use block_split::{Parts, node_blocks_of};
use flow_network::Net;
use std::alloc::{AllocError, Global};
use std::marker::Model;
use std::thread::Threads;

/// What the blocks of a net hold of its nodes and of its directions.
///
/// Beside the net that is 48 bytes a node (excess and room 8 each, its two starts and the label 4
/// each, and 20 for where it stands in the rows of its block's turns), 40 bytes an arc within a
/// block (of each direction 16, and 4 for its place), and 104 bytes an arc between two blocks (of
/// each direction 48, and 4 for its place).
#[derive(Drop)]
pub struct Blocks {
    net: Net,
    parts: Parts,
}

impl Model for Blocks {
    ghost use Rattle.block_split.specs.Split.{whole_of};
    ghost use Rattle.block_events.specs.Effects.{BlocksView};
    ghost use Rattle.net_in_blocks.specs.Views.{blocks_in, IsLaid};

    ghost Value = { BlocksView };

    ghost view = { λ b. blocks_in (whole_of b.net b.parts) };

    ghost invariant = { λ b. IsLaid (whole_of b.net b.parts) };
}

/// The block of a node of so many nodes.
fn node_block_of(v: usize, nodes: usize, blocks: usize) -> usize
    requires node { v < nodes }
    requires nodes { nodes ≤ node_limit }
    requires blocks { blocks ≤ block_limit }
    ensures { result ≡ (v * blocks) / nodes }
{
    if blocks == 1 {
        return 0;
    }
    v * blocks / nodes
}

/// The same net once more.
pub fn copy_of(alloc: Global, net: &Net) -> Result<Net, AllocError>
    ensures { IfOk result (λ copy. copy ≡ net.now) }
{
    let sources = Vec::from_slice(alloc, net.sources())?;
    let sinks = Vec::from_slice(alloc, net.sinks())?;
    let arcs = Vec::from_slice(alloc, net.arcs())?;
    Ok(Net::new(sources, sinks, arcs))
}

/// The node that a direction leaves.
pub fn near_of(net: &Net, direction: Direction) -> usize
    requires { IsDirection net.now direction }
    ensures value { result ≡ near net.now direction }
    ensures node { result < nodes net.now }
{
    let arc = net.arcs()[direction.arc];
    if direction.back {
        arc.to as usize
    } else {
        arc.from as usize
    }
}

/// The block of a node, and the node's place there.
pub fn spot(net: &Net, parts: &Parts, v: usize) -> (usize, usize)
    requires laid { IsLaid (whole_of net.now parts.now) }
    requires node { v < nodes net.now }
    ensures { IsSpot (whole_of net.now parts.now) v result.0 result.1 }
{
    let block = node_block_of(v, net.nodes(), parts.blocks.len());
    (block, v - parts.firsts[block])
}

/// Where a direction stands in the table of slots.
fn index_of(net: &Net, direction: Direction) -> usize
    requires direction { IsDirection net.now direction }
    requires arcs { length net.now.arcs ≤ arc_limit }
    ensures { result ≡ index_of net.now direction }
{
    if direction.back {
        net.arcs().len() + direction.arc
    } else {
        direction.arc
    }
}

/// The block of the node that a direction leaves, and the direction's slot there.
fn row(net: &Net, parts: &Parts, direction: Direction) -> (usize, usize)
    requires laid { IsLaid (whole_of net.now parts.now) }
    requires direction { IsDirection net.now direction }
    ensures { (let w = whole_of net.now parts.now in
        IsRow w direction (is_outer w direction) result.0 result.1) }
{
    let block = node_block_of(near_of(net, direction), net.nodes(), parts.blocks.len());
    let slot = parts.slots[index_of(net, direction)];
    (block, slot as usize)
}

impl Blocks {
    /// A net in so many blocks before any flow: what the source can send is excess, and all labels
    /// are 0. It takes the net over.
    pub fn open(alloc: Global, net: Net, blocks: usize) -> Result<Blocks, AllocError>
        requires { CanSplit net blocks }
        ensures first { IfOk result (λ b. b ≡ opening_blocks net blocks) }
        ensures limits { IsNet net }
    {
        // Asking the net for a number brings its limits to hand.
        let _nodes = net.nodes();
        let parts = Parts::split(alloc, &net, blocks)?;
        Ok(Blocks { net, parts })
    }

    /// The blocks that `open` answers, made side by side by at most so many threads where the net
    /// is large. A thread that the system does not start leaves its blocks to the one that asked
    /// for it.
    pub fn open_by<R: Threads + Sync>(
        rt: &R,
        alloc: Global,
        net: Net,
        blocks: usize,
        threads: usize,
    ) -> Result<Blocks, AllocError>
        requires split { CanSplit net blocks }
        requires threads { 0 < threads }
        ensures first { IfOk result (λ b. b ≡ opening_blocks net blocks) }
        ensures limits { IsNet net }
    {
        let _nodes = net.nodes();
        let parts = Parts::split_by(rt, alloc, &net, blocks, threads)?;
        Ok(Blocks { net, parts })
    }

    /// The blocks that a net and its parts are.
    pub fn of(net: Net, parts: Parts) -> Blocks
        requires { IsLaid (whole_of net parts) }
        ensures { result ≡ blocks_in (whole_of net parts) }
    {
        Blocks { net, parts }
    }

    /// The net and its parts, which the blocks give up.
    pub fn into_parts(self) -> (Net, Parts)
        ensures view { blocks_in (whole_of result.0 result.1) ≡ self }
        ensures laid { IsLaid (whole_of result.0 result.1) }
    {
        (self.net, self.parts)
    }

    /// The net.
    pub fn net(&self) -> &Net
        ensures { result.now ≡ self.now.net }
    {
        &self.net
    }

    /// The blocks, and where each node and each direction stands in them.
    pub fn parts(&self) -> &Parts
        ensures laid { IsLaid (whole_of self.now.net result.now) }
        ensures shown { blocks_in (whole_of self.now.net result.now) ≡ self.now }
    {
        &self.parts
    }

    /// How many nodes the net has.
    pub fn nodes(&self) -> usize
        ensures value { result ≡ nodes self.now.net }
        ensures long { IsLong self.now }
    {
        self.net.nodes()
    }

    /// How many arcs the net has.
    pub fn arcs(&self) -> usize
        ensures value { result ≡ length self.now.net.arcs }
        ensures long { IsLong self.now }
    {
        self.net.arcs().len()
    }

    /// How many blocks.
    pub fn count(&self) -> usize
        ensures value { result ≡ self.now.blocks }
        ensures some { 1 ≤ result }
        ensures few { result ≤ block_limit }
    {
        self.parts.blocks.len()
    }

    /// The node that a direction leaves.
    pub fn near(&self, direction: Direction) -> usize
        requires { IsDirection self.now.net direction }
        ensures value { result ≡ near self.now.net direction }
        ensures node { result < nodes self.now.net }
    {
        near_of(&self.net, direction)
    }

    /// The node that a direction leads to.
    pub fn far(&self, direction: Direction) -> usize
        requires { IsDirection self.now.net direction }
        ensures value { result ≡ far self.now.net direction }
        ensures node { result < nodes self.now.net }
    {
        self.near(opposite_of(direction))
    }

    /// The block of a node.
    pub fn node_block(&self, v: usize) -> usize
        requires { v < nodes self.now.net }
        ensures value { result ≡ block_of self.now.net self.now.blocks v }
        ensures block { result < self.now.blocks }
    {
        node_block_of(v, self.net.nodes(), self.parts.blocks.len())
    }

    /// The block of each node, one byte a node. The only error is that memory runs out.
    pub fn node_blocks(&self, alloc: Global) -> Result<Vec<u8>, AllocError>
        ensures { IfOk result (λ v. v.items ≡ node_blocks_made self.now.net self.now.blocks) }
    {
        node_blocks_of(alloc, &self.net, self.parts.blocks.len())
    }

    /// Whether a direction leads to another block.
    pub fn is_border(&self, direction: Direction) -> bool
        requires { IsDirection self.now.net direction }
        ensures { result ≡ is_border self.now.net self.now.blocks direction }
    {
        self.node_block(self.near(direction)) != self.node_block(self.far(direction))
    }

    /// What a node got and did not pass on.
    pub fn excess(&self, v: usize) -> u64
        requires { v < nodes self.now.net }
        ensures { result ≡ slice_index self.now.excess v }
    {
        let (block, place) = spot(&self.net, &self.parts, v);
        self.parts.blocks[block].excess(place)
    }

    /// A node's label.
    pub fn label(&self, v: usize) -> u32
        requires { v < nodes self.now.net }
        ensures value { result ≡ slice_index self.now.labels v }
        ensures limit { result ≤ top self.now.net }
        ensures long { IsLong self.now }
    {
        let (block, place) = spot(&self.net, &self.parts, v);
        self.parts.blocks[block].label(place)
    }

    /// What a node can still give the sink.
    pub fn room(&self, v: usize) -> u64
        requires { v < nodes self.now.net }
        ensures { result ≡ slice_index self.now.rooms v }
    {
        let (block, place) = spot(&self.net, &self.parts, v);
        self.parts.blocks[block].room(place)
    }

    /// What the block of its near end holds of a direction.
    pub fn lane(&self, direction: Direction) -> Lane
        requires { IsDirection self.now.net direction }
        ensures { result ≡ lane_at self.now.lanes direction }
    {
        let (block, slot) = row(&self.net, &self.parts, direction);
        let cells = &self.parts.blocks[block];
        if !self.is_border(direction) {
            return Lane {
                residual: cells.lane(slot).residual,
                known: 0,
                flight: None,
            };
        }
        let border = cells.border(slot);
        Lane {
            residual: border.residual,
            known: border.known,
            flight: border.flight,
        }
    }

    /// The highest label that a node may have, by the directions that leave it.
    pub fn highest_label(&self, v: usize) -> u32
        requires { v < nodes self.now.net }
        ensures value { result ≡ highest_label (state_of self.now [] 0) v }
        ensures limit { result ≤ top self.now.net }
    {
        let (block, place) = spot(&self.net, &self.parts, v);
        self.parts.blocks[block].highest_label(place)
    }

    /// Whether excess of an active node can go to the sink, as its block tells.
    pub fn may_give(&self, v: usize) -> bool
        requires { v < nodes self.now.net }
        ensures { IsTrue result ↔ (0 < slice_index self.now.rooms v)
            × (slice_index self.now.labels v ≡ 1) }
    {
        let (block, place) = spot(&self.net, &self.parts, v);
        self.parts.blocks[block].may_give(place)
    }

    /// Whether excess of an active node can go along a direction within its block, as the block
    /// tells.
    pub fn may_push(&self, direction: Direction) -> bool
        requires { IsInside self.now direction }
        ensures { IsTrue result ↔ (0 < (lane_at self.now.lanes direction).residual)
            × (label_near self.now direction ≡ label_far self.now direction + 1) }
    {
        let (_, place) = spot(&self.net, &self.parts, near_of(&self.net, direction));
        let (block, slot) = row(&self.net, &self.parts, direction);
        self.parts.blocks[block].may_push(place, slot)
    }

    /// Whether excess of an active node can leave along a direction to another block, as the node's
    /// block tells.
    pub fn may_send(&self, direction: Direction) -> bool
        requires { IsCrossing self.now direction }
        ensures { IsTrue result ↔ (0 < (lane_at self.now.lanes direction).residual)
            × (label_near self.now direction ≡ (lane_at self.now.lanes direction).known + 1)
            × ((lane_at self.now.lanes direction).flight ≡ None) }
    {
        let (_, place) = spot(&self.net, &self.parts, near_of(&self.net, direction));
        let (block, slot) = row(&self.net, &self.parts, direction);
        self.parts.blocks[block].may_send(place, slot)
    }

    /// Each direction from a block to another knows the label of its far end from now on.
    pub fn tell_from(&mut self, block: usize)
        requires { block < self.old.blocks }
        ensures { IsToldFrom self.old self.new block }
    {
        tell_block(&self.net, &mut self.parts, block);
    }

    /// The nodes of a block get the labels that stand at their numbers in the list.
    pub fn relabel_block(&mut self, block: usize, labels: &[u32])
        requires block { block < self.old.blocks }
        requires labels { AreLabels self.old labels.now }
        ensures { IsRelabelled self.old self.new block labels.now }
    {
        label_block(&self.net, &mut self.parts, block, labels);
    }

    /// Excess of a node goes to the sink: as much as the node can still give it. Answers that
    /// amount.
    pub fn give(&mut self, v: usize) -> u64
        requires { v < nodes self.old.net }
        ensures given { self.new ≡ blocks_after_sink_push self.old v (sink_amount self.old v) }
        ensures amount { result ≡ sink_amount self.old v }
    {
        let (block, place) = spot(&self.net, &self.parts, v);
        self.parts.blocks[block].give(place)
    }

    /// A node gets a label.
    pub fn relabel(&mut self, v: usize, label: u32)
        requires node { v < nodes self.old.net }
        requires limit { label ≤ top self.old.net }
        ensures { self.new ≡ blocks_after_relabel self.old v label }
    {
        let (block, place) = spot(&self.net, &self.parts, v);
        self.parts.blocks[block].relabel(place, label);
    }

    /// Excess of the near end goes along a direction within a block to the far end: as much as the
    /// direction can carry.
    pub fn push(&mut self, direction: Direction)
        requires inner { IsInside self.old direction }
        requires other { near self.old.net direction ≢ far self.old.net direction }
        ensures { self.new ≡ blocks_after_push self.old direction (push_amount self.old direction) }
    {
        let (_, place) = spot(&self.net, &self.parts, near_of(&self.net, direction));
        let (block, slot) = row(&self.net, &self.parts, direction);
        self.parts.blocks[block].push(place, slot);
    }

    /// Excess of the near end leaves along a direction to another block: as much as the direction
    /// can carry. Answers the parcel.
    pub fn send(&mut self, direction: Direction) -> Message
        requires border { IsCrossing self.old direction }
        requires idle { (lane_at self.old.lanes direction).flight ≡ None }
        ensures sent { self.new ≡ blocks_after_send self.old direction
            (push_amount self.old direction) }
        ensures parcel { result ≡ Parcel direction (push_amount self.old direction)
            (label_near self.old direction) }
    {
        let (_, place) = spot(&self.net, &self.parts, near_of(&self.net, direction));
        let (block, slot) = row(&self.net, &self.parts, direction);
        self.parts.blocks[block].send(place, slot)
    }

    /// Whether a parcel with a label, along a direction from another block, is to be taken, as the
    /// far end's block tells.
    pub fn may_accept(&self, direction: Direction, label: u32) -> bool
        requires { IsCrossing self.now direction }
        ensures { IsTrue result ↔ (label_far self.now direction + 1 ≡ label) }
    {
        let (block, slot) = row(&self.net, &self.parts, opposite_of(direction));
        self.parts.blocks[block].may_accept(slot, label)
    }

    /// Whether a parcel with a label, along a direction from another block, is to be sent back, as
    /// the far end's block tells.
    pub fn may_refuse(&self, direction: Direction, label: u32) -> bool
        requires { IsCrossing self.now direction }
        ensures { IsTrue result ↔ (label ≤ label_far self.now direction) }
    {
        let (block, slot) = row(&self.net, &self.parts, opposite_of(direction));
        self.parts.blocks[block].may_refuse(slot, label)
    }

    /// An amount comes along a direction from another block: its far end gets it, and the opposite
    /// direction learns the label that it was sent by, but not while a parcel of its own is out.
    /// Answers that it was taken.
    pub fn accept(&mut self, direction: Direction, amount: u64, label: u32) -> Message
        requires border { IsCrossing self.old direction }
        requires fits { (lane_at self.old.lanes (opposite direction)).residual
            + amount_out (lane_at self.old.lanes (opposite direction)).flight + amount
            ≤ (arc_at self.old.net direction.arc).capacity }
        requires label { label ≤ top self.old.net }
        ensures accepted { self.new ≡ blocks_after_accept self.old direction amount label }
        ensures answer { result ≡ Accepted direction amount }
    {
        let (block, slot) = row(&self.net, &self.parts, opposite_of(direction));
        self.parts.blocks[block].accept(slot, amount, label)
    }

    /// The answer that a parcel along a direction from another block was not taken: with the label
    /// that stands against it.
    pub fn refusal(&self, direction: Direction, amount: u64, label: u32) -> Message
        requires { IsCrossing self.now direction }
        ensures { result ≡ Refused direction amount label (label_far self.now direction) }
    {
        let (block, slot) = row(&self.net, &self.parts, opposite_of(direction));
        self.parts.blocks[block].refusal(slot, amount, label)
    }

    /// The parcel of a direction to another block was taken.
    pub fn deliver_parcel(&mut self, direction: Direction)
        requires { IsCrossing self.old direction }
        ensures { self.new ≡ blocks_after_delivery self.old direction }
    {
        let (block, slot) = row(&self.net, &self.parts, direction);
        self.parts.blocks[block].deliver_parcel(slot);
    }

    /// The parcel of a direction to another block comes back, with the label that stood against it.
    pub fn return_parcel(&mut self, direction: Direction, amount: u64, told: u32)
        requires border { IsCrossing self.old direction }
        requires fits { amount ≤ amount_out (lane_at self.old.lanes direction).flight }
        requires told { told ≤ top self.old.net }
        ensures { self.new ≡ blocks_after_return self.old direction amount told }
    {
        let (block, slot) = row(&self.net, &self.parts, direction);
        self.parts.blocks[block].return_parcel(slot, amount, told);
    }
}
