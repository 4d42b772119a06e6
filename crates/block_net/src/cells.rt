//! A block of a net: its nodes and the directions that leave them.
ghost use Rattle.std.specs.Prelude.{◌≡◌, ◌≢◌, ◌↔◌, IsTrue, ◌+◌, ◌^◌, ◌<◌, ◌≤◌, min, All, IfOk};
ghost use Rattle.std.specs.Prelude.{None, length};
ghost use Rattle.flow_network.specs.Limits.{node_limit};
ghost use Rattle.flow_network.specs.Progress.{top_label};
ghost use Rattle.block_events.specs.declared.message.Message.TheVariants.{Accepted, Refused};
ghost use Rattle.block_events.specs.Directions.{opposite};
ghost use Rattle.block_net.specs.Lists.{cells_of};
ghost use Rattle.block_net.specs.Views.{CellsView, count, excess_in, label_in, room_in, lane_in};
ghost use Rattle.block_net.specs.Views.{border_in, first_lane, first_border, out_of, MayPush};
ghost use Rattle.block_net.specs.Views.{IsBlock};
ghost use Rattle.block_net.specs.Views.{MaySend, cells_after_push, cells_after_sink_push};
ghost use Rattle.block_net.specs.Views.{cells_after_relabel, cells_after_send, cells_after_accept};
ghost use Rattle.block_net.specs.Views.{cells_after_delivery, cells_after_return, cells_with_known};
ghost use Rattle.block_net.specs.Views.{parcel_of, lane_allows, border_allows, highest};

use crate::compact::CompactBorder;
use crate::nodes::Nodes;
use crate::{Border, InnerLane, opposite_of};
use block_events::{Flight, Message};
use node_buckets::Buckets;
use std::alloc::{AllocError, Global};
use std::marker::Model;

/// What a block holds of its nodes and of the directions that leave them.
#[derive(Drop)]
pub struct Cells {
    top: u32,
    excess: Vec<u64>,
    labels: Vec<u32>,
    rooms: Vec<u64>,
    starts: Vec<u32>,
    lanes: Vec<InnerLane>,
    border_starts: Vec<u32>,
    borders: Vec<CompactBorder>,
    /// Room for the rows of its nodes, while no one works with them.
    rows: Option<Buckets>,
}

impl Model for Cells {
    ghost use Rattle.block_net.specs.Views.{CellsView, IsBlock};

    ghost Value = { CellsView };

    ghost use Rattle.block_net.specs.CellsInside.{cells_view};

    ghost view = { cells_view };

    ghost invariant = { λ c. IsBlock (cells_view c) };
}

impl Cells {
    /// A block of its nodes and of the directions that leave them, within the block and to other
    /// blocks, each with the places where those of a node begin. It has room for the rows of its
    /// nodes. Refuses only where memory runs out.
    pub fn new(
        alloc: Global,
        top: u32,
        nodes: Nodes,
        starts: Vec<u32>,
        lanes: Vec<InnerLane>,
        border_starts: Vec<u32>,
        borders: Vec<CompactBorder>,
    ) -> Result<Cells, AllocError>
        requires { IsBlock (cells_of top nodes starts.items lanes.items
            border_starts.items borders.items) }
        ensures { IfOk result (λ cells. cells
            ≡ cells_of top nodes starts.items lanes.items border_starts.items borders.items) }
    {
        let count = nodes.excess.len();
        let rows = Buckets::new(alloc, count, count as u32 + 2)?;
        Ok(Cells {
            top,
            excess: nodes.excess,
            labels: nodes.labels,
            rooms: nodes.rooms,
            starts,
            lanes,
            border_starts,
            borders,
            rows: Some(rows),
        })
    }

    /// The room for the rows of its nodes, where it is there: a bucket for each label up to one
    /// more than there are nodes.
    pub fn take_rows(&mut self) -> Option<Buckets>
        ensures { self.new ≡ self.old }
    {
        self.rows.take()
    }

    /// The room for the rows of its nodes comes back.
    pub fn keep_rows(&mut self, rows: Buckets)
        ensures { self.new ≡ self.old }
    {
        self.rows = Some(rows);
    }

    /// How many nodes it has.
    pub fn len(&self) -> usize
        ensures value { result ≡ count self.now }
        ensures limit { result ≤ node_limit }
    {
        self.excess.len()
    }

    /// The label of a node that is cut off.
    pub fn top(&self) -> u32
        ensures value { result ≡ self.now.top }
        ensures limit { result ≤ top_label node_limit }
        ensures above { 1 ≤ result }
    {
        self.top
    }

    /// What a node got and did not pass on.
    pub fn excess(&self, v: usize) -> u64
        requires { v < count self.now }
        ensures { result ≡ excess_in self.now v }
    {
        self.excess[v]
    }

    /// A node's label.
    pub fn label(&self, v: usize) -> u32
        requires { v < count self.now }
        ensures value { result ≡ label_in self.now v }
        ensures limit { result ≤ self.now.top }
        ensures small { result ≤ top_label node_limit }
    {
        self.labels[v]
    }

    /// What a node can still give the sink.
    pub fn room(&self, v: usize) -> u64
        requires { v < count self.now }
        ensures { result ≡ room_in self.now v }
    {
        self.rooms[v]
    }

    /// The place of a node's first direction within the block, and that after its last.
    pub fn range(&self, v: usize) -> (usize, usize)
        requires { v < count self.now }
        ensures first { result.0 ≡ first_lane self.now v }
        ensures end { result.1 ≡ first_lane self.now (v + 1) }
        ensures limit { result.1 ≤ length self.now.lanes }
    {
        (self.starts[v] as usize, self.starts[v + 1] as usize)
    }

    /// The place of a node's first direction to another block, and that after its last.
    pub fn border_range(&self, v: usize) -> (usize, usize)
        requires { v < count self.now }
        ensures first { result.0 ≡ first_border self.now v }
        ensures end { result.1 ≡ first_border self.now (v + 1) }
        ensures limit { result.1 ≤ length self.now.borders }
    {
        (
            self.border_starts[v] as usize,
            self.border_starts[v + 1] as usize,
        )
    }

    /// The direction within the block at a place.
    pub fn lane(&self, j: usize) -> InnerLane
        requires { j < length self.now.lanes }
        ensures value { result ≡ lane_in self.now j }
        ensures far { result.far < count self.now }
    {
        self.lanes[j]
    }

    /// The direction to another block at a place.
    pub fn border(&self, j: usize) -> Border
        requires { j < length self.now.borders }
        ensures value { result ≡ border_in self.now j }
        ensures arc { result.direction.arc < 2 ^ 32 }
        ensures near { result.near < count self.now }
        ensures fits { result.residual + out_of result.flight ≤ result.capacity }
        ensures known { result.known ≤ self.now.top }
        ensures small { result.known ≤ top_label node_limit }
    {
        self.borders[j].border()
    }

    /// The highest label that a direction within the block allows the node that it leaves.
    fn lane_allows(&self, j: usize) -> u32
        requires { j < length self.now.lanes }
        ensures { result ≡ lane_allows self.now j }
    {
        let lane = self.lane(j);
        if lane.residual > 0 {
            self.label(lane.far as usize) + 1
        } else {
            self.top()
        }
    }

    /// The highest label that a direction to another block allows the node that it leaves.
    fn border_allows(&self, j: usize) -> u32
        requires { j < length self.now.borders }
        ensures { result ≡ border_allows self.now j }
    {
        let border = self.border(j);
        if border.residual > 0 || border.flight.is_some() {
            border.known + 1
        } else {
            self.top()
        }
    }

    /// The highest label that a node may have: the least of that of a node that is cut off, 1 where
    /// the node can give the sink, and 1 more than the label seen over each direction that is
    /// residual or on which a parcel is out (Goldberg, Tarjan 1988, section 2). Reads the
    /// directions of the node alone.
    pub fn highest_label(&self, v: usize) -> u32
        requires { v < count self.now }
        ensures value { result ≡ highest self.now v }
        ensures limit { result ≤ self.now.top }
    {
        let top = self.top();
        let mut least = if self.room(v) > 0 { 1 } else { top };
        let (first, end) = self.range(v);
        'lanes: for k in 0..end.saturating_sub(first) {
            least = u32::min(least, self.lane_allows(first + k));
        }
        let (first_border, end_border) = self.border_range(v);
        'borders: for k in 0..end_border.saturating_sub(first_border) {
            least = u32::min(least, self.border_allows(first_border + k));
        }
        least
    }

    /// Whether excess of an active node can go to the sink.
    pub fn may_give(&self, v: usize) -> bool
        requires { v < count self.now }
        ensures { IsTrue result ↔ (0 < room_in self.now v) × (label_in self.now v ≡ 1) }
    {
        self.room(v) > 0 && self.label(v) == 1
    }

    /// Whether excess of an active node can go along a direction within the block.
    pub fn may_push(&self, v: usize, j: usize) -> bool
        requires node { v < count self.now }
        requires place { j < length self.now.lanes }
        ensures { IsTrue result ↔ MayPush self.now v j }
    {
        let lane = self.lane(j);
        lane.residual > 0 && self.label(v) == self.label(lane.far as usize) + 1
    }

    /// Whether excess of an active node can leave along a direction to another block.
    pub fn may_send(&self, v: usize, j: usize) -> bool
        requires node { v < count self.now }
        requires place { j < length self.now.borders }
        ensures { IsTrue result ↔ MaySend self.now v j }
    {
        let border = self.border(j);
        border.residual > 0 && self.label(v) == border.known + 1 && border.flight.is_none()
    }

    /// Excess of a node goes along a direction within the block: as much as the direction can
    /// carry.
    pub fn push(&mut self, v: usize, j: usize)
        requires node { v < count self.old }
        requires place { j < length self.old.lanes }
        requires other { (lane_in self.old j).far ≢ v }
        ensures { self.new ≡ cells_after_push self.old v j
            (min (excess_in self.old v) (lane_in self.old j).residual) }
    {
        let lane = self.lanes[j];
        let amount = u64::min(self.excess[v], lane.residual);
        self.excess[v] -= amount;
        self.excess[lane.far as usize] += amount;
        self.lanes[j].residual -= amount;
        self.lanes[lane.opposite as usize].residual += amount;
    }

    /// Excess of a node goes to the sink: as much as the node can still give it. Answers that
    /// amount.
    pub fn give(&mut self, v: usize) -> u64
        requires { v < count self.old }
        ensures given { self.new ≡ cells_after_sink_push self.old v
            (min (excess_in self.old v) (room_in self.old v)) }
        ensures amount { result ≡ min (excess_in self.old v) (room_in self.old v) }
        ensures place { v < length self.old.rooms }
    {
        let amount = u64::min(self.excess[v], self.rooms[v]);
        self.excess[v] -= amount;
        self.rooms[v] -= amount;
        amount
    }

    /// A node gets a label.
    pub fn relabel(&mut self, v: usize, label: u32)
        requires node { v < count self.old }
        requires limit { label ≤ self.old.top }
        ensures labelled { self.new ≡ cells_after_relabel self.old v label }
        ensures place { v < length self.old.labels }
    {
        self.labels[v] = label;
    }

    /// Each node gets the label that stands at its place in the list.
    pub fn write_labels(&mut self, labels: &[u32])
        requires len { length labels.now ≡ count self.old }
        requires limit { All (λ d. d ≤ self.old.top) labels.now }
        ensures { self.new ≡ record self.old { labels = labels.now } }
    {
        self.labels.as_mut_slice().copy_from_slice(labels);
    }

    /// Excess of a node leaves for another block: as much as the direction can carry. Answers the
    /// parcel.
    pub fn send(&mut self, v: usize, j: usize) -> Message
        requires node { v < count self.old }
        requires place { j < length self.old.borders }
        requires idle { (border_in self.old j).flight ≡ None }
        ensures sent { self.new ≡ cells_after_send self.old v j
            (min (excess_in self.old v) (border_in self.old j).residual) }
        ensures parcel { result ≡ parcel_of self.old v j }
    {
        let label = self.labels[v];
        let border = self.borders[j].border();
        let amount = u64::min(self.excess[v], border.residual);
        self.excess[v] -= amount;
        let flight = Some(Flight { amount, label });
        self.borders[j].set(border.residual - amount, border.known, flight);
        Message::Parcel {
            direction: border.direction,
            amount,
            label,
        }
    }

    /// How many directions lead to other blocks.
    pub fn borders(&self) -> usize
        ensures { result ≡ length self.now.borders }
    {
        self.borders.len()
    }

    /// Whether a parcel with a label, along the opposite of a direction to another block, is to be
    /// taken.
    pub fn may_accept(&self, j: usize, label: u32) -> bool
        requires { j < length self.now.borders }
        ensures { IsTrue result ↔ (label_in self.now (border_in self.now j).near + 1 ≡ label) }
    {
        self.label(self.border(j).near as usize) + 1 == label
    }

    /// Whether a parcel with a label, along the opposite of a direction to another block, is to be
    /// sent back.
    pub fn may_refuse(&self, j: usize, label: u32) -> bool
        requires { j < length self.now.borders }
        ensures { IsTrue result ↔ (label ≤ label_in self.now (border_in self.now j).near) }
    {
        label <= self.label(self.border(j).near as usize)
    }

    /// An amount comes along the opposite of a direction to another block. Answers that it was
    /// taken.
    pub fn accept(&mut self, j: usize, amount: u64, label: u32) -> Message
        requires place { j < length self.old.borders }
        requires fits { (border_in self.old j).residual
            + out_of (border_in self.old j).flight + amount
            ≤ (border_in self.old j).capacity }
        requires label { label ≤ self.old.top }
        ensures accepted { self.new ≡ cells_after_accept self.old j amount label }
        ensures answer { result ≡ Accepted (opposite (border_in self.old j).direction) amount }
    {
        let border = self.borders[j].border();
        self.excess[border.near as usize] += amount;
        let known = if border.flight.is_some() {
            border.known
        } else {
            u32::max(border.known, label)
        };
        self.borders[j].set(border.residual + amount, known, border.flight);
        Message::Accepted {
            direction: opposite_of(border.direction),
            amount,
        }
    }

    /// The answer that a parcel, along the opposite of a direction to another block, was not taken:
    /// with the label that stands against it.
    pub fn refusal(&self, j: usize, amount: u64, label: u32) -> Message
        requires { j < length self.now.borders }
        ensures { result ≡ Refused (opposite (border_in self.now j).direction) amount label
            (label_in self.now (border_in self.now j).near) }
    {
        let border = self.border(j);
        Message::Refused {
            direction: opposite_of(border.direction),
            amount,
            label,
            told: self.label(border.near as usize),
        }
    }

    /// A direction to another block knows a label of its far end.
    pub fn inform(&mut self, j: usize, known: u32)
        requires place { j < length self.old.borders }
        requires limit { known ≤ self.old.top }
        ensures { self.new ≡ cells_with_known self.old j known }
    {
        let border = self.borders[j].border();
        self.borders[j].set(border.residual, known, border.flight);
    }

    /// The parcel of a direction was taken.
    pub fn deliver_parcel(&mut self, j: usize)
        requires { j < length self.old.borders }
        ensures { self.new ≡ cells_after_delivery self.old j }
    {
        let border = self.borders[j].border();
        self.borders[j].set(border.residual, border.known, None);
    }

    /// The parcel of a direction comes back.
    pub fn return_parcel(&mut self, j: usize, amount: u64, told: u32)
        requires place { j < length self.old.borders }
        requires fits { amount ≤ out_of (border_in self.old j).flight }
        requires told { told ≤ self.old.top }
        ensures { self.new ≡ cells_after_return self.old j amount told }
    {
        let sent = self.borders[j].border();
        self.excess[sent.near as usize] += amount;
        self.borders[j].set(sent.residual + amount, told, None);
    }
}
