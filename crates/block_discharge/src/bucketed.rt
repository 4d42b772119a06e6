//! A block whose active nodes stand in buckets.
ghost use Rattle.std.specs.Prelude.{◌≡◌, ◌≢◌, ◌↔◌, ◌⊎◌, ◌+◌, ◌^◌, ◌<◌, ◌≤◌, ℕ, None, IsTrue, IfOk};
ghost use Rattle.std.specs.Prelude.{IfSome, MatchOption, min, length};
ghost use Rattle.flow_network.specs.Limits.{node_limit};
ghost use Rattle.flow_network.specs.Progress.{top_label};
ghost use Rattle.block_events.specs.declared.message.Message.TheVariants.{Accepted};
ghost use Rattle.block_events.specs.Directions.{opposite};
ghost use Rattle.node_buckets.specs.Standing.{row_count};
ghost use Rattle.block_net.specs.Views.{count, excess_in, label_in, room_in, lane_in, border_in};
ghost use Rattle.block_net.specs.Views.{first_lane, first_border, out_of, highest};
ghost use Rattle.block_net.specs.Views.{cells_after_push, cells_after_sink_push};
ghost use Rattle.block_net.specs.Views.{cells_after_relabel, cells_after_send, cells_after_accept};
ghost use Rattle.block_net.specs.Views.{cells_after_delivery, cells_after_return, parcel_of};
ghost use Rattle.block_discharge.specs.Active.{IsActiveInBlock};
ghost use Rattle.block_discharge.specs.Standing.{IsAside, HasHighestBucket, KeepsAside, StaysAside};
ghost use Rattle.block_discharge.specs.Standing.{waiting_count};

use crate::bucket_places::{is_active, move_up, renew};
use block_events::Message;
use block_net::{Border, Cells, InnerLane};
use node_buckets::Buckets;
use std::alloc::{AllocError, Global};
use std::marker::Model;

/// A block, in which each active node stands in the bucket of its label, or aside, and no other
/// node.
#[derive(Drop)]
pub struct Bucketed {
    cells: Cells,
    buckets: Buckets,
}

impl Model for Bucketed {
    ghost use Rattle.block_discharge.specs.Standing.{BucketedView, IsStanding};

    ghost Value = { BucketedView };

    ghost view = { λ b. record { block = b.cells; standing = b.buckets } };

    ghost invariant = { λ b. IsStanding b.cells b.buckets };
}

/// Rows for so many nodes, and two buckets more: those that are there, where they are as many.
/// Where nodes stand in them is left open.
fn rows_for(alloc: Global, room: Option<Buckets>, count: usize) -> Result<Buckets, AllocError>
    requires { count ≤ node_limit }
    ensures nodes { IfOk result (λ rows. row_count rows ≡ count) }
    ensures buckets { IfOk result (λ rows. rows.buckets ≡ count + 2) }
{
    let buckets = count as u32 + 2;
    if let Some(rows) = room {
        if rows.len() == count && rows.buckets() == buckets {
            return Ok(rows);
        }
    }
    Buckets::new(alloc, count, buckets)
}

impl Bucketed {
    /// A block whose active nodes stand in their buckets. Refuses only where memory runs out; no
    /// other call takes memory. Asks for none where the block has room for the rows of its nodes.
    pub fn new(alloc: Global, cells: Cells) -> Result<Bucketed, AllocError>
        ensures { IfOk result (λ made. made.block ≡ cells) }
    {
        let mut cells = cells;
        let room = cells.take_rows();
        let mut buckets = rows_for(alloc, room, cells.len())?;
        'nodes: for v in 0..cells.len() {
            move_up(&cells, &mut buckets, v);
        }
        Ok(Bucketed { cells, buckets })
    }

    /// The block.
    pub fn cells(&self) -> &Cells
        ensures { result.now ≡ self.now.block }
    {
        &self.cells
    }

    /// How many nodes it has.
    pub fn len(&self) -> usize
        ensures { result ≡ count self.now.block }
    {
        self.cells.len()
    }

    /// The label of a node that is cut off.
    pub fn top(&self) -> u32
        ensures { result ≡ self.now.block.top }
    {
        self.cells.top()
    }

    /// Whether a node has excess and is not cut off.
    pub fn is_active(&self, v: usize) -> bool
        requires { v < count self.now.block }
        ensures { IsTrue result ↔ IsActiveInBlock self.now.block v }
    {
        is_active(&self.cells, v)
    }

    /// Whether a node is set aside.
    pub fn is_aside(&self, v: usize) -> bool
        requires { v < count self.now.block }
        ensures { IsTrue result ↔ IsAside self.now v }
    {
        self.buckets.is_aside(v)
    }

    /// What a node got and did not pass on.
    pub fn excess(&self, v: usize) -> u64
        requires { v < count self.now.block }
        ensures { result ≡ excess_in self.now.block v }
    {
        self.cells.excess(v)
    }

    /// A node's label.
    pub fn label(&self, v: usize) -> u32
        requires { v < count self.now.block }
        ensures value { result ≡ label_in self.now.block v }
        ensures limit { result ≤ self.now.block.top }
        ensures small { result ≤ top_label node_limit }
    {
        self.cells.label(v)
    }

    /// What a node can still give the sink.
    pub fn room(&self, v: usize) -> u64
        requires { v < count self.now.block }
        ensures { result ≡ room_in self.now.block v }
    {
        self.cells.room(v)
    }

    /// The place of a node's first direction within the block, and that after its last.
    pub fn range(&self, v: usize) -> (usize, usize)
        requires { v < count self.now.block }
        ensures first { result.0 ≡ first_lane self.now.block v }
        ensures end { result.1 ≡ first_lane self.now.block (v + 1) }
        ensures limit { result.1 ≤ length self.now.block.lanes }
    {
        self.cells.range(v)
    }

    /// The place of a node's first direction to another block, and that after its last.
    pub fn border_range(&self, v: usize) -> (usize, usize)
        requires { v < count self.now.block }
        ensures first { result.0 ≡ first_border self.now.block v }
        ensures end { result.1 ≡ first_border self.now.block (v + 1) }
        ensures limit { result.1 ≤ length self.now.block.borders }
    {
        self.cells.border_range(v)
    }

    /// The direction within the block at a place.
    pub fn lane(&self, j: usize) -> InnerLane
        requires { j < length self.now.block.lanes }
        ensures value { result ≡ lane_in self.now.block j }
        ensures far { result.far < count self.now.block }
    {
        self.cells.lane(j)
    }

    /// The direction to another block at a place.
    pub fn border(&self, j: usize) -> Border
        requires { j < length self.now.block.borders }
        ensures value { result ≡ border_in self.now.block j }
        ensures arc { result.direction.arc < 2 ^ 32 }
        ensures near { result.near < count self.now.block }
        ensures fits { result.residual + out_of result.flight ≤ result.capacity }
        ensures known { result.known ≤ self.now.block.top }
        ensures small { result.known ≤ top_label node_limit }
    {
        self.cells.border(j)
    }

    /// The highest label that a node may have.
    pub fn highest_label(&self, v: usize) -> u32
        requires { v < count self.now.block }
        ensures value { result ≡ highest self.now.block v }
        ensures limit { result ≤ self.now.block.top }
    {
        self.cells.highest_label(v)
    }

    /// The block alone. Keeps the room for the rows.
    pub fn into_cells(self) -> Cells
        ensures { result ≡ self.block }
    {
        let mut cells = self.cells;
        cells.keep_rows(self.buckets);
        cells
    }

    /// An active node of those in the highest bucket with nodes: none where each active node is set
    /// aside. The last bucket has the labels above the number of nodes together.
    pub fn highest(&mut self) -> Option<usize>
        ensures same { self.new ≡ self.old }
        ensures node { MatchOption result
            ((v : ℕ) → IsActiveInBlock self.old.block v → IsAside self.old v)
            (λ v. IsActiveInBlock self.old.block v × (¬ IsAside self.old v)) }
        ensures highest { IfSome result (HasHighestBucket self.old) }
    {
        self.buckets.highest()
    }

    /// An active node is set aside.
    pub fn set_aside(&mut self, v: usize)
        requires active { IsActiveInBlock self.old.block v }
        requires waits { ¬ IsAside self.old v }
        ensures block { self.new.block ≡ self.old.block }
        ensures aside { (u : ℕ) → IsAside self.new u → (u ≡ v) ⊎ IsAside self.old u }
        ensures fewer { waiting_count self.new < waiting_count self.old }
    {
        self.buckets.set_aside(v);
    }

    /// Excess of a node goes along a direction within the block: as much as the direction can
    /// carry.
    pub fn push(&mut self, v: usize, j: usize)
        requires node { v < count self.old.block }
        requires place { j < length self.old.block.lanes }
        requires other { (lane_in self.old.block j).far ≢ v }
        ensures block { self.new.block ≡ cells_after_push self.old.block v j
            (min (excess_in self.old.block v) (lane_in self.old.block j).residual) }
        ensures aside { KeepsAside self.old self.new }
        ensures stays { StaysAside self.old self.new }
    {
        let far = self.cells.lane(j).far as usize;
        self.cells.push(v, j);
        renew(&self.cells, &mut self.buckets, v);
        renew(&self.cells, &mut self.buckets, far);
    }

    /// Excess of a node goes to the sink: as much as the node can still give it.
    pub fn give(&mut self, v: usize)
        requires { v < count self.old.block }
        ensures block { self.new.block ≡ cells_after_sink_push self.old.block v
            (min (excess_in self.old.block v) (room_in self.old.block v)) }
        ensures aside { KeepsAside self.old self.new }
        ensures stays { StaysAside self.old self.new }
    {
        self.cells.give(v);
        renew(&self.cells, &mut self.buckets, v);
    }

    /// A node gets a label.
    pub fn relabel(&mut self, v: usize, label: u32)
        requires node { v < count self.old.block }
        requires limit { label ≤ self.old.block.top }
        ensures block { self.new.block ≡ cells_after_relabel self.old.block v label }
        ensures aside { KeepsAside self.old self.new }
        ensures stays { StaysAside self.old self.new }
    {
        self.cells.relabel(v, label);
        move_up(&self.cells, &mut self.buckets, v);
    }

    /// Each node that was set aside stands in its bucket again.
    pub fn restore_aside(&mut self)
        ensures block { self.new.block ≡ self.old.block }
        ensures none { (v : ℕ) → v < count self.old.block → ¬ IsAside self.new v }
    {
        'aside: while let Some(v) = self.buckets.first_aside() {
            self.buckets.put(v, self.cells.label(v));
        }
    }

    /// Excess of a node leaves for another block: as much as the direction can carry. Answers the
    /// parcel.
    pub fn send(&mut self, v: usize, j: usize) -> Message
        requires node { v < count self.old.block }
        requires place { j < length self.old.block.borders }
        requires idle { (border_in self.old.block j).flight ≡ None }
        ensures block { self.new.block ≡ cells_after_send self.old.block v j
            (min (excess_in self.old.block v) (border_in self.old.block j).residual) }
        ensures parcel { result ≡ parcel_of self.old.block v j }
        ensures aside { KeepsAside self.old self.new }
        ensures stays { StaysAside self.old self.new }
    {
        let parcel = self.cells.send(v, j);
        renew(&self.cells, &mut self.buckets, v);
        parcel
    }

    /// An amount comes along the opposite of a direction to another block. Answers that it was
    /// taken.
    pub fn accept(&mut self, j: usize, amount: u64, label: u32) -> Message
        requires place { j < length self.old.block.borders }
        requires fits { (border_in self.old.block j).residual
            + out_of (border_in self.old.block j).flight + amount
            ≤ (border_in self.old.block j).capacity }
        requires label { label ≤ self.old.block.top }
        ensures block { self.new.block ≡ cells_after_accept self.old.block j amount label }
        ensures answer { result ≡ Accepted
            (opposite (border_in self.old.block j).direction) amount }
        ensures aside { KeepsAside self.old self.new }
        ensures stays { StaysAside self.old self.new }
    {
        let near = self.cells.border(j).near as usize;
        let accepted = self.cells.accept(j, amount, label);
        renew(&self.cells, &mut self.buckets, near);
        accepted
    }

    /// The parcel of a direction was taken.
    pub fn deliver_parcel(&mut self, j: usize)
        requires { j < length self.old.block.borders }
        ensures block { self.new.block ≡ cells_after_delivery self.old.block j }
        ensures aside { KeepsAside self.old self.new }
        ensures stays { StaysAside self.old self.new }
    {
        self.cells.deliver_parcel(j);
    }

    /// The parcel of a direction comes back.
    pub fn return_parcel(&mut self, j: usize, amount: u64, told: u32)
        requires place { j < length self.old.block.borders }
        requires fits { amount ≤ out_of (border_in self.old.block j).flight }
        requires told { told ≤ self.old.block.top }
        ensures block { self.new.block ≡ cells_after_return self.old.block j amount told }
        ensures aside { KeepsAside self.old self.new }
        ensures stays { StaysAside self.old self.new }
    {
        let near = self.cells.border(j).near as usize;
        self.cells.return_parcel(j, amount, told);
        renew(&self.cells, &mut self.buckets, near);
    }
}
