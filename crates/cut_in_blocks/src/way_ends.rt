//! The ends of one block's ways, while the core's ways are worked on.
ghost use Rattle.std.specs.Prelude.{◌≡◌, ◌*◌, ◌≤◌, ◌<◌, length};
ghost use Rattle.block_events.specs.Soundness.{IsSquare};
ghost use Rattle.block_net.specs.Limits.{arc_limit};
ghost use Rattle.cut_in_blocks.specs.WayEnds.{IsEnds, seen_by, is_other_block, place_in};
ghost use Rattle.cut_in_blocks.specs.WayEnds.{outward_direction, way_ends_view};

use block_discharge::{Letter, Ways};
use block_events::{Direction, Message};
use block_state::AllWays;
use std::marker::Model;
use std::snapshot::Snapshot;

/// One block's ends of the ways of the core, which they hold meanwhile, and the table by which a
/// letter's place is found.
#[derive(Drop)]
pub(crate) struct WayEnds {
    block: usize,
    blocks: usize,
    ways: AllWays,
    slots: Vec<u32>,
    arcs: usize,
    first: Snapshot<AllWays>,
}

impl Model for WayEnds {
    ghost use Rattle.cut_in_blocks.specs.WayEnds.{WayEndsView, IsEnds, way_ends_view};

    ghost Value = { WayEndsView };

    ghost view = { λ e. way_ends_view e.block e.blocks e.first.value e.ways e.slots.items e.arcs };

    ghost invariant = { λ e. IsEnds
        (way_ends_view e.block e.blocks e.first.value e.ways e.slots.items e.arcs) };
}

/// The direction of a message, or its opposite: that which leaves the block that takes the message.
fn outward_direction(message: Message) -> Direction
    ensures { result ≡ outward_direction message }
{
    match message {
        Message::Parcel { direction, .. } => Direction {
            arc: direction.arc,
            back: !direction.back,
        },
        Message::Accepted { direction, .. } => direction,
        Message::Refused { direction, .. } => direction,
    }
}

impl WayEnds {
    /// The ends of one block of so many.
    pub fn new(block: usize, blocks: usize, ways: AllWays, slots: Vec<u32>, arcs: usize) -> WayEnds
        requires block { block < blocks }
        requires square { IsSquare blocks ways.messages }
        requires slots { length slots.items ≡ 2 * arcs }
        requires arcs { arcs ≤ arc_limit }
        ensures { result ≡ way_ends_view block blocks ways ways slots.items arcs }
    {
        let first = Snapshot::of(&ways);
        WayEnds {
            block,
            blocks,
            ways,
            slots,
            arcs,
            first,
        }
    }

    /// The ways, and the table of places.
    pub fn into_ways(self) -> (AllWays, Vec<u32>)
        ensures ways { result.0 ≡ self.now }
        ensures slots { result.1.items ≡ self.slots }
    {
        (self.ways, self.slots)
    }

    /// Does nothing: says what is kept of all ends.
    pub fn are_ends(&self)
        ensures { IsEnds self.now }
    {
        let _block = self.block;
    }

    /// Whether it is the number of another block.
    fn is_other(&self, c: u32) -> bool
        ensures { result ≡ is_other_block self.now c }
    {
        let c = c as usize;
        c < self.blocks && c != self.block
    }

    /// The place of a direction in its block.
    fn place(&self, direction: Direction) -> u32
        ensures { result ≡ place_in self.now direction }
    {
        if direction.arc >= self.arcs {
            return 0;
        }
        let index = if direction.back {
            self.arcs + direction.arc
        } else {
            direction.arc
        };
        self.slots[index]
    }
}

impl Ways for WayEnds {
    type Identity = WayEnds;

    ghost identity = { λ e. record e { now = e.first } };

    ghost seen = { λ e. seen_by e };

    fn room(&mut self, to: u32) -> bool {
        self.is_other(to) && self.ways.has_room(self.block, to as usize)
    }

    fn put(&mut self, to: u32, letter: Letter) {
        self.ways.put(self.block, to as usize, letter.message);
    }

    fn front(&mut self, from: u32) -> Option<Letter> {
        if !self.is_other(from) {
            return None;
        }
        let message = self.ways.front(from as usize, self.block)?;
        let place = self.place(outward_direction(message));
        Some(Letter { message, place })
    }

    fn take(&mut self, from: u32) {
        self.ways.take(from as usize, self.block);
    }
}
