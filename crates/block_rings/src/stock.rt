//! What a round leaves for the next.
ghost use Rattle.std.specs.Prelude.{◌≡◌, ◌≤◌, [], OnOk, vec_capacity};

use crate::deck::Deck;
use crate::pair::PortPair;
use crate::pile::Pile;
use block_workers::Port;
use std::alloc::{AllocError, Global};

/// Lists of rounds before, for their room.
#[derive(Drop)]
pub struct Piles {
    /// Of a block's ports.
    pub ports: Pile<Port>,
    /// Of whether a block leads to each other block.
    pub flags: Pile<bool>,
    /// Of the places of a block's ports.
    pub places: Pile<u32>,
    /// Of the blocks that a block leads to.
    pub others: Pile<u32>,
}

/// What a round leaves for the next: its rings, which are empty, and lists, which serve for their
/// room, those of the seats among them.
#[derive(Drop)]
pub struct Stock {
    /// Its rings, in which nothing is left.
    pub pairs: Vec<PortPair>,
    /// The lists of its blocks.
    pub piles: Piles,
    /// The lists of its seats.
    pub deck: Deck,
}

impl Piles {
    /// No list.
    pub(crate) fn none(alloc: Global) -> Piles {
        Piles {
            ports: Pile::new(alloc),
            flags: Pile::new(alloc),
            places: Pile::new(alloc),
            others: Pile::new(alloc),
        }
    }

    /// Room for the lists of so many blocks, so that each that comes back is kept. The only error
    /// is that memory runs out.
    pub fn reserve(&mut self, blocks: usize) -> Result<(), AllocError>
        ensures ports { OnOk result (blocks ≤ vec_capacity self.new.ports.lists) }
        ensures flags { OnOk result (blocks ≤ vec_capacity self.new.flags.lists) }
        ensures places { OnOk result (blocks ≤ vec_capacity self.new.places.lists) }
        ensures others { OnOk result (blocks ≤ vec_capacity self.new.others.lists) }
    {
        self.ports.reserve(blocks)?;
        self.flags.reserve(blocks)?;
        self.places.reserve(blocks)?;
        self.others.reserve(blocks)
    }
}

impl Stock {
    /// What there is before the first round: nothing.
    pub fn none(alloc: Global) -> Stock
        ensures { result.pairs.items ≡ [] }
    {
        Stock {
            pairs: Vec::new(alloc),
            piles: Piles::none(alloc),
            deck: Deck::none(alloc),
        }
    }
}
