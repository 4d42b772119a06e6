//! One end of a ring to another block.
ghost use Rattle.std.specs.Prelude.{◌≡◌, ◌<◌, ◌↔◌, IsSome, IsTrue};
ghost use Rattle.block_events.specs.Workers.{IsFair};

use crate::ring_end::{Inlet, Outlet};
use block_discharge::Letter;

/// A block's ends of the rings to and from another block.
#[derive(Drop)]
pub struct Port {
    pub(crate) other: u32,
    pub(crate) to_ring: Inlet,
    pub(crate) from_ring: Outlet,
}

impl Port {
    ghost use Rattle.block_workers.specs.Ports.{Looks, PutsLetter, TakesLetter, first, free, other};

    /// The number of the block at the other ends.
    pub fn other(&self) -> u32
        ensures { result ≡ other self.now }
    {
        self.other
    }

    /// Whether room for a letter is seen. There may be more by now. Room that was seen stays, but
    /// for one place for each letter that is put.
    pub fn room(&mut self) -> bool
        ensures look { Looks self.old self.new }
        ensures value { IsTrue result ↔ (0 < free self.new) }
    {
        self.to_ring.has_room()
    }

    /// Puts a letter, for which room was seen. Takes no memory.
    pub fn put(&mut self, letter: Letter)
        requires room { 0 < free self.old }
        requires fair { IsFair letter.message }
        ensures { PutsLetter letter self.old self.new }
    {
        self.to_ring.put(letter);
    }

    /// The letter that is to be taken next, where one is seen. One may have come by now where none
    /// is. What was seen stays in front until it is taken.
    pub fn front(&mut self) -> Option<Letter>
        ensures look { Looks self.old self.new }
        ensures value { result ≡ first self.new }
    {
        self.from_ring.front()
    }

    /// Takes the letter in front, which was seen there. Takes no memory.
    pub fn take(&mut self) -> Letter
        requires { IsSome (first self.old) }
        ensures taken { TakesLetter result self.old self.new }
        ensures fair { IsFair result.message }
    {
        self.from_ring.take()
    }
}
