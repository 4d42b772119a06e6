//! The two rings between two blocks after a round.
ghost use Rattle.std.specs.Prelude.{◌≡◌, ◌+◌, ◌<◌, ◌≤◌, ◌++◌, length};
ghost use Rattle.block_events.specs.States.{way_at, put_way};
ghost use Rattle.block_events.specs.Soundness.{IsSquare};
ghost use Rattle.block_state.specs.AllWays.{room_at};
ghost use Rattle.block_workers.specs.Ports.{IsSamePort, LeadsTo, Looks, letters_put, letters_taken};
ghost use Rattle.block_workers.specs.Seeing.{messages};
ghost use Rattle.block_rings.specs.Left.{AreKeptByWays, rest_of};

use block_state::AllWays;
use block_workers::{Port, join_again, see_left};

/// Two blocks' ports to one another: what the one puts the other takes.
#[derive(Drop)]
pub struct PortPair {
    /// The one block's port to the other.
    pub first: Port,
    /// The other's port to it.
    pub second: Port,
    ghost there: { LeadsTo first second },
    ghost back: { LeadsTo second first },
}

/// What is left in the ring from one port to another goes to the end of the way from block b to
/// block c, which has room. Takes no memory.
fn move_left(from: &mut Port, to: &mut Port, ways: &mut AllWays, b: usize, c: usize)
    requires joined { LeadsTo from.old to.old }
    requires square { IsSquare (length ways.old.messages) ways.old.messages }
    requires first { b < length ways.old.messages }
    requires second { c < length ways.old.messages }
    requires room { length (way_at ways.old.messages b c)
        + length (rest_of (messages (letters_put from.old)) (messages (letters_taken to.old)))
        ≤ room_at ways.old.rooms b c }
    requires arcs { AreKeptByWays
        (rest_of (messages (letters_put from.old)) (messages (letters_taken to.old))) }
    ensures messages { ways.new.messages
        ≡ put_way ways.old.messages b c (way_at ways.old.messages b c
        ++ rest_of (messages (letters_put from.old)) (messages (letters_taken to.old))) }
    ensures rooms { ways.new.rooms ≡ ways.old.rooms }
    ensures from { Looks from.old from.new }
    ensures to { IsSamePort to.old to.new }
    ensures put { letters_put to.new ≡ letters_put to.old }
    ensures drained { letters_put from.new ≡ letters_taken to.new }
{
    let count = see_left(from, to);
    for _ in 0..count {
        ways.put(b, c, to.take().message);
    }
}

impl PortPair {
    ghost use Rattle.std.specs.Prelude.{◌↔◌, IfNone, IfSome, IsTrue};
    ghost use Rattle.block_workers.specs.Ports.{IsNewPort};
    ghost use Rattle.block_rings.specs.Kept.{AreOfPair, CanServePair, IsOfBlocks, IsDrained};
    ghost use Rattle.block_rings.specs.Links.{IsLinkSeen, link};
    ghost use Rattle.block_rings.specs.Draining.{IsFitting, ways_after_drain};

    /// Whether it is the pair of block b and a block c of a higher number.
    pub(crate) fn is_of_blocks(&self, b: u32, c: u32) -> bool
        ensures { IsTrue result ↔ IsOfBlocks b c self.now }
    {
        self.first.other() == b && self.second.other() == c
    }

    /// The two ports for a new round of block b and a block c of a higher number, first that of
    /// block b: exactly where the pair is theirs, and its rings can serve. Takes no memory.
    pub(crate) fn again(self, b: u32, c: u32, ring: usize) -> Option<(Port, Port)>
        ensures first { IfSome result (λ ports. IsNewPort c ring ports.0) }
        ensures second { IfSome result (λ ports. IsNewPort b ring ports.1) }
        ensures there { IfSome result (λ ports. LeadsTo ports.0 ports.1) }
        ensures back { IfSome result (λ ports. LeadsTo ports.1 ports.0) }
        ensures same { IfSome result (λ ports. AreOfPair self ports.0 ports.1) }
        ensures refused { IfNone result (IsOfBlocks b c self → CanServePair ring self → ⊥) }
    {
        if !self.is_of_blocks(b, c) {
            return None;
        }
        join_again(self.second, self.first, ring)
    }

    /// Looks at what is left in both rings. Takes no memory.
    pub(crate) fn see(&mut self)
        ensures same { link self.new ≡ link self.old }
        ensures seen { IsLinkSeen (link self.old) }
    {
        see_left(&mut self.first, &mut self.second);
        see_left(&mut self.second, &mut self.first);
    }

    /// What is left in both rings goes to the ends of the ways between the two blocks. Takes no
    /// memory.
    pub(crate) fn drain(&mut self, ways: &mut AllWays)
        requires square { IsSquare (length ways.old.messages) ways.old.messages }
        requires order { (link self.old).second < (link self.old).first }
        requires blocks { (link self.old).first < length ways.old.messages }
        requires room { IsFitting ways.old.rooms ways.old.messages (link self.old) }
        ensures messages { ways.new.messages ≡ ways_after_drain (link self.old) ways.old.messages }
        ensures rooms { ways.new.rooms ≡ ways.old.rooms }
        ensures drained { IsDrained self.new }
    {
        let b = self.second.other() as usize;
        let c = self.first.other() as usize;
        move_left(&mut self.first, &mut self.second, ways, b, c);
        move_left(&mut self.second, &mut self.first, ways, c, b);
    }
}
