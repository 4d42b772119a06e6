//! All rings of a round, and what is left in them.
ghost use Rattle.std.specs.Prelude.{◌≡◌, ◌≤◌, ◌*◌, ℕ, [], All, length, map, vec_len, vec_capacity};
ghost use Rattle.block_events.specs.Soundness.{IsSquare};
ghost use Rattle.block_rings.specs.Mated.{AreMated, messages_sent, messages_taken, ports_in};
ghost use Rattle.block_rings.specs.Mated.{room_to};
ghost use Rattle.block_rings.specs.Left.{AreWaysEmpty, AreFitting, AreLeft, HaveRoomFor};
ghost use Rattle.block_rings.specs.Links.{AreLinks, AreWithinRoom, IsLinkSeen, links_of, ring_room};
ghost use Rattle.block_rings.specs.Links.{sent_in, taken_in};
ghost use Rattle.block_rings.specs.Draining.{AreDraining, HaveRoom};
ghost use Rattle.block_rings.specs.Kept.{IsDrained};

use crate::pair::PortPair;
use crate::pile::Pile;
use crate::ring_ends::pair_all;
use block_state::AllWays;
use block_workers::Port;
use std::marker::Model;

/// The rings between blocks: both ends of each.
#[derive(Drop)]
pub struct Rings {
    blocks: usize,
    pairs: Vec<PortPair>,
}

impl Model for Rings {
    ghost use Rattle.block_rings.specs.Links.{RingsView, links_of, AreLinks};

    ghost Value = { RingsView };

    ghost view = { λ r. record { blocks = r.blocks; links = links_of r.pairs.items } };

    ghost invariant = { λ r. AreLinks r.blocks (links_of r.pairs.items) };
}

/// Looks at what is left in the rings of all pairs. Takes no memory.
fn see_all(pairs: &mut Vec<PortPair>)
    ensures same { links_of pairs.new.items ≡ links_of pairs.old.items }
    ensures seen { All IsLinkSeen (links_of pairs.old.items) }
{
    for k in 0..pairs.len() {
        pairs[k].see();
    }
}

/// What is left in the rings of all pairs goes to the ways, which are empty. Takes no memory.
fn drain_all(pairs: &mut Vec<PortPair>, ways: &mut AllWays)
    requires links { AreLinks (length ways.old.messages) (links_of pairs.old.items) }
    requires square { IsSquare (length ways.old.messages) ways.old.messages }
    requires empty { AreWaysEmpty (length ways.old.messages) ways.old.messages }
    requires room { HaveRoom (length ways.old.messages) ways.old.rooms (links_of pairs.old.items) }
    ensures messages { AreDraining (length ways.old.messages) (links_of pairs.old.items) []
        ways.new.messages }
    ensures rooms { ways.new.rooms ≡ ways.old.rooms }
    ensures drained { All IsDrained pairs.new.items }
{
    let count = pairs.len();
    for k in 0..count {
        pairs[k].drain(ways);
    }
}

/// The lists of ports go to their pile. Takes no memory.
fn keep_lists(pile: &mut Pile<Port>, lists: Vec<Vec<Port>>) {
    for list in lists {
        pile.keep(list);
    }
}

impl Rings {
    /// The rings that these ports are the ends of: of each block its ports to others, by rising
    /// numbers of the others. `room` is an empty list with room for half as many pairs as there are
    /// ports, and the lists go to a pile. Takes no memory.
    ///
    /// Takes time linear in the numbers of blocks and of ports.
    pub fn pair(lists: Vec<Vec<Port>>, room: Vec<PortPair>, pile: &mut Pile<Port>) -> Rings
        requires mated { AreMated (length lists.items) (map (λ l. l.items) lists.items) }
        requires empty { vec_len room ≡ 0 }
        requires room { ports_in (map (λ l. l.items) lists.items) ≤ 2 * vec_capacity room }
        ensures blocks { result.blocks ≡ length lists.items }
        ensures sent { (b c : ℕ) → sent_in result b c
            ≡ messages_sent (map (λ l. l.items) lists.items) b c }
        ensures taken { (b c : ℕ)
            → taken_in result b c ≡ messages_taken (map (λ l. l.items) lists.items) b c }
        ensures room { (b c : ℕ) → ring_room result b c
            ≡ room_to (map (λ l. l.items) lists.items) b c }
    {
        let blocks = lists.len();
        let mut lists = lists;
        let mut pairs = room;
        pair_all(&mut lists, &mut pairs);
        keep_lists(pile, lists);
        Rings { blocks, pairs }
    }

    /// Looks at what is left in the rings: what was put is what was taken, followed by that, and no
    /// ring has more than it has room for. Takes no memory.
    fn see(&mut self)
        ensures same { self.new ≡ self.old }
        ensures left { (left : _)
            × AreLeft self.old.blocks (sent_in self.old) (taken_in self.old) left }
        ensures within { AreWithinRoom self.old }
    {
        see_all(&mut self.pairs);
    }

    /// What is left in the rings goes to the ways, which are empty and have room for it: on each
    /// way no more messages than the ring had room for. Takes no memory, and answers the
    /// rings, which are empty.
    pub fn drain(mut self, ways: &mut AllWays) -> Vec<PortPair>
        requires square { IsSquare self.blocks ways.old.messages }
        requires empty { AreWaysEmpty self.blocks ways.old.messages }
        requires room { (left : _) → AreLeft self.blocks (sent_in self) (taken_in self) left
            → AreFitting self.blocks ways.old.rooms left }
        ensures left { AreLeft self.blocks (sent_in self) (taken_in self) ways.new.messages }
        ensures few { HaveRoomFor self.blocks (ring_room self) ways.new.messages }
        ensures rooms { ways.new.rooms ≡ ways.old.rooms }
        ensures drained { All IsDrained result.items }
    {
        self.see();
        let mut pairs = self.pairs;
        drain_all(&mut pairs, ways);
        pairs
    }
}
