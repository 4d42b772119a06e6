//! A block's ends of the rings to other blocks.
ghost use Rattle.std.specs.Prelude.{◌≡◌, ◌<◌, IfOk, MatchOption};
ghost use Rattle.block_discharge.specs.Seen.{IsLook};
ghost use Rattle.block_workers.specs.Seeing.{AreFound, AreRising, AreSame, IsPlaceOfPort};
ghost use Rattle.block_workers.specs.Seeing.{LeadNotTo, ways_of_ports};

use crate::Port;
use block_discharge::Letter;
use std::alloc::{AllocError, Global};
use std::mem::replace;

/// A block's ends of the rings to the other blocks.
#[derive(Drop)]
pub struct Ends {
    pub(crate) ports: Vec<Port>,
    places: Vec<u32>,
    ghost found: { AreFound ports.items places.items },
}

/// The place of the port to a block, where there is one.
fn place_of(ports: &Vec<Port>, places: &Vec<u32>, other: u32) -> Option<usize>
    requires { AreFound ports.now.items places.now.items }
    ensures { MatchOption result (LeadNotTo ports.now.items other)
        (λ k. IsPlaceOfPort ports.now.items other k) }
{
    let c = other as usize;
    if c >= places.len() {
        return None;
    }
    let k = places[c] as usize;
    if k < ports.len() && ports[k].other() == other {
        Some(k)
    } else {
        None
    }
}

/// Of each port its place, by the number of the block that it leads to. The list loses what it has.
fn places_of(ports: &Vec<Port>, blocks: u32, room: Vec<u32>) -> Result<Vec<u32>, AllocError>
    requires { AreRising blocks ports.now.items }
    ensures { IfOk result (λ places. AreFound ports.now.items places.items) }
{
    let mut places = room;
    places.clear();
    places.resize(blocks as usize, 0)?;
    let mut next = 0;
    for k in 0..ports.len() {
        places[ports[k].other() as usize] = next;
        next += 1;
    }
    Ok(places)
}

/// Whether a letter is in front of one of the ports.
fn has_letter(ports: &mut Vec<Port>) -> bool
    ensures look { IsLook (ways_of_ports ports.old.items) (ways_of_ports ports.new.items) }
    ensures same { AreSame ports.old.items ports.new.items }
{
    for k in 0..ports.len() {
        if ports[k].front().is_some() {
            return true;
        }
    }
    false
}

impl Ends {
    ghost use Rattle.std.specs.Prelude.{Option, Some, is_some, true};
    ghost use Rattle.block_events.specs.Workers.{IsFair};
    ghost use Rattle.block_discharge.specs.declared.letter.Letter.{Letter};
    ghost use Rattle.block_discharge.specs.Seen.{IsPut, IsTake};
    ghost use Rattle.block_workers.specs.Ends.{ports};

    /// The ends with these ports, which lead to blocks below `blocks` by rising numbers. The only
    /// error is that memory runs out.
    pub fn new(alloc: Global, ports: Vec<Port>, blocks: u32) -> Result<Ends, AllocError>
        requires { AreRising blocks ports.items }
        ensures { IfOk result (λ ends. ends.ports ≡ ports) }
    {
        Ends::in_room(ports, blocks, Vec::new(alloc))
    }

    /// The same in the room of a list, which loses what it has.
    pub fn in_room(ports: Vec<Port>, blocks: u32, room: Vec<u32>) -> Result<Ends, AllocError>
        requires { AreRising blocks ports.items }
        ensures { IfOk result (λ ends. ends.ports ≡ ports) }
    {
        let places = places_of(&ports, blocks, room)?;
        Ok(Ends { ports, places })
    }

    /// The ports, by rising numbers of the blocks that they lead to.
    pub fn into_ports(self) -> Vec<Port>
        ensures { result ≡ self.ports }
    {
        self.ports
    }

    /// The same, and a list for the next ends.
    pub fn into_parts(self) -> (Vec<Port>, Vec<u32>)
        ensures { result.0 ≡ self.ports }
    {
        (self.ports, self.places)
    }

    /// Takes the ends out, and leaves none.
    pub(crate) fn take_all(&mut self) -> Ends
        ensures { result ≡ self.old }
    {
        let alloc = *self.ports.allocator();
        let none = Ends {
            ports: Vec::new(alloc),
            places: Vec::new(alloc),
        };
        replace(self, none)
    }

    /// Whether there is room for a letter to another block. There is none where no port leads
    /// there.
    pub(crate) fn room(&mut self, to: u32) -> bool
        ensures look { IsLook (ways_of_ports (ports self.old)) (ways_of_ports (ports self.new)) }
        ensures same { AreSame (ports self.old) (ports self.new) }
        ensures value { result ≡ (ways_of_ports (ports self.new)).room to }
    {
        let Some(k) = place_of(&self.ports, &self.places, to) else {
            return false;
        };
        self.ports[k].room()
    }

    /// Puts a letter for another block, where room was seen. Takes no memory.
    pub(crate) fn put(&mut self, to: u32, letter: Letter)
        requires room { (ways_of_ports (ports self.old)).room to ≡ true }
        requires fair { IsFair letter.message }
        ensures put { IsPut to letter.message (ways_of_ports (ports self.old))
            (ways_of_ports (ports self.new)) }
        ensures same { AreSame (ports self.old) (ports self.new) }
    {
        if let Some(k) = place_of(&self.ports, &self.places, to) {
            self.ports[k].put(letter);
        }
    }

    /// The letter from another block that is to be taken next, where one has come.
    pub(crate) fn front(&mut self, from: u32) -> Option<Letter>
        ensures look { IsLook (ways_of_ports (ports self.old)) (ways_of_ports (ports self.new)) }
        ensures same { AreSame (ports self.old) (ports self.new) }
        ensures value { result ≡ (ways_of_ports (ports self.new)).front from }
    {
        let Some(k) = place_of(&self.ports, &self.places, from) else {
            return None;
        };
        self.ports[k].front()
    }

    /// Takes the letter that was seen in front. Takes no memory.
    pub(crate) fn take(&mut self, from: u32)
        requires { is_some ((ways_of_ports (ports self.old)).front from) ≡ true }
        ensures take { (l : Letter) → (ways_of_ports (ports self.old)).front from ≡ Some l
            → IsTake from l.message (ways_of_ports (ports self.old))
            (ways_of_ports (ports self.new)) }
        ensures same { AreSame (ports self.old) (ports self.new) }
    {
        if let Some(k) = place_of(&self.ports, &self.places, from) {
            self.ports[k].take();
        }
    }
    /// Whether a letter is in front of one of the rings. That it answers so is shown by tests; the
    /// clauses say what it leaves as it was.
    pub(crate) fn has_letter(&mut self) -> bool
        ensures look { IsLook (ways_of_ports (ports self.old)) (ways_of_ports (ports self.new)) }
        ensures same { AreSame (ports self.old) (ports self.new) }
    {
        has_letter(&mut self.ports)
    }
}
