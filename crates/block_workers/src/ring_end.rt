//! The two ends of a ring between blocks. It serves for one round after another: what was put and
//! taken before a round is told from what is put and taken in it.
ghost use Rattle.std.specs.Prelude.{◌≡◌, ◌+◌, ◌<◌, ◌≤◌, ◌++◌, ◌↔◌, IfOk, IsTrue, length};
ghost use Rattle.block_events.specs.Workers.{IsFair};
ghost use Rattle.rtrb.specs.Ring.{sent, received, known_free};

use crate::rule::Fair;
use block_discharge::Letter;
use rtrb::{Consumer, Producer, RingBuffer};
use std::alloc::{AllocError, Global};

/// The end of a ring that letters are put into.
#[derive(Drop)]
pub struct Inlet {
    pub(crate) ring: Producer<Letter, Global, Fair>,
    /// How many letters were put so far, in all rounds.
    pub(crate) count: u64,
    /// How many of them were put before this round.
    pub(crate) before: u64,
    ghost counted: { length (sent ring) ≡ count },
    ghost since: { before ≤ count },
}

/// The end of a ring that letters are taken from.
#[derive(Drop)]
pub struct Outlet {
    pub(crate) ring: Consumer<Letter, Global, Fair>,
    /// How many letters were taken before this round.
    pub(crate) before: u64,
    ghost since: { before ≤ length (received ring) },
}

impl Inlet {
    ghost use Rattle.block_workers.specs.RingEnds.{AreOfRing, IsEmptyRing, LooksIn, PutsIn};
    ghost use Rattle.block_workers.specs.RingEnds.{room_seen};

    /// The two ends of a new ring with room for so many letters. The only error is that memory runs
    /// out.
    pub(crate) fn join(alloc: Global, room: usize) -> Result<(Inlet, Outlet), AllocError>
        ensures ends { IfOk result (λ ends. AreOfRing ends.0 ends.1) }
        ensures empty { IfOk result (λ ends. IsEmptyRing room ends.0 ends.1) }
    {
        let (producer, consumer) = RingBuffer::with_protocol::<Global, Fair>(alloc, room)?;
        let inlet = Inlet {
            ring: producer,
            count: 0,
            before: 0,
        };
        let outlet = Outlet {
            ring: consumer,
            before: 0,
        };
        Ok((inlet, outlet))
    }

    /// Whether room for a letter is seen.
    pub(crate) fn has_room(&mut self) -> bool
        ensures look { LooksIn self.old self.new }
        ensures value { IsTrue result ↔ (0 < room_seen self.new) }
    {
        self.ring.slots() > 0 && self.count < u64::MAX
    }

    /// Puts a letter, for which room was seen. Takes no memory.
    pub(crate) fn put(&mut self, letter: Letter)
        requires room { 0 < room_seen self.old }
        requires fair { IsFair letter.message }
        ensures { PutsIn letter self.old self.new }
    {
        self.ring.push_reserved(letter);
        self.count += 1;
    }
}

impl Outlet {
    ghost use Rattle.std.specs.Prelude.{IsSome};
    ghost use Rattle.std.specs.Prelude.{IsFalse};
    ghost use Rattle.block_workers.specs.RingEnds.{AreOfRing, CanServe, IsEmptyRing};
    ghost use Rattle.block_workers.specs.RingEnds.{IsInletAgain, IsOutletAgain, LooksIn, LooksOut};
    ghost use Rattle.block_workers.specs.RingEnds.{TakesOut, first_seen, letters_in, letters_out};
    ghost use Rattle.block_workers.specs.RingEnds.{letters_seen, inlet_room};

    /// The letter that is to be taken next, where one is seen.
    pub(crate) fn front(&mut self) -> Option<Letter>
        ensures look { LooksOut self.old self.new }
        ensures value { result ≡ first_seen self.new }
    {
        if self.ring.slots() == 0 {
            return None;
        }
        Some(*self.ring.peek_known())
    }

    /// Takes the letter in front, which was seen there. Takes no memory.
    pub(crate) fn take(&mut self) -> Letter
        requires { IsSome (first_seen self.old) }
        ensures taken { TakesOut result self.old self.new }
        ensures fair { IsFair result.message }
    {
        self.ring.pop_known()
    }

    /// Looks at what is left in the ring, with its other end: how many letters wait there. Takes no
    /// memory.
    pub(crate) fn see_left(&mut self, inlet: &mut Inlet) -> usize
        requires ends { AreOfRing inlet.old self.old }
        ensures left { letters_in inlet.old ≡ letters_out self.old ++ letters_seen self.new }
        ensures count { result ≡ length (letters_seen self.new) }
        ensures room { result ≤ inlet_room inlet.old }
        ensures inlet { LooksIn inlet.old inlet.new }
        ensures outlet { LooksOut self.old self.new }
        ensures counted { inlet.new.count ≡ inlet.old.count }
        ensures all { received self.new.ring ++ letters_seen self.new ≡ sent inlet.new.ring }
        ensures free { inlet_room inlet.new + length (received self.new.ring)
            ≤ known_free inlet.new.ring + length (sent inlet.new.ring) }
    {
        inlet.ring.slots_beside(&mut self.ring);
        self.ring.slots_beside(&mut inlet.ring)
    }

    /// Begins a round anew, with the ring's other end: nothing was put or taken in it so far.
    /// Answers whether it did: exactly where the ring is empty, has room for `room` letters, and so
    /// many more can be counted. Takes no memory.
    pub(crate) fn begin(&mut self, inlet: &mut Inlet, room: usize) -> bool
        requires ends { AreOfRing inlet.old self.old }
        ensures ends { AreOfRing inlet.new self.new }
        ensures inlet { IsInletAgain inlet.old inlet.new }
        ensures outlet { IsOutletAgain self.old self.new }
        ensures empty { IsTrue result → IsEmptyRing room inlet.new self.new }
        ensures refused { IsFalse result → ¬ CanServe room inlet.old self.old }
    {
        let left = self.see_left(inlet);
        let most = u64::MAX - room as u64;
        if left > 0 || inlet.ring.capacity() != room || inlet.count > most {
            return false;
        }
        inlet.before = inlet.count;
        self.before = inlet.count;
        true
    }
}
