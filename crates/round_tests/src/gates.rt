//! Gates that hold the turns of two blocks until the other has come as far, or further.
use std::hint::spin_loop;
use std::sync::atomic::{AtomicBool, AtomicU32, Ordering};
use worker_options::Gate;

/// How often a block that waits looks whether the other has come.
const TRIES: u32 = 10_000_000;

/// How many turns each of two blocks has called for.
#[derive(Drop)]
pub struct Calls {
    first: AtomicU32,
    second: AtomicU32,
}

impl Calls {
    /// No turn was called for yet.
    pub fn new() -> Calls {
        Calls {
            first: AtomicU32::new(0),
            second: AtomicU32::new(0),
        }
    }

    fn of(&self, block: u32) -> &AtomicU32 {
        if block == 0 {
            &self.first
        } else {
            &self.second
        }
    }

    /// A block has called for a turn.
    pub fn call(&self, block: u32, turn: u32) {
        self.of(block)
            .store(turn.saturating_add(1), Ordering::SeqCst);
    }

    /// How many turns a block has called for.
    pub fn count(&self, block: u32) -> u32 {
        self.of(block).load(Ordering::SeqCst)
    }

    /// Whether a block has called for so many turns before the tries were over.
    pub fn wait(&self, block: u32, turns: u32) -> bool {
        for _ in 0..TRIES {
            if turns <= self.count(block) {
                return true;
            }
            spin_loop();
        }
        false
    }
}

/// Holds each of two blocks at its turns 0 and 1 until the other has called for the same turn.
#[derive(Drop)]
pub struct Overlap {
    calls: Calls,
    met: AtomicU32,
}

impl Overlap {
    /// A gate of which no turn was called for yet.
    pub fn new() -> Overlap {
        Overlap {
            calls: Calls::new(),
            met: AtomicU32::new(0),
        }
    }

    /// How many of the four calls met the other block's.
    pub fn met(&self) -> u32 {
        self.met.load(Ordering::SeqCst)
    }
}

impl Gate for Overlap {
    fn pass(&self, block: u32, turn: u32) -> bool {
        self.calls.call(block, turn);
        if turn <= 1 && self.calls.wait(1 - block.min(1), turn.saturating_add(1)) {
            self.met.fetch_add(1, Ordering::SeqCst);
        }
        true
    }
}

/// Holds block 0 at its turn 0, before which it is marked busy, until block 1 has called for turn
/// 2.
#[derive(Drop)]
pub struct Held {
    calls: Calls,
    met: AtomicBool,
}

impl Held {
    /// A gate of which no turn was called for yet.
    pub fn new() -> Held {
        Held {
            calls: Calls::new(),
            met: AtomicBool::new(false),
        }
    }

    /// Whether block 1 has called for turn 2 while block 0 was held.
    pub fn met(&self) -> bool {
        self.met.load(Ordering::SeqCst)
    }
}

impl Gate for Held {
    fn pass(&self, block: u32, turn: u32) -> bool {
        self.calls.call(block, turn);
        if block == 0 && turn == 0 && self.calls.wait(1, 3) {
            self.met.store(true, Ordering::SeqCst);
        }
        true
    }
}

/// How far both blocks have to come before a wait may give up.
const FAR: u32 = 2_000;

/// Makes the turns of two blocks alternate: block 0's turn t, from 1 on, waits until block 1 has
/// called for t, and block 1's until block 0 has called for t + 1. Once a wait gave up, no call
/// waits.
#[derive(Drop)]
pub struct Alternate {
    calls: Calls,
    gave_up: AtomicBool,
    too_early: AtomicBool,
}

impl Alternate {
    /// A gate of which no turn was called for yet.
    pub fn new() -> Alternate {
        Alternate {
            calls: Calls::new(),
            gave_up: AtomicBool::new(false),
            too_early: AtomicBool::new(false),
        }
    }

    /// Whether a block has called for turn 2,000.
    fn is_far(&self, block: u32) -> bool {
        FAR < self.calls.count(block)
    }

    /// Whether both blocks called for turn 2,000, and no wait gave up before.
    pub fn went_far(&self) -> bool {
        self.is_far(0) && self.is_far(1) && !self.too_early.load(Ordering::SeqCst)
    }

    /// Waits for the other block, once nobody gave up before.
    fn wait(&self, other: u32, turns: u32) {
        if self.gave_up.load(Ordering::SeqCst) || self.calls.wait(other, turns) {
            return;
        }
        if !(self.is_far(0) && self.is_far(1)) {
            self.too_early.store(true, Ordering::SeqCst);
        }
        self.gave_up.store(true, Ordering::SeqCst);
    }
}

impl Gate for Alternate {
    fn pass(&self, block: u32, turn: u32) -> bool {
        self.calls.call(block, turn);
        if block == 1 {
            self.wait(0, turn.saturating_add(2));
        } else if turn >= 1 {
            self.wait(1, turn.saturating_add(1));
        }
        true
    }
}

/// A gate that always says yes.
pub struct Open;

impl Gate for Open {
    fn pass(&self, block: u32, turn: u32) -> bool {
        true
    }
}

/// Says no to each of two blocks from turn 1 on.
#[derive(Drop)]
pub struct Closed {
    first: AtomicBool,
    second: AtomicBool,
    calls: AtomicU32,
    noes: AtomicU32,
    went_on: AtomicBool,
}

impl Closed {
    /// A gate of which no turn was called for yet.
    pub fn new() -> Closed {
        Closed {
            first: AtomicBool::new(false),
            second: AtomicBool::new(false),
            calls: AtomicU32::new(0),
            noes: AtomicU32::new(0),
            went_on: AtomicBool::new(false),
        }
    }

    /// Whether the last answer for a block was no.
    fn of(&self, block: u32) -> &AtomicBool {
        if block == 0 {
            &self.first
        } else {
            &self.second
        }
    }

    /// How many turns were called for.
    pub fn calls(&self) -> u32 {
        self.calls.load(Ordering::SeqCst)
    }

    /// How many of them got a no.
    pub fn noes(&self) -> u32 {
        self.noes.load(Ordering::SeqCst)
    }

    /// Whether a block called for a turn other than its first after a no.
    pub fn went_on(&self) -> bool {
        self.went_on.load(Ordering::SeqCst)
    }
}

impl Gate for Closed {
    fn pass(&self, block: u32, turn: u32) -> bool {
        self.calls.fetch_add(1, Ordering::SeqCst);
        if turn == 0 {
            self.of(block).store(false, Ordering::SeqCst);
            return true;
        }
        if self.of(block).swap(true, Ordering::SeqCst) {
            self.went_on.store(true, Ordering::SeqCst);
        }
        self.noes.fetch_add(1, Ordering::SeqCst);
        false
    }
}
