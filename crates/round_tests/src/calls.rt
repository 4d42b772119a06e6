//! Gates that tell for which blocks they were called, and when.
use crate::gates::Calls;
use std::alloc::{AllocError, Global};
use std::sync::atomic::{AtomicBool, AtomicU32, Ordering};
use worker_options::Gate;

/// How many calls a diary has room for.
const ENTRIES: u32 = 8;

/// A call of a gate: for which block, and for which of its turns.
#[derive(Drop)]
struct Entry {
    block: AtomicU32,
    turn: AtomicU32,
}

/// Writes down the first calls in their order, and counts all. From turn 1 on it says no to the
/// blocks below a number.
#[derive(Drop)]
pub struct Diary {
    entries: Vec<Entry>,
    count: AtomicU32,
    closed: u32,
}

impl Diary {
    /// A gate of which no turn was called for yet.
    pub fn new(alloc: Global, closed: u32) -> Result<Diary, AllocError> {
        let mut entries = Vec::new(alloc);
        for _ in 0..ENTRIES {
            entries.push(Entry {
                block: AtomicU32::new(0),
                turn: AtomicU32::new(0),
            })?;
        }
        Ok(Diary {
            entries,
            count: AtomicU32::new(0),
            closed,
        })
    }

    /// How many turns were called for.
    pub fn count(&self) -> u32 {
        self.count.load(Ordering::SeqCst)
    }

    /// Whether the first turns that were called for are these, each a block and its turn.
    pub fn begins_with(&self, wanted: &[(u32, u32)]) -> bool {
        for k in 0..wanted.len() {
            let is_wanted = match self.entries.get(k) {
                Some(entry) => {
                    entry.block.load(Ordering::SeqCst) == wanted[k].0
                        && entry.turn.load(Ordering::SeqCst) == wanted[k].1
                }
                None => false,
            };
            if !is_wanted {
                return false;
            }
        }
        wanted.len() <= self.count() as usize
    }
}

impl Gate for Diary {
    fn pass(&self, block: u32, turn: u32) -> bool {
        let place = self.count.fetch_add(1, Ordering::SeqCst);
        if let Some(entry) = self.entries.get(place as usize) {
            entry.block.store(block, Ordering::SeqCst);
            entry.turn.store(turn, Ordering::SeqCst);
        }
        turn == 0 || self.closed <= block
    }
}

/// Answers one thing at turn 0 of each block, and one at all others.
#[derive(Drop)]
pub struct Only {
    pub first: bool,
    pub later: bool,
}

impl Gate for Only {
    fn pass(&self, block: u32, turn: u32) -> bool {
        if turn == 0 { self.first } else { self.later }
    }
}

/// Of three blocks holds block 1 at its turn 0 until block 2 has called for turn 2, and says no to
/// block 0 at turn 3.
#[derive(Drop)]
pub struct Lowest {
    calls: Calls,
    met: AtomicBool,
    out_of_turn: AtomicBool,
}

impl Lowest {
    /// A gate of which no turn was called for yet.
    pub fn new() -> Lowest {
        Lowest {
            calls: Calls::new(),
            met: AtomicBool::new(false),
            out_of_turn: AtomicBool::new(false),
        }
    }

    /// Whether block 2 called for turn 2 while block 1 was held, and block 0 for its turns 1 to 3
    /// before block 2 for its turn 1, and for none after them.
    pub fn went_up(&self) -> bool {
        self.met.load(Ordering::SeqCst)
            && !self.out_of_turn.load(Ordering::SeqCst)
            && self.calls.count(0) == 4
    }
}

impl Gate for Lowest {
    fn pass(&self, block: u32, turn: u32) -> bool {
        if block == 1 {
            if turn == 0 && self.calls.wait(2, 3) {
                self.met.store(true, Ordering::SeqCst);
            }
            return true;
        }
        if block == 2 && turn == 1 && self.calls.count(0) != 4 {
            self.out_of_turn.store(true, Ordering::SeqCst);
        }
        self.calls.call(block, turn);
        block != 0 || turn < 3
    }
}
