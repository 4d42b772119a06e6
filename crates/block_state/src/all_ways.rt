//! The messages on the ways between blocks.
ghost use Rattle.std.specs.Prelude.{IfOk, map, ◌≡◌, ◌↔◌, ◌^◌, ◌<◌, ◌≤◌, ℕ, IsTrue, MatchOption};
ghost use Rattle.std.specs.Prelude.{Some, length, slice_get, slice_index_or, [], ◌∷◌};
ghost use Rattle.std.specs.Prelude.{drop};
ghost use Rattle.std.specs.VecDeque.{deque_capacity};
ghost use Rattle.block_events.specs.States.{way_at, put_way, put_message};
ghost use Rattle.block_events.specs.Soundness.{IsSquare, direction_of};
ghost use Rattle.block_state.specs.AllWays.{AllWaysView, room_at};

use crate::compact::CompactMessage;
use crate::rooms::Rooms;
use block_events::Message;
use std::alloc::{AllocError, Global};
use std::collections::VecDeque;
use std::marker::Model;

/// The messages on the way from each block to each other, in room that was made once: 24 bytes a
/// message, and of each arc between two blocks two messages each way.
#[derive(Drop)]
pub struct AllWays {
    rows: Vec<Vec<VecDeque<CompactMessage>>>,
}

impl Model for AllWays {
    ghost use Rattle.std.specs.Prelude.{map};
    ghost use Rattle.std.specs.VecDeque.{deque_capacity};
    ghost use Rattle.block_state.specs.AllWays.{AllWaysView, all_ways_view};

    ghost Value = { AllWaysView };

    ghost view = { λ m. all_ways_view (map (λ row. map (λ way. way.items) row.items) m.rows.items)
        (map (λ row. map (λ way. deque_capacity way) row.items) m.rows.items) };
}

/// Empty ways of one block, each with the room that is told.
fn empty_ways(alloc: Global, rooms: &[usize]) -> Result<Vec<VecDeque<CompactMessage>>, AllocError>
    ensures messages { IfOk result
        (λ ways. map (λ way. way.items) ways.items ≡ map (λ n. []) rooms.now) }
    ensures rooms { IfOk result (λ ways. map (λ way. deque_capacity way) ways.items ≡ rooms.now) }
{
    let mut ways = Vec::with_capacity(alloc, rooms.len())?;
    for room in rooms {
        ways.push(VecDeque::with_capacity(alloc, *room)?)?;
    }
    Ok(ways)
}

impl AllWays {
    /// Empty ways, with the rooms that are told: of each block those of its ways to each other.
    pub fn open(alloc: Global, rooms: &Rooms) -> Result<AllWays, AllocError>
        ensures messages { IfOk result
            (λ all_ways. all_ways.messages ≡ map (λ row. map (λ n. []) row) rooms.now) }
        ensures rooms { IfOk result (λ all_ways. all_ways.rooms ≡ rooms.now) }
    {
        let mut rows = Vec::with_capacity(alloc, rooms.len())?;
        'rows: for from in 0..rooms.len() {
            rows.push(empty_ways(alloc, rooms.row(from))?)?;
        }
        Ok(AllWays { rows })
    }

    /// The message that is next to be taken from a way.
    pub fn front(&self, from: usize, to: usize) -> Option<Message>
        requires from { from < length self.now.messages }
        requires to { to < length (slice_index_or self.now.messages from []) }
        ensures { MatchOption result (way_at self.now.messages from to ≡ [])
            (λ message. way_at self.now.messages from to
            ≡ message ∷ drop 1 (way_at self.now.messages from to)) }
    {
        match self.rows[from][to].front() {
            Some(kept) => Some(kept.message()),
            None => None,
        }
    }

    /// The message at a place of a way: at 0 stands the one that is next to be taken.
    pub fn message(&self, from: usize, to: usize, place: usize) -> Option<Message>
        requires from { from < length self.now.messages }
        requires to { to < length (slice_index_or self.now.messages from []) }
        ensures { MatchOption result (length (way_at self.now.messages from to) ≤ place)
            (λ message. slice_get (way_at self.now.messages from to) place ≡ Some message) }
    {
        match self.rows[from][to].get(place) {
            Some(kept) => Some(kept.message()),
            None => None,
        }
    }

    /// The message in front leaves its way, if there is one.
    pub fn take(&mut self, from: usize, to: usize)
        requires from { from < length self.old.messages }
        requires to { to < length (slice_index_or self.old.messages from []) }
        ensures messages { self.new.messages
            ≡ put_way self.old.messages from to (drop 1 (way_at self.old.messages from to)) }
        ensures rooms { self.new.rooms ≡ self.old.rooms }
    {
        self.rows[from][to].pop_front();
    }

    /// A message goes to the end of a way that has room.
    pub fn put(&mut self, from: usize, to: usize, message: Message)
        requires from { from < length self.old.messages }
        requires to { to < length (slice_index_or self.old.messages from []) }
        requires room { length (way_at self.old.messages from to) < room_at self.old.rooms from to }
        requires arc { (direction_of message).arc < 2 ^ 32 }
        ensures messages { self.new.messages ≡ put_message self.old.messages from to message }
        ensures rooms { self.new.rooms ≡ self.old.rooms }
    {
        self.rows[from][to].push_back_reserved(CompactMessage::of(message));
    }

    /// Whether a way has room for one message more.
    pub fn has_room(&self, from: usize, to: usize) -> bool
        requires from { from < length self.now.messages }
        requires to { to < length (slice_index_or self.now.messages from []) }
        ensures { IsTrue result
            ↔ (length (way_at self.now.messages from to) < room_at self.now.rooms from to) }
    {
        let way = &self.rows[from][to];
        way.len() < way.capacity()
    }

    /// Whether no message is on the way from a block to the first so many.
    fn is_row_quiet(&self, from: usize, count: usize) -> bool
        requires from { from < length self.now.messages }
        requires to { count ≤ length (slice_index_or self.now.messages from []) }
        ensures { IsTrue result ↔ ((c : ℕ) → c < count → way_at self.now.messages from c ≡ []) }
    {
        for to in 0..count {
            if self.front(from, to).is_some() {
                return false;
            }
        }
        true
    }

    /// Whether no message is on the way between so many blocks.
    pub fn is_quiet(&self, count: usize) -> bool
        requires { IsSquare count self.now.messages }
        ensures { IsTrue result ↔
            ((b c : ℕ) → b < count → c < count → way_at self.now.messages b c ≡ []) }
    {
        for from in 0..count {
            if !self.is_row_quiet(from, count) {
                return false;
            }
        }
        true
    }
}
