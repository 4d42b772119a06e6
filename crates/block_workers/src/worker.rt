//! A worker: the blocks that it was dealt, and its share of the turns.
ghost use Rattle.std.specs.Prelude.{◌≡◌, ◌+◌, ◌<◌, ◌^◌, IfSome, MatchBool, vec_len};
ghost use Rattle.block_workers.specs.Workers.{AllAdvanced, AllWorked, AreNew, turns_of};

use crate::{Job, Seat, TurnBook};
use std::sync::ledger::Share;
use std::sync::{Mutex, Wait};
use worker_options::Gate;

/// A worker with the blocks that were moved to it, by rising numbers, and its part of the ledger of
/// turns drawn: as many as its blocks drew.
#[derive(Drop)]
pub struct Worker<J: Job> {
    pub(crate) seats: Vec<Seat>,
    pub(crate) share: Share<J::Drawn>,
    pub(crate) has_busy: bool,
    ghost counted: { turns_of seats.items ≡ share.amount },
    ghost part: { share.parts ≡ 1 },
}

/// Draws a turn into the share, where one is left.
fn draw<J: Job, R: Wait>(rt: &R, book: &Mutex<TurnBook<J>>, share: &mut Share<J::Drawn>) -> bool
    requires { 0 < share.old.parts }
    ensures share { MatchBool result
        (share.new.amount ≡ share.old.amount + 1)
        (share.new.amount ≡ share.old.amount) }
    ensures parts { share.new.parts ≡ share.old.parts }
    ensures small { share.new.amount < 2 ^ 32 }
{
    let mut turns = book.lock(rt);
    let is_drawn = turns.draw(share);
    turns.audit_drawn(share);
    let _drawn = turns.drawn();
    is_drawn
}

/// The lowest block that has not ended.
fn lowest_left(seats: &Vec<Seat>) -> Option<usize>
    ensures { IfSome result (λ k. k < vec_len seats.now) }
{
    for k in 0..seats.len() {
        if !seats[k].has_ended {
            return Some(k);
        }
    }
    None
}

impl<J: Job> Worker<J> {
    /// A worker with these blocks and one part of the ledger, which has as many turns as the blocks
    /// drew.
    pub fn new(seats: Vec<Seat>, share: Share<J::Drawn>) -> Worker<J>
        requires counted { turns_of seats.items ≡ share.amount }
        requires part { share.parts ≡ 1 }
        ensures { result.seats ≡ seats }
    {
        Worker {
            seats,
            share,
            has_busy: true,
        }
    }

    /// The blocks in their order, and the part of the ledger: it has as many turns as the blocks
    /// drew.
    pub fn into_parts(self) -> (Vec<Seat>, Share<J::Drawn>)
        ensures seats { result.0 ≡ self.seats }
        ensures counted { turns_of result.0.items ≡ result.1.amount }
        ensures part { result.1.parts ≡ 1 }
    {
        (self.seats, self.share)
    }

    /// Draws a turn and does it for the block at a place among its blocks. Answers whether one was
    /// drawn.
    fn take_turn<R: Wait, G: Gate>(
        &mut self,
        rt: &R,
        k: usize,
        book: &Mutex<TurnBook<J>>,
        gate: &G,
    ) -> bool
        requires { k < vec_len self.old.seats }
        ensures { AllAdvanced self.old.seats.items self.new.seats.items }
    {
        if !draw(rt, book, &mut self.share) {
            return false;
        }
        self.has_busy = self.seats[k].go_on(rt, book, gate);
        true
    }

    /// Turn 0 of each block.
    fn begin_all<R: Wait, G: Gate>(&mut self, rt: &R, book: &Mutex<TurnBook<J>>, gate: &G)
        requires { AreNew self.old.seats.items }
        ensures { AllWorked self.old.seats.items self.new.seats.items }
    {
        for k in 0..self.seats.len() {
            self.has_busy = self.seats[k].begin(rt, book, gate);
        }
    }

    /// A turn of the block at a place, where it wants one. Answers whether it did, and nothing
    /// where no turn was left to draw.
    fn turn_if_wanted<R: Wait, G: Gate>(
        &mut self,
        rt: &R,
        k: usize,
        book: &Mutex<TurnBook<J>>,
        gate: &G,
    ) -> Option<bool>
        requires { k < vec_len self.old.seats }
        ensures { AllAdvanced self.old.seats.items self.new.seats.items }
    {
        if !self.seats[k].wants() {
            return Some(false);
        }
        if !self.take_turn(rt, k, book, gate) {
            return None;
        }
        Some(true)
    }

    /// A turn of each block that wants one. Answers whether some block did, and nothing where no
    /// turn was left to draw.
    fn pass<R: Wait, G: Gate>(
        &mut self,
        rt: &R,
        book: &Mutex<TurnBook<J>>,
        gate: &G,
    ) -> Option<bool>
        ensures { AllAdvanced self.old.seats.items self.new.seats.items }
    {
        let mut is_wanted = false;
        for k in 0..self.seats.len() {
            match self.turn_if_wanted(rt, k, book, gate) {
                Some(did) => is_wanted = is_wanted || did,
                None => return None,
            }
        }
        Some(is_wanted)
    }

    /// A turn of the lowest block that has not ended, as long as some block is marked busy. Answers
    /// whether there was one.
    fn wait_turn<R: Wait, G: Gate>(&mut self, rt: &R, book: &Mutex<TurnBook<J>>, gate: &G) -> bool
        ensures { AllAdvanced self.old.seats.items self.new.seats.items }
    {
        if !self.has_busy {
            return false;
        }
        match lowest_left(&self.seats) {
            Some(k) => self.take_turn(rt, k, book, gate),
            None => false,
        }
    }

    /// All that the worker does in a round: turn 0 of each block, and then the turns that it draws,
    /// in rising number of the blocks, again and again. A block wants a turn where it has not
    /// ended, and its last turn did an event or a letter is in front of one of its rings. Where no
    /// block wants one, the lowest that has not ended has a turn, as long as some block of the
    /// round is marked busy. Takes no memory.
    ///
    /// Who gets a turn is shown by tests: the clauses say of any turns what they did.
    pub fn work<R: Wait, G: Gate>(&mut self, rt: &R, book: &Mutex<TurnBook<J>>, gate: &G)
        requires { AreNew self.old.seats.items }
        ensures { AllWorked self.old.seats.items self.new.seats.items }
    {
        self.begin_all(rt, book, gate);
        for _ in rt.forever() {
            match self.pass(rt, book, gate) {
                Some(true) => (),
                Some(false) => {
                    if !self.wait_turn(rt, book, gate) {
                        return;
                    }
                }
                None => return,
            }
        }
    }

    /// The same for a worker that is moved into a thread and comes back.
    pub fn after_work<R: Wait, G: Gate>(
        self,
        rt: &R,
        book: &Mutex<TurnBook<J>>,
        gate: &G,
    ) -> Worker<J>
        requires { AreNew self.seats.items }
        ensures { AllWorked self.seats.items result.seats.items }
    {
        let mut worker = self;
        worker.work(rt, book, gate);
        worker
    }
}
