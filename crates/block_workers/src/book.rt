//! The book from which workers draw turns, and in which blocks are marked idle or busy.
ghost use Rattle.std.specs.Prelude.{◌≡◌, ◌+◌, ◌<◌, ◌≤◌, ◌↔◌, IfOk, IsTrue, MatchBool};
ghost use Rattle.block_workers.specs.Book.{DrawsOne, HasBusy, with_mark, new_turns};

use crate::Job;
use std::alloc::{AllocError, Global};
use std::marker::Model;
use std::sync::ledger::{Blank, Book, Share};

/// The turns that workers draw in a round, and a mark for each block: whether it is busy or idle.
///
/// At every moment the turns that are left and those that were drawn are together those that the
/// book began with.
#[derive(Drop)]
pub struct TurnBook<J: Job> {
    left: u32,
    drawn: u32,
    busy: Vec<bool>,
    budget_book: Book<J::Budget>,
    drawn_book: Book<J::Drawn>,
}

impl<J: Job> Model for TurnBook<J> {
    ghost use Rattle.std.specs.Prelude.{◌≡◌, ◌+◌, ◌^◌, ◌<◌};
    ghost use Rattle.block_workers.specs.Book.{Turns};

    ghost Value = { Turns };

    ghost view = { λ b. record { left = b.left; drawn = b.drawn; busy = b.busy.items } };

    ghost invariant = { λ b. (b.left + b.drawn ≡ b.budget_book.total)
        × (b.drawn_book.total ≡ b.drawn) × (b.budget_book.total < 2 ^ 32) };
}

impl<J: Job> TurnBook<J> {
    /// A book of so many turns, none of them drawn, for so many blocks, all marked busy; with it
    /// the whole share of each ledger, first that of the budget, then that of the turns drawn. The
    /// blanks become those ledgers. The only error is that memory runs out.
    pub fn new(
        alloc: Global,
        budget: Blank,
        drawn: Blank,
        turns: u32,
        blocks: u32,
    ) -> Result<(TurnBook<J>, Share<J::Budget>, Share<J::Drawn>), AllocError>
        requires budget { (budget.name ≡ J.Budget.name) × (budget.parts ≡ J.Budget.parts) }
        requires some { 0 < budget.parts }
        requires drawn { (drawn.name ≡ J.Drawn.name) × (drawn.parts ≡ J.Drawn.parts) }
        ensures book { IfOk result (λ r. r.0 ≡ new_turns turns blocks) }
        ensures budget { IfOk result (λ r. (r.1.parts ≡ J.Budget.parts) × (r.1.amount ≡ turns)) }
        ensures drawn { IfOk result (λ r. (r.2.parts ≡ J.Drawn.parts) × (r.2.amount ≡ 0)) }
    {
        let busy = vec![in alloc; true; blocks as usize]?;
        let (mut budget_book, mut whole) = budget.open::<J::Budget>();
        budget_book.add(&mut whole, turns as u64);
        let (drawn_book, none) = drawn.open::<J::Drawn>();
        let book = TurnBook {
            left: turns,
            drawn: 0,
            busy,
            budget_book,
            drawn_book,
        };
        Ok((book, whole, none))
    }

    /// Draws a turn into the share, where one is left; where none is, nothing is changed. Takes no
    /// memory.
    pub fn draw(&mut self, mine: &mut Share<J::Drawn>) -> bool
        requires { 0 < mine.old.parts }
        ensures answer { IsTrue result ↔ (0 < self.old.left) }
        ensures book { MatchBool result (DrawsOne self.old self.new) (self.new ≡ self.old) }
        ensures share { MatchBool result
            (mine.new.amount ≡ mine.old.amount + 1)
            (mine.new.amount ≡ mine.old.amount) }
        ensures parts { mine.new.parts ≡ mine.old.parts }
    {
        if self.left == 0 {
            return false;
        }
        self.drawn_book.add(mine, 1);
        self.left -= 1;
        self.drawn += 1;
        true
    }

    /// Marks a block idle or busy, and answers whether some block is marked busy. A number that is
    /// no block's changes no mark. Takes no memory.
    pub fn mark(&mut self, block: u32, idle: bool) -> bool
        ensures book { self.new ≡ with_mark self.old block idle }
        ensures answer { IsTrue result ↔ HasBusy self.new }
    {
        if (block as usize) < self.busy.len() {
            self.busy[block as usize] = !idle;
        }
        self.busy.iter().any(|busy| *busy)
    }

    /// How many turns are left.
    pub fn left(&self) -> u32
        ensures { result ≡ self.now.left }
    {
        self.left
    }

    /// How many turns were drawn.
    pub fn drawn(&self) -> u32
        ensures { result ≡ self.now.drawn }
    {
        self.drawn
    }

    /// Changes nothing. No share has more turns than were drawn, and all shares together have just
    /// those.
    pub fn audit_drawn(&mut self, share: &mut Share<J::Drawn>)
        ensures book { self.new ≡ self.old }
        ensures share { (share.new.parts ≡ share.old.parts)
            × (share.new.amount ≡ share.old.amount) }
        ensures most { share.old.amount ≤ self.old.drawn }
        ensures all { share.old.parts ≡ J.Drawn.parts → share.old.amount ≡ self.old.drawn }
    {
        self.drawn_book.audit(share);
    }

    /// Changes nothing. The whole share of the budget has as many turns as are left and were drawn.
    pub fn audit_budget(&mut self, whole: &mut Share<J::Budget>)
        requires { whole.old.parts ≡ J.Budget.parts }
        ensures book { self.new ≡ self.old }
        ensures share { (whole.new.parts ≡ whole.old.parts)
            × (whole.new.amount ≡ whole.old.amount) }
        ensures turns { self.old.left + self.old.drawn ≡ whole.old.amount }
    {
        self.budget_book.audit(whole);
    }
}
