//! Blocks, dealt to workers, worked on, and collected.
ghost use Rattle.std.specs.Prelude.{◌≡◌, ◌<◌, ◌≤◌, IfErr, IfOk};
ghost use Rattle.block_workers.specs.Workers.{AllWorked, AreNew, turns_of};
ghost use Rattle.block_workers.specs.declared.crew.RoundError.TheVariants.{Workers};

use crate::seat_work::work_seats;
use block_rings::Deck;
use block_workers::{Job, RoundError, TurnBook};
use std::alloc::Global;
use std::sync::ledger::Share;
use std::sync::{Mutex, Wait};
use std::thread::Threads;
use worker_options::Gate;

/// The shares of a book's ledgers with which a round begins.
#[derive(Drop)]
pub(crate) struct Shares<J: Job> {
    /// Of the turns that the book began with: the whole.
    pub whole: Share<J::Budget>,
    /// Of the turns that are drawn: the workers', who have drawn none.
    pub drawn: Share<J::Drawn>,
}

/// The seats are dealt to so many workers, which do their turns, and are collected again. No more
/// turns are drawn than the book began with. All growths come before the first worker starts.
pub(crate) fn work_on<J: Job + Sync, R: Threads + Wait + Sync, G: Gate>(
    rt: &R,
    alloc: Global,
    deck: Deck,
    threads: usize,
    book: TurnBook<J>,
    shares: Shares<J>,
    gate: &G,
) -> Result<Deck, RoundError>
    requires new { AreNew deck.seats.items }
    requires some { 0 < threads }
    requires whole { shares.whole.parts ≡ J.Budget.parts }
    requires all { shares.drawn.parts ≡ J.Drawn.parts }
    requires parts { shares.drawn.parts ≡ threads }
    requires none { shares.drawn.amount ≡ 0 }
    ensures worked { IfOk result (λ back. AllWorked deck.seats.items back.seats.items) }
    ensures few { IfOk result (λ back. turns_of back.seats.items ≤ shares.whole.amount) }
    ensures asked { IfErr result (λ e. e ≡ Workers → 1 < threads) }
{
    let Shares {
        mut whole,
        mut drawn,
    } = shares;
    let book = Mutex::new(book);
    let back = work_seats::<J, R, G>(rt, alloc, deck, threads, &mut drawn, &book, gate)?;
    let mut book = book.into_inner();
    book.audit_drawn(&mut drawn);
    book.audit_budget(&mut whole);
    Ok(back)
}
