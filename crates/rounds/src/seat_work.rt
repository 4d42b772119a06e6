//! The turns of all blocks, by workers in threads.
ghost use Rattle.std.specs.Prelude.{◌≡◌, ◌+◌, ◌<◌, ◌≤◌, ◌⊎◌, IfErr, IfOk, OnErr, OnOk};
ghost use Rattle.block_workers.specs.Workers.{AllWorked, AreNew, turns_of};
ghost use Rattle.block_workers.specs.declared.crew.RoundError.TheVariants.{Workers};

use crate::collection::collect;
use crate::hands::deal;
use block_rings::Deck;
use block_workers::{Job, RoundError, TurnBook, all_work};
use std::alloc::Global;
use std::sync::ledger::Share;
use std::sync::{Mutex, Wait};
use std::thread::Threads;
use worker_options::Gate;

/// The seats dealt to so many workers, each in a thread of its own but one that is alone, and
/// collected again in their order. They did turn 0 and the turns that were drawn, which the share
/// counts. All growths come before the first worker starts.
///
/// After an error the seats are lost, and the share counts no turn. Where a worker was refused it
/// lacks the parts that the workers got, and where memory ran out it lacks them or none.
pub(crate) fn work_seats<J: Job + Sync, R: Threads + Wait + Sync, G: Gate>(
    rt: &R,
    alloc: Global,
    deck: Deck,
    threads: usize,
    share: &mut Share<J::Drawn>,
    book: &Mutex<TurnBook<J>>,
    gate: &G,
) -> Result<Deck, RoundError>
    requires some { 0 < threads }
    requires parts { threads ≤ share.old.parts }
    requires none { share.old.amount ≡ 0 }
    requires new { AreNew deck.seats.items }
    ensures worked { IfOk result (λ v. AllWorked deck.seats.items v.seats.items) }
    ensures parts { OnOk result (share.new.parts ≡ share.old.parts) }
    ensures turns { IfOk result (λ v. share.new.amount ≡ turns_of v.seats.items) }
    ensures none { OnErr result (share.new.amount ≡ 0) }
    ensures lost { OnErr result ((share.new.parts ≡ share.old.parts)
        ⊎ (share.new.parts + threads ≡ share.old.parts)) }
    ensures refused { IfErr result
        (λ e. e ≡ Workers → share.new.parts + threads ≡ share.old.parts) }
    ensures asked { IfErr result (λ e. e ≡ Workers → 1 < threads) }
{
    let (workers, room) = deal::<J>(alloc, deck, threads, share)?;
    let back = all_work(rt, alloc, workers, book, gate)?;
    Ok(collect(back, room, share))
}
