//! Blocks, dealt to workers one after another as cards are.
ghost use Rattle.std.specs.Prelude.{◌≡◌, ◌+◌, ◌*◌, ◌<◌, ◌≤◌, ℕ, [], All, IfOk, OnErr, OnOk, map};
ghost use Rattle.std.specs.Prelude.{replicate};
ghost use Rattle.std.specs.Prelude.{slice_index_or, vec_capacity, vec_len};
ghost use Rattle.block_workers.specs.Workers.{AreNew};
ghost use Rattle.rounds.specs.Dealing.{AreDealt, hand};

use crate::collection::Room;
use crate::turned::{take_next, turn_round};
use block_rings::{Deck, Pile};
use block_workers::{Job, Seat, Worker};
use std::alloc::{AllocError, Global};
use std::sync::ledger::Share;

/// So many hands with no seat, each with room for so many, in lists of the pile. The list of hands
/// loses what it has, and the pile gets room for the lists.
fn empty_hands(
    alloc: Global,
    pile: &mut Pile<Seat>,
    hands: &mut Vec<Vec<Seat>>,
    threads: usize,
    room: usize,
) -> Result<(), AllocError>
    ensures none { OnOk result (map (λ h. h.items) hands.new.items ≡ replicate threads []) }
    ensures room { OnOk result (All (λ h. room ≤ vec_capacity h) hands.new.items) }
{
    pile.reserve(threads)?;
    hands.clear();
    for _hand in 0..threads {
        hands.push(pile.take(alloc, room)?)?;
    }
    Ok(())
}

/// Each seat goes to the hand whose turn it is. No seat is left, and the list keeps its room.
fn fill(seats: &mut Vec<Seat>, hands: &mut Vec<Vec<Seat>>, room: usize)
    requires some { 0 < vec_len hands.old }
    requires none { map (λ h. h.items) hands.old.items ≡ replicate (vec_len hands.old) [] }
    requires room { All (λ h. room ≤ vec_capacity h) hands.old.items }
    requires enough { vec_len seats.old < room * vec_len hands.old }
    ensures dealt { AreDealt (vec_len hands.old) seats.old.items
        (map (λ h. h.items) hands.new.items) }
    ensures left { vec_len seats.new ≡ 0 }
    ensures capacity { vec_capacity seats.new ≡ vec_capacity seats.old }
{
    turn_round(seats);
    let threads = hands.len();
    let count = seats.len();
    for dealt in 0..count {
        let seat = take_next(seats);
        hands[dealt % threads].push_reserved(seat);
    }
}

/// A worker for each hand, with one part of the share. No hand is left, and the list keeps its
/// room.
fn enlist<J: Job>(
    hands: &mut Vec<Vec<Seat>>,
    workers: &mut Vec<Worker<J>>,
    share: &mut Share<J::Drawn>,
)
    requires new { (w : ℕ) → AreNew (hand (map (λ h. h.items) hands.old.items) w) }
    requires none { vec_len workers.old ≡ 0 }
    requires room { vec_len hands.old ≤ vec_capacity workers.old }
    requires parts { vec_len hands.old ≤ share.old.parts }
    requires amount { share.old.amount ≡ 0 }
    ensures workers { map (λ w. w.seats.items) workers.new.items
        ≡ map (λ h. h.items) hands.old.items }
    ensures parts { share.new.parts + vec_len hands.old ≡ share.old.parts }
    ensures amount { share.new.amount ≡ 0 }
    ensures left { vec_len hands.new ≡ 0 }
    ensures capacity { vec_capacity hands.new ≡ vec_capacity hands.old }
{
    turn_round(hands);
    let count = hands.len();
    for _hand in 0..count {
        let hand = take_next(hands);
        workers.push_reserved(Worker::new(hand, share.split_off(1, 0)));
    }
}

/// Seats that drew no turn, dealt one after another to so many workers: the first to the first of
/// them, and so on, and again from the first. So each has its seats in their order. Each worker
/// gets one part of the share. The lists that are emptied are room for the seats when they come
/// back. All growths come before the first seat moves, and the only error is that memory runs out.
pub(crate) fn deal<J: Job>(
    alloc: Global,
    deck: Deck,
    threads: usize,
    share: &mut Share<J::Drawn>,
) -> Result<(Vec<Worker<J>>, Room), AllocError>
    requires some { 0 < threads }
    requires parts { threads ≤ share.old.parts }
    requires none { share.old.amount ≡ 0 }
    requires new { AreNew deck.seats.items }
    ensures dealt { IfOk result
        (λ v. AreDealt threads deck.seats.items (map (λ w. w.seats.items) v.0.items)) }
    ensures new { IfOk result (λ v. (i : ℕ) (d : _) → i < vec_len v.0
        → AreNew (slice_index_or v.0.items i d).seats.items) }
    ensures count { IfOk result (λ v. v.1.count ≡ vec_len deck.seats) }
    ensures hands { IfOk result (λ v. threads ≤ vec_capacity v.1.hands) }
    ensures parts { OnOk result (share.new.parts + threads ≡ share.old.parts) }
    ensures kept { OnErr result (share.new.parts ≡ share.old.parts) }
    ensures none { share.new.amount ≡ 0 }
{
    let Deck {
        mut seats,
        mut hands,
        mut pile,
    } = deck;
    let count = seats.len();
    let room = count / threads + 1;
    empty_hands(alloc, &mut pile, &mut hands, threads, room)?;
    let mut workers = Vec::with_capacity(alloc, threads)?;
    fill(&mut seats, &mut hands, room);
    enlist(&mut hands, &mut workers, share);
    let room = Room {
        count,
        seats,
        hands,
        pile,
    };
    Ok((workers, room))
}
