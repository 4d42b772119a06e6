//! Blocks that come back from their workers, in their order again.
ghost use Rattle.std.specs.Prelude.{◌≡◌, ◌+◌, ◌≤◌, map, reverse, sum_by};
ghost use Rattle.std.specs.Prelude.{vec_capacity, vec_len};
ghost use Rattle.block_workers.specs.Workers.{turns_of};
ghost use Rattle.rounds.specs.Dealing.{AreDealt, AreHands};

use crate::turned::{take_next, turn_round};
use block_rings::{Deck, Pile};
use block_workers::{Job, Seat, Worker};
use std::sync::ledger::Share;

/// Room for seats that come back from workers.
#[derive(Drop)]
pub(crate) struct Room {
    pub(crate) count: usize,
    pub(crate) seats: Vec<Seat>,
    pub(crate) hands: Vec<Vec<Seat>>,
    pub(crate) pile: Pile<Seat>,
    ghost no_seats: { vec_len seats ≡ 0 },
    ghost no_hands: { vec_len hands ≡ 0 },
    ghost enough: { count ≤ vec_capacity seats },
}

/// The seats of each worker apart, turned round, and their parts of the share together again.
fn open_all<J: Job>(
    workers: Vec<Worker<J>>,
    hands: &mut Vec<Vec<Seat>>,
    share: &mut Share<J::Drawn>,
)
    requires none { vec_len hands.old ≡ 0 }
    requires room { vec_len workers ≤ vec_capacity hands.old }
    ensures hands { map (λ h. reverse h.items) hands.new.items
        ≡ map (λ w. w.seats.items) workers.items }
    ensures parts { share.new.parts ≡ share.old.parts + vec_len workers }
    ensures turns { share.new.amount
        ≡ share.old.amount + sum_by turns_of (map (λ w. w.seats.items) workers.items) }
{
    for worker in workers {
        let (mut seats, part) = worker.into_parts();
        share.merge(part);
        turn_round(&mut seats);
        hands.push_reserved(seats);
    }
}

/// So many seats, one after another, each from the hand whose turn it is. The hands were turned
/// round.
fn gather(hands: &mut Vec<Vec<Seat>>, seats: &mut Vec<Seat>, count: usize)
    requires hands { AreHands (vec_len hands.old) count
        (map (λ h. reverse h.items) hands.old.items) }
    requires none { vec_len seats.old ≡ 0 }
    requires room { count ≤ vec_capacity seats.old }
    ensures dealt { AreDealt (vec_len hands.old) seats.new.items
        (map (λ h. reverse h.items) hands.old.items) }
    ensures turns { turns_of seats.new.items
        ≡ sum_by turns_of (map (λ h. reverse h.items) hands.old.items) }
    ensures len { vec_len seats.new ≡ count }
{
    let threads = hands.len();
    for b in 0..count {
        let seat = take_next(&mut hands[b % threads]);
        seats.push_reserved(seat);
    }
}

/// The lists of the hands go to their pile. Takes no memory.
fn keep_hands(pile: &mut Pile<Seat>, hands: &mut Vec<Vec<Seat>>) {
    for _hand in 0..hands.len() {
        if let Some(hand) = hands.pop() {
            pile.keep(hand);
        }
    }
}

/// The seats that come back from workers to whom they were dealt, in their order again: the first
/// of the first worker, and so on, and again from the first. The share gets the workers' parts, and
/// what their seats drew. Takes no memory, and time linear in the number of seats.
pub(crate) fn collect<J: Job>(
    workers: Vec<Worker<J>>,
    room: Room,
    share: &mut Share<J::Drawn>,
) -> Deck
    requires hands { AreHands (vec_len workers) room.count
        (map (λ w. w.seats.items) workers.items) }
    requires room { vec_len workers ≤ vec_capacity room.hands }
    ensures dealt { AreDealt (vec_len workers) result.seats.items
        (map (λ w. w.seats.items) workers.items) }
    ensures len { vec_len result.seats ≡ room.count }
    ensures parts { share.new.parts ≡ share.old.parts + vec_len workers }
    ensures turns { share.new.amount ≡ share.old.amount + turns_of result.seats.items }
{
    let Room {
        count,
        mut seats,
        mut hands,
        mut pile,
    } = room;
    open_all(workers, &mut hands, share);
    gather(&mut hands, &mut seats, count);
    keep_hands(&mut pile, &mut hands);
    Deck { seats, hands, pile }
}
