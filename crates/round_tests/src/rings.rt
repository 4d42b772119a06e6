//! Tests of rings between threads.
ghost use Rattle.std.specs.Prelude.{◌≤◌};
ghost use Rattle.block_events.specs.Workers.{IsFair};
ghost use Rattle.block_workers.specs.Ports.{IsSamePort};

use crate::rows::{hold, take_ok};
use block_discharge::Letter;
use block_events::{Direction, Message};
use block_workers::{Port, join_blocks, take_left};
use std::process::Abort;
use std::sync::Wait;
use std::thread;
use std::thread::Threads;

/// How many messages a ring has room for.
const RING: usize = 4;

/// How many parcels go through a ring, or stay in it at the end.
const PARCELS: u64 = 50_000;

/// A parcel of so much.
fn parcel_of(amount: u64) -> Letter
    requires { 1 ≤ amount }
    ensures { IsFair result.message }
{
    let message = Message::Parcel {
        direction: Direction {
            arc: 0,
            back: false,
        },
        amount,
        label: 1,
    };
    Letter { message, place: 0 }
}

/// Puts parcels whose amounts rise from 1, each once there is room for it.
fn put_all<R: Wait>(rt: &R, port: Port) -> Port
    ensures { IsSamePort port result }
{
    let mut port = port;
    let mut amount = 1;
    for _ in rt.forever() {
        if amount > PARCELS {
            break;
        }
        if port.room() {
            port.put(parcel_of(amount));
            amount += 1;
        } else {
            thread::yield_now();
        }
    }
    port
}

/// The amount of a parcel, and 0 for any other message.
fn amount_of(letter: Letter) -> u64 {
    match letter.message {
        Message::Parcel { amount, .. } => amount,
        _ => 0,
    }
}

/// Takes all parcels but those that fill a ring; and whether their amounts rose from 1, one by one.
fn take_most<R: Wait>(rt: &R, port: Port) -> (Port, bool)
    ensures { IsSamePort port result.0 }
{
    let mut port = port;
    let mut next = 1;
    let mut in_order = true;
    for _ in rt.forever() {
        if next > PARCELS - RING as u64 {
            break;
        }
        if let Some(_) = port.front() {
            in_order = in_order && amount_of(port.take()) == next;
            next += 1;
        } else {
            thread::yield_now();
        }
    }
    (port, in_order)
}

/// Whether these are the last parcels, in their order.
fn are_last(left: &[Letter]) -> bool {
    let mut next = PARCELS - RING as u64;
    for letter in left {
        next = next.saturating_add(1);
        if amount_of(*letter) != next {
            return false;
        }
    }
    next == PARCELS
}

/// Two threads, one of which puts what the other takes: each message comes once and in order, and
/// those that were not taken are left in the ring.
fn exchange<R: Threads + Wait + Abort + AllocGlobal + Sync>(rt: &R) -> bool {
    let (first, second) = take_ok(rt, join_blocks(rt.alloc(), 0, 1, RING));
    let mut left = take_ok(rt, Vec::with_capacity(rt.alloc(), RING));
    let (first, (second, in_order)) = thread::join(
        rt,
        move || put_all(rt, first),
        move || take_most(rt, second),
    );
    let mut first = first;
    let mut second = second;
    take_left(&mut first, &mut second, &mut left);
    in_order && are_last(left.as_slice())
}

#[test]
fn ring_in_order(rt: HostRuntime) {
    hold(&rt, exchange(&rt));
}
