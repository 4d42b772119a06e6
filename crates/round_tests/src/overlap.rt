//! Turns of two blocks overlap, a round goes on while work and turns are left, and a block with
//! nothing to do waits while another is busy.
use crate::alike::{do_round, round};
use crate::building::{idle_nodes, long_way, two_nodes};
use crate::gates::{Alternate, Closed, Held, Overlap};
use crate::rows::{hold, take_ok};
use block_state::State;
use global_relabel::distances;
use std::process::Abort;
use std::sync::Wait;
use std::thread::Threads;
use worker_options::{Gate, Options};

/// Two threads over two blocks, with the other options as the program has them where none is told.
pub const TWO: Options = Options {
    threads: 2,
    blocks: 2,
    ring: 64,
    turns: 4_096,
    rounds: 64,
};

/// Each block is held at its turns 0 and 1 until the other has called for the same turn: all four
/// calls meet, which they do not where one worker works after the other.
#[test]
fn gate_overlap(rt: HostRuntime) {
    let gate = Overlap::new();
    do_round(&rt, two_nodes(&rt), &TWO, &gate);
    hold(&rt, gate.met() == 4);
}

/// Whether no node with such a label below the highest has excess.
fn are_at_rest(state: &State, labels: &[u32]) -> bool {
    let top = state.nodes() as u32 + 2;
    for v in 0..state.nodes().min(labels.len()) {
        if state.excess(v) > 0 && labels[v] < top {
            return false;
        }
    }
    true
}

/// Whether no message is on the way, and no node whose distance to the sink is known has excess.
fn is_finished(rt: &(impl Abort + AllocGlobal), state: &State) -> bool {
    let labels = take_ok(rt, distances(rt.alloc(), state));
    state.is_quiet() && are_at_rest(state, labels.as_slice())
}

/// Options with turns enough for the long way.
pub const LONG: Options = Options {
    turns: 20_000,
    ..TWO
};

/// Whether the state after a round over the long way is finished, and the sink has its unit.
fn is_drained<R: Threads + Wait + Abort + AllocGlobal + Sync, G: Gate>(rt: &R, gate: &G) -> bool {
    let state = round(rt, &long_way(rt), &LONG, gate);
    is_finished(rt, &state) && state.got() == 1
}

/// A unit of flow crosses the border of two blocks 4,095 times, once a turn at most: the round goes
/// on until the sink has it, and does not leave it to what comes after the round.
#[test]
fn round_drains(rt: HostRuntime) {
    let gate = Alternate::new();
    hold(&rt, is_drained(&rt, &gate));
    hold(&rt, gate.went_far());
}

/// One thread, with the other options as for two.
pub const ONE: Options = Options { threads: 1, ..TWO };

/// A block with nothing to do has one turn after another as long as another is marked busy, which
/// block 0 is until its turn 0 is over.
#[test]
fn idle_block_waits(rt: HostRuntime) {
    let gate = Held::new();
    do_round(&rt, idle_nodes(&rt), &TWO, &gate);
    hold(&rt, gate.met());
}

/// Where no block is busy, none has a turn beside its turn 0.
#[test]
fn idle_blocks_end(rt: HostRuntime) {
    let gate = Closed::new();
    do_round(&rt, idle_nodes(&rt), &ONE, &gate);
    hold(&rt, gate.calls() == 2);
}
