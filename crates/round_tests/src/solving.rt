//! The solver that makes rounds of running workers: that it makes them, and that its answer is the
//! plain solver's.
use crate::building::{long_way, two_nodes};
use crate::gates::{Alternate, Closed, Open, Overlap};
use crate::overlap::{LONG, TWO};
use crate::picture::{large_net_of_move, net_of_move};
use crate::rows::{expect, hold, take_ok};
use flow_network::{Net, Solved, check_cut};
use plain_cut::solve;
use rounds::{ParallelError, side_parallel, solve_parallel};
use std::process::Abort;
use std::sync::Wait;
use std::thread::Threads;
use worker_options::{Gate, Options};

/// Whether an answer is certified, and has the value and the sink side that are wanted.
pub fn is_wanted(
    rt: &(impl Abort + AllocGlobal),
    net: &Net,
    solved: &Solved,
    wanted: &Solved,
) -> bool {
    take_ok(rt, check_cut(rt.alloc(), net, solved))
        && solved.value == wanted.value
        && solved.sink_side.as_slice() == wanted.sink_side.as_slice()
}

/// Whether the solver over these options ends in the answer of the plain solver, with a preflow
/// that certifies it.
pub fn is_plain<R: Threads + Wait + Abort + AllocGlobal + Sync, G: Gate>(
    rt: &R,
    net: &Net,
    wanted: &Solved,
    options: &Options,
    gate: &G,
) -> bool {
    let solved = take_ok(rt, solve_parallel(rt, rt.alloc(), net, options, gate));
    is_wanted(rt, net, &solved, wanted)
}

/// Whether it does so over a net by itself.
fn ends_alike<R: Threads + Wait + Abort + AllocGlobal + Sync, G: Gate>(
    rt: &R,
    net: &Net,
    options: &Options,
    gate: &G,
) -> bool {
    let wanted = take_ok(rt, solve(rt.alloc(), net));
    is_plain(rt, net, &wanted, options, gate)
}

/// The turns of two blocks overlap: all four calls meet, as in a round by itself.
#[test]
fn solver_overlaps(rt: HostRuntime) {
    let gate = Overlap::new();
    hold(&rt, ends_alike(&rt, &two_nodes(&rt), &TWO, &gate));
    hold(&rt, gate.met() == 4);
}

/// A round goes on until the sink has a unit that crosses the border 4,095 times, and no further
/// round begins.
#[test]
fn solver_drains(rt: HostRuntime) {
    let gate = Alternate::new();
    hold(&rt, ends_alike(&rt, &long_way(&rt), &LONG, &gate));
    hold(&rt, gate.went_far());
}

/// Options of the solver, by a number: 1 to 8 threads, 1 to 256 blocks, rings of 1 to 64 letters,
/// no turns, few and many, and no rounds, few and many.
fn options_of(number: usize) -> Options {
    Options {
        threads: 1 + (number % 8) as u32,
        blocks: BLOCKS[number % BLOCKS.len()],
        ring: RINGS[number % RINGS.len()],
        turns: TURNS[number % TURNS.len()],
        rounds: ROUNDS[number % ROUNDS.len()],
    }
}

const BLOCKS: &[u32] = &[1, 2, 3, 7, 16, 64, 256];

const RINGS: &[u32] = &[1, 2, 5, 16, 64];

const TURNS: &[u32] = &[0, 7, 300, 4_096];

const ROUNDS: &[u32] = &[0, 1, 64];

/// The solver over each of 60 rows of options ends in the answer of the plain solver.
fn expect_alike<R: Threads + Wait + Abort + AllocGlobal + Sync>(rt: &R, net: &Net) {
    let wanted = take_ok(rt, solve(rt.alloc(), net));
    for number in 0..60 {
        let is_right = is_plain(rt, net, &wanted, &options_of(number), &Open);
        expect(rt, number, is_right);
    }
}

/// Over the net of a move.
#[test]
fn solver_ends_alike(rt: HostRuntime) {
    expect_alike(&rt, &net_of_move(&rt));
}

/// And over two nodes, of which there are fewer than blocks.
#[test]
fn few_nodes_end_alike(rt: HostRuntime) {
    expect_alike(&rt, &two_nodes(&rt));
}

/// Two threads over 16 blocks, in at most so many rounds.
fn sixteen_blocks(rounds: u32) -> Options {
    Options {
        blocks: 16,
        rounds,
        ..TWO
    }
}

/// Whether the side alone over a net is the sink side that is wanted.
fn is_side<R: Threads + Wait + Abort + AllocGlobal + Sync>(
    rt: &R,
    net: Net,
    wanted: &Solved,
    options: &Options,
) -> bool {
    let side = take_ok(rt, side_parallel(rt, rt.alloc(), net, options, &Open));
    side.as_slice() == wanted.sink_side.as_slice()
}

/// A large net, in which excess goes on within the blocks first: the solver and the side alone, in
/// rounds to the end, in one round and in none.
#[test]
fn large_nets_end_alike(rt: HostRuntime) {
    let net = large_net_of_move(&rt);
    let wanted = take_ok(&rt, solve(rt.alloc(), &net));
    for (place, rounds) in ROUNDS.iter().enumerate() {
        let options = sixteen_blocks(*rounds);
        expect(&rt, place, is_plain(&rt, &net, &wanted, &options, &Open));
        let is_right = is_side(&rt, large_net_of_move(&rt), &wanted, &options);
        expect(&rt, place, is_right);
    }
}

/// Options of which one number is out of its range.
pub const BAD: &[Options] = &[
    Options { ring: 0, ..TWO },
    Options { threads: 65, ..TWO },
    Options { blocks: 257, ..TWO },
];

/// Whether the solver refuses the options as bad.
fn is_refused<R: Threads + Wait + Abort + AllocGlobal + Sync, G: Gate>(
    rt: &R,
    net: &Net,
    options: &Options,
    gate: &G,
) -> bool {
    match solve_parallel(rt, rt.alloc(), net, options, gate) {
        Err(ParallelError::BadOptions) => true,
        _ => false,
    }
}

/// Bad options ask no gate.
#[test]
fn bad_options_ask_no_gate(rt: HostRuntime) {
    let net = two_nodes(&rt);
    let gate = Closed::new();
    for (place, options) in BAD.iter().enumerate() {
        expect(&rt, place, is_refused(&rt, &net, options, &gate));
    }
    hold(&rt, gate.calls() == 0);
}

/// Whether the solver over these options ends in the plain answer, with a gate that says no after
/// turn 0, and no block goes on after a no.
fn ends_closed<R: Threads + Wait + Abort + AllocGlobal + Sync>(
    rt: &R,
    net: &Net,
    options: &Options,
    gate: &Closed,
) -> bool {
    ends_alike(rt, net, options, gate) && !gate.went_on()
}

/// No round.
const NONE: Options = Options { rounds: 0, ..TWO };

/// No round asks no gate.
#[test]
fn no_round_asks_no_gate(rt: HostRuntime) {
    let gate = Closed::new();
    hold(&rt, ends_closed(&rt, &two_nodes(&rt), &NONE, &gate));
    hold(&rt, gate.calls() == 0 && gate.noes() == 0);
}

/// Rounds of one turn of each block, after which the gate says no, end in the plain answer.
#[test]
fn solver_asks_the_gate(rt: HostRuntime) {
    let gate = Closed::new();
    hold(&rt, ends_closed(&rt, &two_nodes(&rt), &TWO, &gate));
    hold(&rt, gate.noes() > 0);
}

/// And so they do over the net of a move.
#[test]
fn move_asks_the_gate(rt: HostRuntime) {
    hold(
        &rt,
        ends_closed(&rt, &net_of_move(&rt), &TWO, &Closed::new()),
    );
}
