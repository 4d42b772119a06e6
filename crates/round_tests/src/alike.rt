//! One round, and rounds of many options before the solver goes on.
use crate::building::{state_opened, state_raised};
use crate::gates::Open;
use crate::picture::net_of_move;
use crate::rows::{expect, hold, take_ok};
use crate::solving::is_wanted;
use block_state::State;
use cut_in_blocks::finish;
use flow_network::{Net, Solved};
use plain_cut::solve;
use rounds::run_round;
use std::process::Abort;
use std::sync::Wait;
use std::thread::Threads;
use worker_options::{Gate, Options};

/// A state after a round over these options, which have to be in their ranges and tell as many
/// blocks as it has.
fn round_from<R: Threads + Wait + Abort + AllocGlobal + Sync, G: Gate>(
    rt: &R,
    state: State,
    options: &Options,
    gate: &G,
) -> State {
    hold(rt, options.check().is_ok());
    hold(rt, state.is_quiet());
    take_ok(rt, run_round(rt, rt.alloc(), state, options, gate))
}

/// The state of a net after a round over these options. It begins with exact labels.
pub fn round<R: Threads + Wait + Abort + AllocGlobal + Sync, G: Gate>(
    rt: &R,
    net: &Net,
    options: &Options,
    gate: &G,
) -> State {
    let state = state_raised(rt, net, options.blocks as usize);
    round_from(rt, state, options, gate)
}

/// Makes such a round, for what its gate notes.
pub fn do_round<R: Threads + Wait + Abort + AllocGlobal + Sync, G: Gate>(
    rt: &R,
    net: Net,
    options: &Options,
    gate: &G,
) {
    let _after = round(rt, &net, options, gate);
}

/// The state after a round that begins with all labels 0.
pub fn round_from_zero<R: Threads + Wait + Abort + AllocGlobal + Sync, G: Gate>(
    rt: &R,
    net: &Net,
    options: &Options,
    gate: &G,
) -> State {
    let state = state_opened(rt, net, options.blocks as usize);
    round_from(rt, state, options, gate)
}

/// Options of a round, by a number: 1 to 8 threads, 2 to 64 blocks, rings of 1 to 64 letters, few
/// turns and many.
fn options_of(number: usize) -> Options {
    Options {
        threads: 1 + (number % 8) as u32,
        blocks: BLOCKS[number % BLOCKS.len()],
        ring: RINGS[number % RINGS.len()],
        turns: TURNS[number % TURNS.len()],
        rounds: 1,
    }
}

const BLOCKS: &[u32] = &[2, 3, 4, 7, 16, 33, 64];

const RINGS: &[u32] = &[1, 2, 5, 16, 64];

const TURNS: &[u32] = &[0, 7, 300, 4_096];

/// Whether a round over these options, after which the solver over blocks goes on, ends in the
/// answer of the plain solver, with a preflow that certifies it.
fn is_right<R: Threads + Wait + Abort + AllocGlobal + Sync>(
    rt: &R,
    net: &Net,
    wanted: &Solved,
    options: &Options,
) -> bool {
    let state = round(rt, net, options, &Open);
    let solved = take_ok(rt, finish(rt.alloc(), state));
    is_wanted(rt, net, &solved, wanted)
}

/// 200 rounds over the net of a move.
#[test]
fn rounds_end_alike(rt: HostRuntime) {
    let net = net_of_move(&rt);
    let wanted = take_ok(&rt, solve(rt.alloc(), &net));
    for number in 0..200 {
        expect(
            &rt,
            number,
            is_right(&rt, &net, &wanted, &options_of(number)),
        );
    }
}
