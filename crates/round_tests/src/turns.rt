//! Which block has a turn when, what a gate's answers end, and that rings have the room that is
//! told.
use crate::alike::{do_round, round, round_from_zero};
use crate::building::{between_two, fan, idle_nodes, two_nodes};
use crate::calls::{Diary, Lowest, Only};
use crate::gates::Open;
use crate::overlap::{ONE, TWO};
use crate::picture::net_of_move;
use crate::rows::{expect, hold, take_ok};
use block_state::State;
use flow_network::Net;
use std::process::Abort;
use std::sync::Wait;
use std::thread::Threads;
use worker_options::{Gate, Options};

/// What a diary of two blocks at one worker has in it that says no to the blocks below a number.
fn diary_of<R: Threads + Wait + Abort + AllocGlobal + Sync>(rt: &R, closed: u32) -> Diary {
    let diary = take_ok(rt, Diary::new(rt.alloc(), closed));
    do_round(rt, two_nodes(rt), &ONE, &diary);
    diary
}

/// The turns of a diary that says no to no block, and of one that does so to block 0.
const ALL: &[(u32, u32)] = &[(0, 0), (1, 0), (0, 1), (1, 1), (0, 2)];

const NOT_FIRST: &[(u32, u32)] = &[(0, 0), (1, 0), (0, 1), (1, 1), (1, 2)];

/// At one worker the blocks that want a turn have one each, by rising numbers, again and again. A
/// block to which the gate says no has no further turn, and counts as idle: so the other is soon at
/// its end, and does not wait until all turns are drawn.
#[test]
fn blocks_take_turns(rt: HostRuntime) {
    hold(&rt, diary_of(&rt, 0).begins_with(ALL));
    let diary = diary_of(&rt, 1);
    hold(&rt, diary.begins_with(NOT_FIRST) && diary.count() < 20);
}

/// Two threads over three blocks.
const THREE: Options = Options { blocks: 3, ..TWO };

/// Of the idle blocks of a worker the lowest that has not ended has the turns, as long as another
/// block is busy.
#[test]
fn lowest_block_waits(rt: HostRuntime) {
    let gate = Lowest::new();
    do_round(&rt, idle_nodes(&rt), &THREE, &gate);
    hold(&rt, gate.went_up());
}

/// One thread over two blocks, with no turn to draw.
const NO_TURNS: Options = Options { turns: 0, ..ONE };

/// What all nodes have.
fn excess_of(state: &State) -> u64 {
    let mut excess: u64 = 0;
    for v in 0..state.nodes() {
        excess = excess.saturating_add(state.excess(v));
    }
    excess
}

/// Whether one worker over two nodes in two blocks, from labels 0, ends where the sink got so much
/// and the nodes have so much.
fn ends_with<R: Threads + Wait + Abort + AllocGlobal + Sync>(
    rt: &R,
    options: &Options,
    got: u64,
    excess: u64,
) -> bool {
    let state = round_from_zero(rt, &two_nodes(rt), options, &Open);
    state.got() == got && excess_of(&state) == excess
}

/// One worker goes on until neither block can do anything: the sink got 3, all that it can get, and
/// 2 stay. Where no turn can be drawn, each block has its turn 0 alone, in which its node gets a
/// label above 0 and rests: all 5 are still there.
#[test]
fn two_blocks_at_one_worker(rt: HostRuntime) {
    hold(&rt, ends_with(&rt, &ONE, 3, 2));
    hold(&rt, ends_with(&rt, &NO_TURNS, 0, 5));
}

/// Whether a node has the same excess, label and room in two states.
fn is_node_alike(first: &State, second: &State, v: usize) -> bool {
    v < first.nodes()
        && v < second.nodes()
        && first.excess(v) == second.excess(v)
        && first.label(v) == second.label(v)
        && first.room(v) == second.room(v)
}

/// Whether all nodes of two states of a net do, and the sink got the same.
fn are_alike(first: &State, second: &State) -> bool {
    for v in 0..first.nodes() {
        if !is_node_alike(first, second, v) {
            return false;
        }
    }
    first.got() == second.got()
}

/// The state of the net of a move after a round over these options.
fn round_of_move<R: Threads + Wait + Abort + AllocGlobal + Sync, G: Gate>(
    rt: &R,
    options: &Options,
    gate: &G,
) -> State {
    round(rt, &net_of_move(rt), options, gate)
}

/// Says no to all turns but turn 0, and to turn 0 alone.
const NO: Only = Only {
    first: true,
    later: false,
};

const LATER: Only = Only {
    first: false,
    later: true,
};

/// Whether such a round leaves this state.
fn leaves<R: Threads + Wait + Abort + AllocGlobal + Sync, G: Gate>(
    rt: &R,
    state: &State,
    options: &Options,
    gate: &G,
) -> bool {
    are_alike(state, &round_of_move(rt, options, gate))
}

/// A block does nothing in a turn to which the gate says no: it is left as where there is no turn
/// to draw.
#[test]
fn noes_do_nothing(rt: HostRuntime) {
    let first = round_of_move(&rt, &NO_TURNS, &Open);
    hold(&rt, leaves(&rt, &first, &ONE, &NO));
}

/// What the gate says to turn 0 changes nothing, and what it says to later turns does.
#[test]
fn first_turns_are_not_asked_for(rt: HostRuntime) {
    let all = round_of_move(&rt, &ONE, &Open);
    hold(&rt, leaves(&rt, &all, &ONE, &LATER));
    hold(&rt, !leaves(&rt, &all, &NO_TURNS, &Open));
}

/// Rings' numbers of places, and how many of five letters stay behind in a turn where nobody takes
/// one.
const PLACES: &[(u32, u64)] = &[(1, 4), (2, 3), (4, 1), (5, 0), (64, 0)];

/// Whether block 1 of a fan keeps so many letters where the ring has so many places.
fn keeps<R: Threads + Wait + Abort + AllocGlobal + Sync>(
    rt: &R,
    net: &Net,
    ring: u32,
    left: u64,
) -> bool {
    let options = Options { ring, ..NO_TURNS };
    let state = round(rt, net, &options, &Open);
    state.nodes() == 10 && state.excess(5) == left
}

/// Block 1 has five letters for block 0, which has had its turn: it puts as many as the ring has
/// places.
#[test]
fn rings_have_their_room(rt: HostRuntime) {
    let net = fan(&rt);
    for (place, row) in PLACES.iter().enumerate() {
        expect(&rt, place, keeps(&rt, &net, row.0, row.1));
    }
}

/// One thread over three blocks.
const THREE_AT_ONE: Options = Options { blocks: 3, ..ONE };

/// A letter from any other block is seen, also by a block with nothing else to do: block 2's comes
/// to block 0 by its second ring.
#[test]
fn each_ring_is_looked_at(rt: HostRuntime) {
    let state = round(&rt, &between_two(&rt), &THREE_AT_ONE, &Open);
    hold(&rt, state.got() == 1);
}
