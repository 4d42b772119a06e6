//! How many rounds the solver makes.
use crate::building::{fan, idle_nodes, short_way, two_ways};
use crate::calls::Diary;
use crate::overlap::TWO;
use crate::rows::{hold, take_ok};
use flow_network::Net;
use rounds::solve_parallel;
use std::process::Abort;
use std::sync::Wait;
use std::thread::Threads;
use worker_options::Options;

/// Rounds in which one thread does turn 0 of each of two blocks, first that of block 0.
const FIRST: Options = Options {
    threads: 1,
    turns: 0,
    ..TWO
};

/// At most three of them.
const THREE: Options = Options { rounds: 3, ..FIRST };

/// With rings of one place.
const NARROW: Options = Options { ring: 1, ..FIRST };

/// Whether such a solver asks for so many turns: two a round.
fn asks<R: Threads + Wait + Abort + AllocGlobal + Sync>(
    rt: &R,
    net: Net,
    options: &Options,
    turns: u32,
) -> bool {
    let diary = take_ok(rt, Diary::new(rt.alloc(), 0));
    let _solved = take_ok(rt, solve_parallel(rt, rt.alloc(), &net, options, &diary));
    diary.count() == turns
}

/// There is no round where nothing can get to the sink, and else there are as many as are needed,
/// and no more than are allowed. The five letters of the fan take a round each where the ring has
/// one place, and one round where it has more; and one round more, in which block 0 gives on what
/// came.
#[test]
fn rounds_are_counted(rt: HostRuntime) {
    hold(&rt, asks(&rt, idle_nodes(&rt), &FIRST, 0));
    hold(&rt, asks(&rt, short_way(&rt), &THREE, 6));
    hold(&rt, asks(&rt, fan(&rt), &FIRST, 4));
    hold(&rt, asks(&rt, fan(&rt), &NARROW, 12));
}

/// Each round begins with exact labels. By those of the first, 41 for node 0, its unit goes over
/// the nodes 64 to 103, at whose end the other unit has taken the way to the sink. By those of the
/// second it goes back to node 0, and in the third over the nodes 1 to 60: 60 steps in one turn,
/// none of which needs a new label.
#[test]
fn rounds_begin_with_exact_labels(rt: HostRuntime) {
    hold(&rt, asks(&rt, two_ways(&rt), &FIRST, 6));
}
