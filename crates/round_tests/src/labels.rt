//! Exact labels that blocks find side by side.
use crate::alike::round;
use crate::building::{
    between_two, fan, idle_nodes, long_way, short_way, state_raised, two_nodes, two_ways,
};
use crate::gates::Open;
use crate::overlap::TWO;
use crate::picture::{large_net_of_move, net_of_move};
use crate::rows::{expect, hold, take_ok};
use block_state::State;
use flow_network::Net;
use global_relabel::distances;
use rounds::distances_by_blocks;
use std::process::Abort;
use std::sync::Wait;
use std::thread::Threads;
use worker_options::Options;

/// Whether the labels that blocks find are those of the search on one thread.
fn is_plain<R: Threads + Abort + AllocGlobal + Sync>(
    rt: &R,
    state: &State,
    threads: usize,
) -> bool {
    hold(rt, threads > 0);
    let wanted = take_ok(rt, distances(rt.alloc(), state));
    match take_ok(rt, distances_by_blocks(rt, rt.alloc(), state, threads)) {
        Some(labels) => labels.as_slice() == wanted.as_slice(),
        None => false,
    }
}

/// Whether they are in the state of the net at the opening.
fn is_plain_at_opening<R: Threads + Abort + AllocGlobal + Sync>(
    rt: &R,
    net: &Net,
    blocks: u32,
    threads: usize,
) -> bool {
    let state = state_raised(rt, net, blocks as usize);
    is_plain(rt, &state, threads)
}

/// Whether they are in the state after a round.
fn is_plain_after_round<R: Threads + Wait + Abort + AllocGlobal + Sync>(
    rt: &R,
    net: &Net,
    blocks: u32,
    threads: usize,
) -> bool {
    let options = Options {
        blocks,
        turns: 16,
        ..TWO
    };
    let state = round(rt, net, &options, &Open);
    is_plain(rt, &state, threads)
}

const BLOCKS: &[u32] = &[1, 2, 3, 7, 16, 64];

/// In states of the net at the opening and after a round, in few and many blocks, the labels that
/// blocks find by 1 to 8 threads are those of the search on one.
fn expect_plain<R: Threads + Wait + Abort + AllocGlobal + Sync>(rt: &R, net: Net) {
    for (place, blocks) in BLOCKS.iter().enumerate() {
        let is_right = is_plain_at_opening(rt, &net, *blocks, 1 + place % 8)
            && is_plain_after_round(rt, &net, *blocks, 8 - place % 8);
        expect(rt, place, is_right);
    }
}

#[test]
fn blocks_find_exact_labels(rt: HostRuntime) {
    expect_plain(&rt, two_nodes(&rt));
    expect_plain(&rt, idle_nodes(&rt));
    expect_plain(&rt, fan(&rt));
    expect_plain(&rt, between_two(&rt));
    expect_plain(&rt, two_ways(&rt));
}

#[test]
fn blocks_of_moves_find_exact_labels(rt: HostRuntime) {
    expect_plain(&rt, net_of_move(&rt));
    expect_plain(&rt, large_net_of_move(&rt));
}

/// The labels that two blocks of a way find by two threads.
fn labels_of_way<R: Threads + Abort + AllocGlobal + Sync>(rt: &R, net: Net) -> Option<Vec<u32>> {
    let state = state_raised(rt, &net, 2);
    take_ok(rt, distances_by_blocks(rt, rt.alloc(), &state, 2))
}

/// Whether the labels are those of a way over 64 nodes that goes from block to block at each step:
/// node i of the first half is 2 i steps from the first node, node 32 + i of the second half a step
/// more, and the last node gives the sink.
fn are_of_short_way(labels: &[u32]) -> bool {
    if labels.len() != 64 {
        return false;
    }
    for i in 0..32usize {
        let steps = 64 - 2 * i as u32;
        if labels[i] != steps || labels[32 + i] != steps - 1 {
            return false;
        }
    }
    true
}

/// Whether blocks find the labels of a short way.
fn finds_short_way<R: Threads + Abort + AllocGlobal + Sync>(rt: &R) -> bool {
    match labels_of_way(rt, short_way(rt)) {
        Some(labels) => are_of_short_way(&labels),
        None => false,
    }
}

/// A way of 4,096 nodes is left to one thread.
#[test]
fn ways_over_the_border(rt: HostRuntime) {
    hold(&rt, finds_short_way(&rt));
    hold(&rt, labels_of_way(&rt, long_way(&rt)).is_none());
}
