//! A second thread is started for parts of work, and for what blocks do side by side: a search,
//! their opening and the first pushes.
use crate::building::{chain, full_chain, state_opened, state_raised};
use crate::gates::Calls;
use crate::rows::{expect, hold, take_ok};
use block_net::ARC_LIMIT;
use block_state::State;
use cut_in_blocks::push_first;
use cut_ways::Fork;
use distance_search::LabelSearch;
use flow_network::Net;
use rounds::ByThreads;
use std::alloc::{AllocError, Global};
use std::fs;
use std::process::Abort;
use std::rt::Files;
use std::thread::Threads;

/// Whether a part of work meets the other of two: it waits until that has begun.
fn meets(calls: &Calls, part: usize) -> bool {
    let block = part.min(1) as u32;
    calls.call(block, 0);
    calls.wait(1 - block, 1)
}

/// What a part answers that meets the other.
fn answer_of(alloc: Global, calls: &Calls, part: usize) -> Result<Vec<u8>, AllocError> {
    Vec::from_slice(alloc, &[u8::from(meets(calls, part))])
}

/// Each of two parts waits for the other, and meets it, since two threads do them side by side.
#[test]
fn parts_meet(rt: HostRuntime) {
    let alloc = rt.alloc();
    let calls = Calls::new();
    let fork = ByThreads {
        rt: &rt,
        threads: 2,
    };
    let answers = fork.do_parts(alloc, 2, &|part| answer_of(alloc, &calls, part));
    for (part, answer) in take_ok(&rt, answers).into_iter().enumerate() {
        expect(&rt, part, take_ok(&rt, answer).as_slice() == [1].as_slice());
    }
}

/// How many hundredths of a second of the processors a thread or a process took, as the system's
/// file of it tells: 0 if there is none.
fn hundredths_of<R: Files + AllocGlobal>(rt: &R, file: &str) -> u32 {
    let Ok(words) = fs::read_to_string(rt, file) else {
        return 0;
    };
    let mut sum = 0u32;
    for (place, word) in words.split(' ').enumerate() {
        if place == 13 || place == 14 {
            sum = sum.wrapping_add(word.parse::<u32>().unwrap_or(0));
        }
    }
    sum
}

/// How many hundredths of a second the other threads of the process took so far, those that ended
/// among them.
fn others_took<R: Files + AllocGlobal>(rt: &R) -> u32 {
    let all = hundredths_of(rt, "/proc/self/stat");
    all.saturating_sub(hundredths_of(rt, "/proc/thread-self/stat"))
}

/// Whether the labels are those of the chain: each node is a step further from the sink than the
/// next, and the last gives it.
fn are_of_chain(labels: &[u32]) -> bool {
    for (node, label) in labels.iter().enumerate() {
        if node.wrapping_add(*label as usize) != 65_536 {
            return false;
        }
    }
    labels.len() == 65_536
}

/// Whether so many threads find the labels of the chain.
fn finds_chain<R: Threads + Sync + Abort + AllocGlobal>(
    rt: &R,
    state: &State,
    threads: usize,
) -> bool {
    hold(rt, threads > 0);
    let mut search = take_ok(rt, LabelSearch::reserve(rt.alloc(), state, threads));
    search.find(rt, state, threads);
    are_of_chain(&search.into_workspace().labels)
}

/// Whether each node has a unit.
fn have_units(state: &State) -> bool {
    for node in 0..state.nodes() {
        if state.excess(node) != 1 {
            return false;
        }
    }
    true
}

/// Whether so many threads open the full chain in two blocks: each node has its unit.
fn opens_chain<R: Threads + Sync + Abort + AllocGlobal>(rt: &R, net: &Net, threads: usize) -> bool {
    hold(rt, threads > 0);
    hold(rt, net.arcs().len() <= ARC_LIMIT);
    let state = take_ok(rt, State::open_by(rt, rt.alloc(), net, 2, threads));
    have_units(&state)
}

/// How often the first pushes are made on a net that was opened.
const PUSHES: u32 = 16;

/// Whether so many threads make the first pushes on the full chain in two blocks: the last node
/// gives the sink a unit. Where nothing is left to push they look for it all the same.
fn pushes_chain<R: Threads + Sync + Abort + AllocGlobal>(
    rt: &R,
    net: &Net,
    threads: usize,
) -> bool {
    hold(rt, threads > 0);
    let mut state = state_opened(rt, net, 2);
    for _ in 0..PUSHES {
        state = push_first(rt, state, threads);
    }
    state.got() == 1
}

/// What several threads do side by side.
#[derive(Clone, Copy)]
enum Work<'a> {
    Search { state: &'a State },
    Open { net: &'a Net },
    Push { net: &'a Net },
}

/// Whether so many threads do the work right.
fn does_work<R: Threads + Sync + Abort + AllocGlobal>(rt: &R, work: Work, threads: usize) -> bool {
    match work {
        Work::Search { state } => finds_chain(rt, state, threads),
        Work::Open { net } => opens_chain(rt, net, threads),
        Work::Push { net } => pushes_chain(rt, net, threads),
    }
}

/// How many hundredths of a second the other threads take while so many threads do the work so many
/// times, or until the others took as many as asked: and how often it was done, if it was right.
fn watch_work<R: Threads + Sync + Files + Abort + AllocGlobal>(
    rt: &R,
    work: Work,
    threads: usize,
    tries: u32,
    asked: u32,
) -> (u32, u32) {
    let before = others_took(rt);
    for done in 0..tries {
        hold(rt, does_work(rt, work, threads));
        let took = others_took(rt).saturating_sub(before);
        if took >= asked {
            return (took, done.wrapping_add(1));
        }
    }
    (others_took(rt).saturating_sub(before), tries)
}

/// The most that the two sums of a file may be off together, in hundredths of a second.
const OFF: u32 = 2;

/// Whether of two threads one that is not this one does a part of the work, and this thread does it
/// alone if only one is given. What tells is the time of the others, in any schedule.
fn is_shared<R: Threads + Sync + Files + Abort + AllocGlobal>(rt: &R, work: Work) -> bool {
    let asked = 4 * OFF;
    let (shared, times) = watch_work(rt, work, 2, 20_000, asked);
    let (alone, _) = watch_work(rt, work, 1, times, asked);
    shared >= asked && alone <= OFF
}

/// Of 65,536 nodes two threads search the labels by blocks, and one thread searches them alone.
#[test]
fn blocks_search_side_by_side(rt: HostRuntime) {
    let state = state_raised(&rt, &chain(&rt), 2);
    hold(&rt, is_shared(&rt, Work::Search { state: &state }));
}

/// Two threads open such a net in blocks, and one thread opens it alone.
#[test]
fn blocks_open_side_by_side(rt: HostRuntime) {
    let net = full_chain(&rt);
    hold(&rt, is_shared(&rt, Work::Open { net: &net }));
}

/// Two threads make the first pushes within blocks, and one thread makes them alone.
#[test]
fn blocks_push_side_by_side(rt: HostRuntime) {
    let net = full_chain(&rt);
    hold(&rt, is_shared(&rt, Work::Push { net: &net }));
}
