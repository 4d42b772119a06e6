//! Cuts by orders of nodes, against values from every cut.
use crate::building::{Row, core_of, net_of};
use crate::rows::{expect_tried, take_ok};
use flow_network::{Net, Solved, check_cut};
use parcel::{Core, Direction, Event, State};
use plain_cut::solve;
use std::alloc::{AllocError, Global};
use std::process::Abort;

/// What the source can send, what the nodes can send the sink, the arcs, and what is found by
/// trying every cut: the value, and the sink side of the smallest least cut.
struct Case {
    name: &'static str,
    sources: &'static [u64],
    sinks: &'static [u64],
    arcs: &'static [Row],
    value: u64,
    side: &'static [usize],
}

/// Two nodes of which both get more than the sink takes.
const PAIR: Case = Case {
    name: "PAIR",
    sources: &[4, 1],
    sinks: &[0, 3],
    arcs: &[(0, 1, 4)],
    value: 3,
    side: &[],
};

/// A chain of three nodes, and a fourth apart.
const CHAIN: Case = Case {
    name: "CHAIN",
    sources: &[4, 0, 0, 0],
    sinks: &[0, 0, 1, 0],
    arcs: &[(0, 1, 4), (1, 2, 4)],
    value: 1,
    side: &[],
};

/// The first expansion of label 3 on a picture of 4 by 4 sites, whose sample is 3 in the second
/// column and else 0: from all labels 0, data costs the distance to the sample, unequal neighbours
/// cost 1.
const STRIPES: Case = Case {
    name: "STRIPES",
    sources: &[5, 0, 4, 3, 4, 0, 3, 2, 4, 0, 3, 2, 3, 0, 2, 1],
    sinks: &[0, 2, 0, 0, 0, 3, 0, 0, 0, 3, 0, 0, 0, 4, 0, 0],
    arcs: &[
        (0, 1, 2),
        (0, 4, 2),
        (1, 2, 2),
        (1, 5, 2),
        (2, 3, 2),
        (2, 6, 2),
        (3, 7, 2),
        (4, 5, 2),
        (4, 8, 2),
        (5, 6, 2),
        (5, 9, 2),
        (6, 7, 2),
        (6, 10, 2),
        (7, 11, 2),
        (8, 9, 2),
        (8, 12, 2),
        (9, 10, 2),
        (9, 13, 2),
        (10, 11, 2),
        (10, 14, 2),
        (11, 15, 2),
        (12, 13, 2),
        (13, 14, 2),
        (14, 15, 2),
    ],
    value: 8,
    side: &[1, 5, 9, 13],
};

/// In how many blocks each net is run.
const BLOCKS: &[u32] = &[1, 2, 3, 16];

/// Where the search for the next enabled event begins, in turn.
const ORDERS: &[&[usize]] = &[
    &[0],
    &[331, 970, 154, 404, 666, 49, 74, 840, 548, 96, 374, 596],
    &[59, 931, 519, 219, 38, 88, 444, 428, 71, 246, 92, 564, 434],
];

/// How often an order is gone through at most.
const ROUNDS: usize = 20_000;

/// The events of arcs.
fn push_arcs(events: &mut Vec<Event>, arcs: usize) -> Result<(), AllocError> {
    for arc in 0..arcs {
        for back in [false, true] {
            let direction = Direction { arc, back };
            events.push(Event::PushInner { direction })?;
            events.push(Event::Send { direction })?;
        }
    }
    Ok(())
}

/// The events of nodes.
fn push_nodes(events: &mut Vec<Event>, nodes: u32) -> Result<(), AllocError> {
    for node in 0..nodes {
        events.push(Event::PushSink { node })?;
        events.push(Event::Relabel { node })?;
    }
    Ok(())
}

/// The events of two blocks.
fn push_blocks(events: &mut Vec<Event>, blocks: u32) -> Result<(), AllocError> {
    for from in 0..blocks {
        for to in 0..blocks {
            events.push(Event::Accept { from, to })?;
            events.push(Event::Refuse { from, to })?;
            events.push(Event::Settle { from, to })?;
        }
    }
    Ok(())
}

/// All events that some state of the net in so many blocks may enable, but that which raises all
/// labels.
fn events_of(alloc: Global, net: &Net, blocks: u32) -> Result<Vec<Event>, AllocError> {
    let mut events = Vec::new(alloc);
    push_arcs(&mut events, net.arcs().len())?;
    push_nodes(&mut events, net.nodes() as u32)?;
    push_blocks(&mut events, blocks)?;
    Ok(events)
}

/// Does the first enabled event; whether there was one.
fn do_first(core: &mut Core, events: &[Event]) -> bool {
    for event in events {
        if core.apply(*event).is_ok() {
            return true;
        }
    }
    false
}

/// The first enabled event from a place on, and from the front on where there is none; whether
/// there was one.
fn step(core: &mut Core, events: &[Event], from: usize) -> bool {
    let (front, rest) = events.split_at(from.min(events.len()));
    do_first(core, rest) || do_first(core, front)
}

/// Events until none is enabled; whether it came to that.
fn finish(core: &mut Core, events: &[Event], order: &[usize]) -> bool {
    for _round in 0..ROUNDS {
        for from in order {
            if !step(core, events, *from) {
                return true;
            }
        }
    }
    false
}

/// Whether a state has the value and the sink side of a case.
fn is_end(state: &State, case: &Case) -> bool {
    let nodes = state.nodes();
    for v in 0..nodes {
        let reaches = state.label(v) as usize <= nodes;
        if reaches != case.side.contains(&v) {
            return false;
        }
    }
    nodes == case.sources.len() && state.got() == case.value
}

/// Whether the plain solver finds the value and the sink side of a case.
fn is_solved(solved: &Solved, case: &Case) -> bool {
    for (v, reaches) in solved.sink_side.iter().enumerate() {
        if *reaches != case.side.contains(&v) {
            return false;
        }
    }
    solved.sink_side.len() == case.sources.len() && solved.value == case.value
}

/// Whether a run in so many blocks ends as the case tells.
fn ends(
    rt: &(impl Abort + AllocGlobal),
    case: &Case,
    net: &Net,
    blocks: u32,
    order: &[usize],
) -> bool {
    let mut core = core_of(rt, net, blocks as usize);
    let events = take_ok(rt, events_of(rt.alloc(), net, blocks));
    finish(&mut core, events.as_slice(), order)
        && core.apply(Event::RaiseAll).is_ok()
        && is_end(core.state(), case)
}

/// After how many events of an order the rest is left to the solver.
const MIDDLES: &[usize] = &[1, 5, 12];

/// The state in the middle of a run in so many blocks.
fn middle_of(rt: &(impl Abort + AllocGlobal), net: &Net, blocks: u32, order: &[usize]) -> State {
    let mut core = core_of(rt, net, blocks as usize);
    let events = take_ok(rt, events_of(rt.alloc(), net, blocks));
    for from in order {
        step(&mut core, events.as_slice(), *from);
    }
    core.into_state()
}

/// The state taken apart and put together again; none where its pieces tell another amount that the
/// sink got.
fn put_together(state: State) -> Option<State> {
    let pieces = state.into_pieces();
    if pieces.sink_total() != pieces.got {
        return None;
    }
    Some(pieces.into_state())
}

/// Whether the solver comes to what the case tells from the middle of a run.
fn is_finished(rt: &(impl Abort + AllocGlobal), case: &Case, net: &Net, middle: State) -> bool {
    let Some(state) = put_together(middle) else {
        return false;
    };
    let solved = take_ok(rt, discharge::finish(rt.alloc(), state));
    take_ok(rt, check_cut(rt.alloc(), net, &solved)) && is_solved(&solved, case)
}

/// The solver goes on from states in the middle of a run in so many blocks.
fn expect_finished(
    rt: &(impl Abort + AllocGlobal),
    case: &Case,
    net: &Net,
    blocks: u32,
    order: &[usize],
) {
    for count in MIDDLES {
        let begun = &order[..order.len().min(*count)];
        let is_right = is_finished(rt, case, net, middle_of(rt, net, blocks, begun));
        expect_tried(rt, case.name, "finished after", *count, is_right);
    }
}

/// Each run of a net in so many blocks ends as the case tells.
fn expect_orders(rt: &(impl Abort + AllocGlobal), case: &Case, net: &Net, blocks: u32) {
    for order in ORDERS {
        expect_finished(rt, case, net, blocks, order);
        let is_right = ends(rt, case, net, blocks, order);
        expect_tried(rt, case.name, "run in blocks", blocks as usize, is_right);
    }
}

/// Each run of a net does, and so does the plain solver.
fn expect_case(rt: &(impl Abort + AllocGlobal), case: &Case) {
    let net = net_of(rt, case.sources, case.sinks, case.arcs);
    let solved = take_ok(rt, solve(rt.alloc(), &net));
    expect_tried(rt, case.name, "solved", 0, is_solved(&solved, case));
    for blocks in BLOCKS {
        expect_orders(rt, case, &net, *blocks);
    }
}

/// Whatever order the events come in, and in however many blocks: one value and one sink side a
/// net.
#[test]
fn core_orders(rt: HostRuntime) {
    expect_case(&rt, &PAIR);
    expect_case(&rt, &CHAIN);
    expect_case(&rt, &STRIPES);
}
