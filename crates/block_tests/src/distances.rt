//! Distances to the sink, and the nodes that reach it.
use crate::building::{Row, net_of};
use crate::rows::{expect, hold, take_ok};
use sink_distances::{are_rooms, distances, sink_side};
use std::process::Abort;

/// What each node can give the sink and can still give it, the arcs and what each carries, and each
/// node's distance.
struct Case {
    sinks: &'static [u64],
    rooms: &'static [u64],
    arcs: &'static [Row],
    arc_flow: &'static [u64],
    labels: &'static [u32],
}

const RING: &[Row] = &[(0, 1, 2), (1, 2, 3), (2, 0, 1)];

const RING_SINKS: &[u64] = &[1, 0, 3];

const RING_FLOW: &[u64] = &[2, 3, 0];

const CASES: &[Case] = &[
    Case {
        sinks: &[],
        rooms: &[],
        arcs: &[],
        arc_flow: &[],
        labels: &[],
    },
    // A chain without flow.
    Case {
        sinks: &[0, 0, 1, 0],
        rooms: &[0, 0, 1, 0],
        arcs: &[(0, 1, 4), (1, 2, 4)],
        arc_flow: &[0, 0],
        labels: &[3, 2, 1, 6],
    },
    // Arcs from a node to itself.
    Case {
        sinks: &[1, 0],
        rooms: &[1, 0],
        arcs: &[(0, 0, 5), (1, 1, 5)],
        arc_flow: &[0, 2],
        labels: &[1, 4],
    },
    // Full arcs lead back alone, and what a node gives the sink closes its arc to it.
    Case {
        sinks: RING_SINKS,
        rooms: &[0, 0, 2],
        arcs: RING,
        arc_flow: RING_FLOW,
        labels: &[5, 5, 1],
    },
    Case {
        sinks: RING_SINKS,
        rooms: &[1, 0, 2],
        arcs: RING,
        arc_flow: RING_FLOW,
        labels: &[1, 2, 1],
    },
    Case {
        sinks: RING_SINKS,
        rooms: &[1, 0, 0],
        arcs: RING,
        arc_flow: RING_FLOW,
        labels: &[1, 2, 2],
    },
    Case {
        sinks: RING_SINKS,
        rooms: &[0, 0, 0],
        arcs: RING,
        arc_flow: RING_FLOW,
        labels: &[5, 5, 5],
    },
    // These distances were found by relaxing each direction until nothing changed.
    Case {
        sinks: &[0, 2, 0, 2, 0, 0, 1, 0],
        rooms: &[0, 0, 0, 1, 0, 0, 1, 0],
        arcs: &[
            (5, 2, 3),
            (0, 1, 0),
            (5, 0, 1),
            (0, 1, 3),
            (6, 1, 1),
            (1, 6, 0),
            (1, 3, 0),
            (6, 0, 1),
            (0, 2, 2),
            (6, 2, 0),
            (4, 2, 0),
            (3, 5, 0),
        ],
        arc_flow: &[0, 0, 1, 3, 1, 0, 0, 1, 1, 0, 0, 0],
        labels: &[2, 2, 3, 1, 10, 4, 1, 10],
    },
];

/// Whether just the nodes whose label is at most their number are on the side.
fn is_near(side: &[bool], labels: &[u32]) -> bool {
    for (inside, label) in side.iter().zip(labels) {
        if *inside != (*label as usize <= side.len()) {
            return false;
        }
    }
    side.len() == labels.len()
}

/// Whether the distances and the side of a case are found.
fn is_found(rt: &(impl Abort + AllocGlobal), case: &Case) -> bool {
    let sources = take_ok(rt, vec![in rt.alloc(); 0; case.sinks.len()]);
    let net = net_of(rt, sources.as_slice(), case.sinks, case.arcs);
    hold(rt, case.arc_flow.len() == net.arcs().len());
    hold(rt, are_rooms(&net, case.rooms));
    let labels = distances(rt.alloc(), net.graph(), case.arc_flow, case.rooms);
    let labels = take_ok(rt, labels);
    let side = take_ok(rt, sink_side(rt.alloc(), net.graph(), labels.as_slice()));
    labels.as_slice() == case.labels && is_near(side.as_slice(), case.labels)
}

#[test]
fn finds_distances_and_sides(rt: HostRuntime) {
    for (place, case) in CASES.iter().enumerate() {
        expect(&rt, place, is_found(&rt, case));
    }
}
