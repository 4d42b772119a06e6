//! What a network reads, and what its cuts can do.
use crate::building::{Row, arcs_of, net_of};
use crate::rows::{expect, hold, take_ok};
use flow_network::{Net, cut_capacity};
use std::process::Abort;

/// Arcs of which two are opposite, and one is from a node to itself.
const ARCS: &[Row] = &[(0, 1, 11), (1, 0, 13), (1, 1, 17)];

/// The cuts of these arcs, and their capacities.
const CUTS: &[([bool; 2], u64)] = &[
    ([false, false], 3 + 7),
    ([false, true], 2 + 3 + 11),
    ([true, false], 5 + 7 + 13),
    ([true, true], 5 + 2),
];

/// Whether a net has these arcs between two nodes, whose sources and sinks are told.
fn reads(rt: &(impl Abort + AllocGlobal), net: &Net, sources: &[u64], sinks: &[u64]) -> bool {
    let arcs = take_ok(rt, arcs_of(rt.alloc(), ARCS));
    net.nodes() == 2
        && net.sources() == sources
        && net.sinks() == sinks
        && net.arcs() == arcs.as_slice()
}

#[test]
fn reads_what_was_put_in_and_adds_up_cuts(rt: HostRuntime) {
    let net = net_of(&rt, &[5, 2], &[3, 7], ARCS);
    hold(&rt, reads(&rt, &net, &[5, 2], &[3, 7]));
    for (place, cut) in CUTS.iter().enumerate() {
        hold(&rt, net.nodes() == cut.0.len());
        expect(&rt, place, cut_capacity(&net, &cut.0) == cut.1);
    }
}
