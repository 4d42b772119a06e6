//! What `check_cut` says of cuts and of the numbers that are to certify them.
use crate::building::{Row, net_of};
use crate::rows::{expect_tried, take_ok};
use flow_network::{Net, Solved, check_cut};
use std::alloc::{AllocError, Global};
use std::process::Abort;

/// What is claimed, what each arc carries and each node gives the sink, the side, the value, and
/// whether it is right.
type Claim = (
    &'static str,
    &'static [u64],
    &'static [u64],
    &'static [bool],
    u64,
    bool,
);

/// What the source can send, what the nodes can send the sink, the arcs, and claims of cuts.
type Case = (
    &'static [u64],
    &'static [u64],
    &'static [Row],
    &'static [Claim],
);

const ONE_NODE: &[Claim] = &[
    ("the least cut", &[], &[3], &[false], 3, true),
    ("another cut", &[], &[3], &[true], 3, false),
    ("its capacity", &[], &[3], &[true], 5, false),
    ("too little flow", &[], &[2], &[false], 2, false),
    ("too much flow", &[], &[4], &[false], 3, false),
    ("another value", &[], &[3], &[false], 4, false),
    ("an arc", &[0], &[3], &[false], 3, false),
    ("two nodes", &[], &[3, 0], &[false], 3, false),
    ("no node", &[], &[], &[false], 3, false),
    ("no bit", &[], &[3], &[], 3, false),
    ("two bits", &[], &[3], &[false, false], 3, false),
];

const CHAIN: &[Claim] = &[
    ("a flow", &[1, 1], &[0, 0, 1, 0], &[false; 4], 1, true),
    ("excess stays", &[4, 4], &[0, 0, 1, 0], &[false; 4], 1, true),
    (
        "a larger least cut",
        &[1, 1],
        &[0, 0, 1, 0],
        &[false, false, false, true],
        1,
        true,
    ),
    (
        "more than came",
        &[0, 1],
        &[0, 0, 1, 0],
        &[false; 4],
        1,
        false,
    ),
    (
        "more than an arc can carry",
        &[5, 1],
        &[0, 0, 1, 0],
        &[false; 4],
        1,
        false,
    ),
    ("one arc", &[1], &[0, 0, 1, 0], &[false; 4], 1, false),
    (
        "a greater cut",
        &[4, 4],
        &[0, 0, 1, 0],
        &[false, false, true, false],
        4,
        false,
    ),
];

const WIDE: u64 = 1 << 60;

const GREAT_NUMBERS: &[Claim] = &[
    (
        "full arcs",
        &[WIDE, WIDE - 1],
        &[0, 0],
        &[false; 2],
        0,
        true,
    ),
    (
        "arcs that wrap",
        &[u64::MAX, 1],
        &[0, 0],
        &[false; 2],
        0,
        false,
    ),
    (
        "sinks that wrap",
        &[0, 0],
        &[u64::MAX, 1],
        &[false; 2],
        0,
        false,
    ),
    (
        "both",
        &[u64::MAX; 2],
        &[u64::MAX; 2],
        &[true; 2],
        u64::MAX,
        false,
    ),
    ("a value", &[0, 0], &[0, 0], &[false; 2], u64::MAX, false),
];

const CASES: &[Case] = &[
    (&[5], &[3], &[], ONE_NODE),
    (&[4, 0, 0, 0], &[0, 0, 1, 0], &[(0, 1, 4), (1, 2, 4)], CHAIN),
    (
        &[2 * WIDE, 0],
        &[0, 0],
        &[(0, 1, WIDE), (0, 1, WIDE - 1)],
        GREAT_NUMBERS,
    ),
];

/// What is claimed of a cut.
fn solved_of(alloc: Global, claim: &Claim) -> Result<Solved, AllocError> {
    Ok(Solved {
        arc_flow: Vec::from_slice(alloc, claim.1)?,
        sink_flow: Vec::from_slice(alloc, claim.2)?,
        sink_side: Vec::from_slice(alloc, claim.3)?,
        value: claim.4,
    })
}

/// Whether a claim is answered as it is to be.
fn is_answered(rt: &(impl Abort + AllocGlobal), net: &Net, claim: &Claim) -> bool {
    let solved = take_ok(rt, solved_of(rt.alloc(), claim));
    take_ok(rt, check_cut(rt.alloc(), net, &solved)) == claim.5
}

/// Each claim of a case is answered.
fn expect_claims(rt: &(impl Abort + AllocGlobal), case: &Case) {
    let net = net_of(rt, case.0, case.1, case.2);
    for (place, claim) in case.3.iter().enumerate() {
        expect_tried(rt, claim.0, "claim", place, is_answered(rt, &net, claim));
    }
}

#[test]
fn checks_cuts(rt: HostRuntime) {
    for case in CASES {
        expect_claims(&rt, case);
    }
}
