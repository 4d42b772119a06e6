//! Least cuts, by hand and from a script that tries every cut, of the plain solver and of that over
//! blocks.
use crate::building::{Row, core_of, net_of};
use crate::rows::{expect, hold, take_ok};
use crate::small_nets::{COUNT, NUMBERS};
use discharge::finish;
use flow_network::{Net, Solved, check_cut};
use plain_cut::{smallest_side, solve};
use std::alloc::{AllocError, Global};
use std::process::Abort;
use std::slice::Iter;

/// What the source can send, what the nodes can send the sink, the arcs, the value of the least
/// cut, and the smallest such cut as a number whose bit v is the node v.
type Case = (&'static [u64], &'static [u64], &'static [Row], u64, u32);

const CASES: &[Case] = &[
    (&[], &[], &[], 0, 0),
    (&[5], &[3], &[], 3, 0),
    (&[2, 3, 4], &[3, 2, 4], &[], 8, 0b001),
    (&[4, 0, 0, 0], &[0, 0, 1, 0], &[(0, 1, 4), (1, 2, 4)], 1, 0),
    // Parallel and opposite arcs, and arcs from a node to itself.
    (
        &[6, 0],
        &[0, 9],
        &[(0, 1, 2), (0, 1, 3), (1, 0, 9), (1, 1, 7), (0, 0, 7)],
        5,
        0b10,
    ),
    // All excess is cut off.
    (
        &[7, 0, 0],
        &[0, 0, 8],
        &[(0, 1, 5), (1, 0, 5), (2, 1, 5)],
        0,
        0b100,
    ),
    // Of three equal cuts the smallest.
    (&[2, 0, 0], &[0, 0, 3], &[(0, 1, 2), (1, 2, 2)], 2, 0b100),
    // Capacities near the limit.
    (
        &[(1 << 61) - 1, 0, 0],
        &[0, 0, 1 << 60],
        &[(0, 1, 1 << 59), (0, 2, 1 << 58), (1, 2, 1 << 58)],
        1 << 59,
        0b100,
    ),
    // Excess has to go back along an arc that carries it.
    (
        &[5, 3, 0, 0, 0, 0],
        &[0, 0, 4, 0, 0, 100],
        &[(0, 2, 5), (0, 5, 100), (1, 3, 10), (3, 4, 10), (4, 2, 10)],
        8,
        0b111111,
    ),
];

/// The number whose bit v is set where the side has node v.
fn bits_of(side: &[bool]) -> u32 {
    let mut bits = 0u32;
    for inside in side.iter().rev() {
        bits = bits.wrapping_mul(2) | u32::from(*inside);
    }
    bits
}

/// In how many blocks a net that was worked by hand is opened and finished.
const BLOCKS: &[usize] = &[2, 3, 256];

/// The same for a net of a script.
const FEW_BLOCKS: &[usize] = &[3];

/// A value and a side.
type Answer = (u64, u32);

/// Whether an answer is certified, and is what is wanted.
fn is_answer(rt: &(impl Abort + AllocGlobal), net: &Net, solved: &Solved, wanted: Answer) -> bool {
    take_ok(rt, check_cut(rt.alloc(), net, solved))
        && solved.value == wanted.0
        && bits_of(solved.sink_side.as_slice()) == wanted.1
}

/// Whether the solver over blocks ends in this answer, where it takes over a net that was opened in
/// so many blocks.
fn is_finished(rt: &(impl Abort + AllocGlobal), net: &Net, blocks: usize, wanted: Answer) -> bool {
    let state = core_of(rt, net, blocks).into_state();
    is_answer(rt, net, &take_ok(rt, finish(rt.alloc(), state)), wanted)
}

/// Whether it does so in each of these numbers of blocks.
fn are_finished(
    rt: &(impl Abort + AllocGlobal),
    net: &Net,
    several: &[usize],
    wanted: Answer,
) -> bool {
    for blocks in several {
        if !is_finished(rt, net, *blocks, wanted) {
            return false;
        }
    }
    true
}

/// Whether the solver over nodes, and that over one block, ends in this answer.
fn is_solved_whole(rt: &(impl Abort + AllocGlobal), net: &Net, wanted: Answer) -> bool {
    let solved = take_ok(rt, solve(rt.alloc(), net));
    let in_one_block = take_ok(rt, discharge::solve(rt.alloc(), net));
    is_answer(rt, net, &solved, wanted) && is_answer(rt, net, &in_one_block, wanted)
}

/// Whether the net is solved by this value and the smallest least cut, in one block and in several
/// too, and where the solver takes it over.
fn is_solved(rt: &(impl Abort + AllocGlobal), net: Net, several: &[usize], wanted: Answer) -> bool {
    are_finished(rt, &net, several, wanted)
        && is_solved_whole(rt, &net, wanted)
        && bits_of(take_ok(rt, smallest_side(rt.alloc(), net)).as_slice()) == wanted.1
}

#[test]
fn solves_nets_worked_by_hand(rt: HostRuntime) {
    for (place, case) in CASES.iter().enumerate() {
        let net = net_of(&rt, case.0, case.1, case.2);
        expect(&rt, place, is_solved(&rt, net, BLOCKS, (case.3, case.4)));
    }
}

fn next_number(numbers: &mut Iter<'_, u32>) -> u32 {
    numbers.next().copied().unwrap_or(0)
}

/// What the source can send and the nodes can send the sink, of so many nodes of the table.
fn next_ends(
    alloc: Global,
    numbers: &mut Iter<'_, u32>,
    nodes: u32,
) -> Result<(Vec<u64>, Vec<u64>), AllocError> {
    let mut sources = Vec::new(alloc);
    let mut sinks = Vec::new(alloc);
    for _ in 0..nodes {
        sources.push(u64::from(next_number(numbers)))?;
        sinks.push(u64::from(next_number(numbers)))?;
    }
    Ok((sources, sinks))
}

/// So many arcs of the table.
fn next_rows(
    alloc: Global,
    numbers: &mut Iter<'_, u32>,
    count: u32,
) -> Result<Vec<Row>, AllocError> {
    let mut rows = Vec::new(alloc);
    for _ in 0..count {
        let from = next_number(numbers);
        let to = next_number(numbers);
        rows.push((from, to, u64::from(next_number(numbers))))?;
    }
    Ok(rows)
}

/// The next net of the table.
fn next_net(rt: &(impl AllocGlobal + Abort), numbers: &mut Iter<'_, u32>) -> Net {
    let nodes = next_number(numbers);
    let count = next_number(numbers);
    let (sources, sinks) = take_ok(rt, next_ends(rt.alloc(), numbers, nodes));
    let rows = take_ok(rt, next_rows(rt.alloc(), numbers, count));
    net_of(rt, sources.as_slice(), sinks.as_slice(), rows.as_slice())
}

/// Whether the next net of the table has the answer that follows it there.
fn is_next_solved(rt: &(impl AllocGlobal + Abort), numbers: &mut Iter<'_, u32>) -> bool {
    let net = next_net(rt, numbers);
    let value = u64::from(next_number(numbers));
    let side = next_number(numbers);
    is_solved(rt, net, FEW_BLOCKS, (value, side))
}

#[test]
fn solves_nets_with_cuts_from_brute_force(rt: HostRuntime) {
    let mut numbers = NUMBERS.iter();
    for place in 0..COUNT {
        expect(&rt, place, is_next_solved(&rt, &mut numbers));
    }
    hold(&rt, numbers.next().is_none());
}
