//! Small random moves and runs over pairs that each have costs of their own, with sites decided
//! first, without, and strip by strip, against answers worked out over all labellings.
ghost use Rattle.std.specs.Prelude.{◌≡◌, ◌≤◌, ◌<◌, ◌*◌, ◌≤ℤ◌, pos, length};

use crate::own_costs::{MOVES, RUNS};
use crate::random::{
    BYTES, CutAlone, DATA, InStrips, PARTS, STRIPS, digit, is_answered, number, number_of,
    pairs_of, start_of,
};
use crate::rows::{expect, hold};
use cost_store::{DataCost, Problem, SmoothCost};
use moves::{Alone, Sharing};
use std::alloc::Global;
use std::process::Abort;

/// How many bytes a row has: those of a row of `random`, whose smooth costs and weights are 0; then
/// sixteen costs of each of seven pairs, four of each of four labels of its first site.
const OWN_BYTES: usize = 210;

/// The greatest cost of a pair.
const PAIR_COST: u32 = 10_000_000;

/// What a pair costs by a row, where its lines stand one after another, one for each label.
fn own_cost(row: &[u8; OWN_BYTES], labels: u32, line: u32, second: u32) -> i64
    requires { 0 < labels }
    ensures { (pos 0 ≤ℤ result) × (result ≤ℤ pos 10000000) }
{
    let pair = (line / labels).saturating_mul(16);
    let place = (line % labels).saturating_mul(4).saturating_add(second);
    let byte = row.get(pair.saturating_add(place).saturating_add(98) as usize);
    i64::from(number_of(byte.copied().unwrap_or(48), PAIR_COST))
}

/// Whether a row is right.
fn is_right<H: Sharing>(rt: &impl Abort, alloc: Global, row: &[u8; OWN_BYTES], how: &H) -> bool
    requires { H.ready how.now }
{
    let mut moved = [0; BYTES];
    moved.copy_from_slice(&row[..BYTES]);
    let (sites, labels) = (digit(&moved, 0), digit(&moved, 1));
    hold(rt, sites <= 6);
    hold(rt, 1 <= labels && labels <= 4);
    let pairs = pairs_of(rt, alloc, &moved, sites);
    let count = pairs.len() as u32;
    hold(rt, pairs.len() == count as usize);
    let mut labelling = start_of(rt, alloc, &moved, sites, labels);
    let problem = Problem::by_pair(
        pairs,
        DataCost::new(
            |site: u32, label: u32| -> i64
                requires { (site < 6) × (label < 4) }
                ensures { (pos 0 ≤ℤ result) × (result ≤ℤ pos 10000000) }
            { i64::from(number(&moved, 9 + (site * 4 + label) as usize, DATA)) },
            sites,
            labels,
        ),
        SmoothCost::by_pair(
            |line: u32, second: u32| -> i64
                requires { 0 < labels }
                ensures { (pos 0 ≤ℤ result) × (result ≤ℤ pos 10000000) }
            { own_cost(row, labels, line, second) },
            labels,
            count,
        ),
    );
    is_answered(&problem, alloc, &mut labelling, &moved, 0, &[], how)
}

/// Whether a row is right strip by strip, for each size of the strips and each number of parts.
fn is_right_in_strips(rt: &impl Abort, alloc: Global, row: &[u8; OWN_BYTES]) -> bool {
    for parts in PARTS {
        for sites in STRIPS {
            let how = InStrips {
                parts: *parts,
                sites: *sites,
            };
            if !is_right(rt, alloc, row, &how) {
                return false;
            }
        }
    }
    true
}

/// Each row of a table, of which there are so many.
fn expect_rows(rt: &impl Abort, alloc: Global, table: &[u8], count: usize) {
    hold(rt, count <= 500);
    hold(rt, table.len() == OWN_BYTES * count);
    for place in 0..count {
        let mut row = [0; OWN_BYTES];
        row.copy_from_slice(&table[OWN_BYTES * place..OWN_BYTES * place + OWN_BYTES]);
        let is_right_alone = is_right(rt, alloc, &row, &Alone)
            && is_right(rt, alloc, &row, &CutAlone);
        expect(
            rt,
            place,
            is_right_alone && is_right_in_strips(rt, alloc, &row),
        );
    }
}

#[test]
fn random_moves_are_best(rt: HostRuntime) {
    expect_rows(&rt, rt.alloc(), MOVES, 200);
}

#[test]
fn random_runs_are_chains(rt: HostRuntime) {
    expect_rows(&rt, rt.alloc(), RUNS, 100);
}
