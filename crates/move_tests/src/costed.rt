//! Small random moves and runs where labels cost something by themselves, and the bounds of settled
//! runs, against answers worked out over all labellings.
ghost use Rattle.std.specs.Prelude.{◌≡◌, ◌≤◌, ◌<◌, ◌+◌, ◌*◌, ◌≤ℤ◌, pos, length, All};
ghost use Rattle.cost_store.specs.Limits.{smooth_limit};
ghost use Rattle.cost_store.specs.Posed.{IsPosed, FitsProblem};
ghost use Rattle.cost_store.specs.Promises.{IsCost, entry_at};

use crate::costs::COSTED;
use crate::random::{
    BYTES, CutAlone, DATA, IN_STRIPS, SMOOTH, digit, is_answered, number, number_of, pairs_of,
    start_of,
};
use crate::rows::{expect, hold, take_ok};
use cost_store::{DataCost, Problem, SmoothCost, check_table, is_metric};
use label_field::Labelling;
use moves::{Alone, MoveError, Sharing, expansion_bound};
use std::alloc::{AllocError, Global};
use std::process::Abort;

/// How many bytes a row has: those of `random`; what each of four labels costs by itself; the label
/// energy after, of eight digits; the two numbers of the bound, of five digits each, 0 and 0 where
/// there is none; and the least energy of all labellings, of nine digits.
const COSTED_BYTES: usize = 129;

/// A number of so many digits.
fn decimal(row: &[u8; COSTED_BYTES], from: usize, digits: usize) -> u32
    requires { from + digits ≤ 129 }
{
    let mut number: u32 = 0;
    for place in from..from + digits {
        number = number
            .saturating_mul(10)
            .saturating_add(number_of(row[place], 9));
    }
    number
}

/// What each of four labels costs by itself.
fn costs_of(row: &[u8; COSTED_BYTES]) -> [i64; 4] {
    [
        i64::from(number_of(row[98], DATA)),
        i64::from(number_of(row[99], DATA)),
        i64::from(number_of(row[100], DATA)),
        i64::from(number_of(row[101], DATA)),
    ]
}

/// The smooth costs of so many labels.
fn smooth_costs(alloc: Global, row: &[u8; BYTES], labels: u32) -> Result<Vec<i64>, AllocError>
    requires { labels ≤ 4 }
{
    let mut table = Vec::new(alloc);
    for first in 0..labels {
        for second in 0..labels {
            let place = 33 + (first * 4 + second) as usize;
            table.push(i64::from(number(row, place, SMOOTH)))?;
        }
    }
    Ok(table)
}

/// A table of them.
fn smooth_of(rt: &impl Abort, alloc: Global, row: &[u8; BYTES], labels: u32) -> Vec<i64>
    requires { labels ≤ 4 }
    ensures size { length result.items ≡ labels * labels }
    ensures costs { All (IsCost smooth_limit) result.items }
{
    let table = take_ok(rt, smooth_costs(alloc, row, labels));
    hold(rt, check_table(table.as_slice(), 10_000).is_ok());
    hold(rt, table.len() == labels as usize * labels as usize);
    table
}

/// Whether the bound is that of a row, and a settled run of expansions has ended within it.
fn is_bounded<F: Fn(u32, u32) -> i64 + Sync, V: Fn(u32, u32) -> i64 + Sync>(
    problem: &Problem<F, V>,
    labelling: &Labelling,
    row: &[u8; COSTED_BYTES],
    is_settled: bool,
) -> bool
    requires posed { IsPosed F.Fn V.Fn problem.now }
    requires fits { FitsProblem problem.now labelling.now }
{
    let told = (decimal(row, 110, 5), decimal(row, 115, 5));
    match expansion_bound(problem) {
        Ok(bound) => {
            let energy = problem.energy(labelling).unsigned_abs();
            let least = u64::from(decimal(row, 120, 9));
            let is_near = bound.vmin.saturating_mul(energy)
                <= bound.vmax.saturating_mul(2).saturating_mul(least);
            (bound.vmin, bound.vmax) == (u64::from(told.0), u64::from(told.1))
                && (is_near || !is_settled)
        }
        Err(error) => error == MoveError::NoBound && told == (0, 0),
    }
}

/// Whether the move or the run of a row is answered as the row says, and is within its bound. The
/// first bytes of the row are given once more.
fn is_told<F: Fn(u32, u32) -> i64 + Sync, V: Fn(u32, u32) -> i64 + Sync, H: Sharing>(
    problem: &Problem<F, V>,
    alloc: Global,
    labelling: &mut Labelling,
    row: &[u8; COSTED_BYTES],
    moved: &[u8; BYTES],
    how: &H,
) -> bool
    requires ready { H.ready how.now }
    requires posed { IsPosed F.Fn V.Fn problem.now }
    requires fits { FitsProblem problem.now labelling.old }
{
    let label_energy = i64::from(decimal(row, 102, 8));
    let is_answered = is_answered(problem, alloc, labelling, moved, label_energy, &[], how);
    let is_settled = digit(moved, 3) == 2 && digit(moved, 5) == 1;
    is_answered && is_bounded(problem, labelling, row, is_settled)
}

/// Whether a row is right.
fn is_right<H: Sharing>(rt: &impl Abort, alloc: Global, row: &[u8; COSTED_BYTES], how: &H) -> bool
    requires { H.ready how.now }
{
    let mut moved = [0; BYTES];
    moved.copy_from_slice(&row[..BYTES]);
    let (sites, labels) = (digit(&moved, 0), digit(&moved, 1));
    hold(rt, sites <= 6);
    hold(rt, 1 <= labels && labels <= 4);
    let pairs = pairs_of(rt, alloc, &moved, sites);
    let mut labelling = start_of(rt, alloc, &moved, sites, labels);
    let table = smooth_of(rt, alloc, &moved, labels);
    let smooth = table.as_slice();
    let cost = |first: u32, second: u32| -> i64
        requires { (first * labels + second < length smooth.now) × (labels ≤ 256) }
        ensures { result ≡ entry_at labels smooth.entry.now first second }
    { smooth[first as usize * labels as usize + second as usize] };
    let mut problem = Problem::new(
        pairs,
        DataCost::new(
            |site: u32, label: u32| -> i64
                requires { (site < 6) × (label < 4) }
                ensures { (pos 0 ≤ℤ result) × (result ≤ℤ pos 10000000) }
            { i64::from(number(&moved, 9 + (site * 4 + label) as usize, DATA)) },
            sites,
            labels,
        ),
        SmoothCost::with_metric(cost, labels, is_metric(smooth, labels)),
    );
    let Ok(()) = problem.set_label_costs(alloc, &costs_of(row)[..labels as usize]) else {
        return false;
    };
    is_told(&problem, alloc, &mut labelling, row, &moved, how)
}

/// Moves and runs worked by hand, each a row of this table's form.
const WORKED: &[&[u8; COSTED_BYTES]] = &[
    // From 14, expanding 1 reaches 11 by 1 1; 0 1 costs 13.
    b"230291200039093000000000000000000011010101100000000000011000000000000000000000000000000006000000005550000000050000000000000000011",
    // With labels that cost 2 each, 0 2 is best.
    b"230291200039093000000000000000000011010101100000000000002000000000000000000000000000000000000000002220000000040000000000000000004",
    // 0 1 and 1 1 both cost 9: label 1 at the fewer sites.
    b"220291200030093000000000000000000010010000000000000000001000000000000000000000000000000003000000003300000000060000000000000000009",
    // Swaps where label 1 costs something by itself, in some cycles, in none, and one; label 2 is
    // refused first.
    b"220394000030093000000000000000000010010000000000000000000000000000000000000000000000000009000000000100000000000000000000000000004",
    b"220304000030093000000000000000000010010000000000000000000000000000000000000000000000000009000000000100000000000000000000000000004",
    b"220104001030093000000000000000000010010000000000000000000000000000000000000000000000000009000000000100000000000000000000000000004",
    b"220103002030093000000000000000000010010000000000000000000000000000000000000000000000000009000000000100000000000000000000000000004",
    // Label costs that are all 0 refuse no swap, and leave the bound.
    b"220391200030093000000000000000000010010000000000000000001000000000000000000000000000000003000000000000000000000000100001000000003",
    // A picture of three pixels, whose labels cost 1 each, and nothing.
    b"342291100012332100123000000000000011110111101111000000000000001112100000000000000000000003000000001111000000010000000000000000004",
    b"342291200012332100123000000000000011110111101111000000003000001112100000000000000000000000000000020000000000000000100001000000002",
    // One label: both numbers of its bound are 1.
    b"110211100700000000000000000000000000000000000000000000000000000000000000000000000000000007000000000000000000000000100001000000007",
];

/// Whether a row is right, with sites decided first where that may be, without, and by parts in
/// strips.
fn is_right_each_way(rt: &impl Abort, alloc: Global, row: &[u8; COSTED_BYTES]) -> bool {
    is_right(rt, alloc, row, &Alone)
        && is_right(rt, alloc, row, &CutAlone)
        && is_right(rt, alloc, row, &IN_STRIPS)
}

#[test]
fn costed_moves_worked_by_hand(rt: HostRuntime) {
    for (place, row) in WORKED.iter().enumerate() {
        expect(&rt, place, is_right_each_way(&rt, rt.alloc(), row));
    }
}

#[test]
fn costed_moves_are_best(rt: HostRuntime) {
    hold(&rt, COSTED.len() == COSTED_BYTES * 700);
    for place in 0..700 {
        let mut row = [0; COSTED_BYTES];
        row.copy_from_slice(&COSTED[COSTED_BYTES * place..COSTED_BYTES * place + COSTED_BYTES]);
        expect(&rt, place, is_right_each_way(&rt, rt.alloc(), &row));
    }
}
