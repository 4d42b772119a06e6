//! Small energies whose minima were worked by hand: their nets, cut by workers in many blocks.
use crate::calls::Diary;
use crate::overlap::TWO;
use crate::rows::{expect, hold, take_ok};
use crate::solving::{BAD, is_plain};
use compile_cut::{Compiled, compile};
use cut_ways::SolveError;
use flow_network::{Net, Solved};
use minimum::minimise_by;
use plain_cut::solve;
use pseudo_bool::{Energy, EnergyError};
use regular::check;
use rounds::{Open, Workers};
use std::alloc::Global;
use std::process::Abort;
use std::sync::Wait;
use std::thread::Threads;
use worker_options::{Gate, Options};

/// What each variable costs where it is 0 and where it is 1, what two of them cost at 00, 01, 10
/// and 11, the least value, and the least assignment with the fewest ones.
type Case = (
    &'static [[i64; 2]],
    &'static [(u32, u32, [i64; 4])],
    i64,
    &'static [bool],
);

const CASES: &[Case] = &[
    // The values at 00, 01, 10 and 11 are 6, 14, 7 and 8.
    (
        &[[5, 2], [1, 6]],
        &[(0, 1, [0, 3, 4, 0])],
        6,
        &[false, false],
    ),
    // Samples 0 3 0 of a row, each of which turns from 0 to 3 or not.
    (
        &[[0, 3], [3, 0], [0, 3]],
        &[(0, 1, [0, 1, 1, 0]), (1, 2, [0, 1, 1, 0])],
        2,
        &[false, true, false],
    ),
    // The rows 0 9 0 0 and 9 0 0 0 of a stereo pair, shifted by 1 or not.
    (
        &[[9, 9], [9, 0], [0, 0], [0, 0]],
        &[
            (0, 1, [0, 1, 1, 0]),
            (1, 2, [0, 1, 1, 0]),
            (2, 3, [0, 1, 1, 0]),
        ],
        9,
        &[true; 4],
    ),
    // Pixels 10 12 200 in two segments, of which the first and the last are given.
    (
        &[[0, 10_000_000], [1, 188], [10_000_000, 0]],
        &[(0, 1, [0, 20, 20, 0]), (1, 2, [0, 5, 5, 0])],
        6,
        &[false, false, true],
    ),
    // Two sites swap labels that cost 4 beside each other: 00 and 11 are both 3.
    (
        &[[0, 3], [3, 0]],
        &[(0, 1, [0, 4, 4, 0])],
        3,
        &[false, false],
    ),
    // One pixel, which turns to its sample or not.
    (&[[7, 0]], &[], 0, &[true]),
];

/// The energy of a case.
fn energy_of(alloc: Global, case: &Case) -> Result<Energy, EnergyError> {
    let mut energy = Energy::new(alloc);
    for table in case.0 {
        let variable = energy.add_variable()?;
        energy.add_term1(variable, *table)?;
    }
    for (first, second, table) in case.1 {
        energy.add_term2(*first, *second, *table)?;
    }
    Ok(energy)
}

/// Whether a cut shows the minimum of a case.
fn is_minimum(compiled: &Compiled, solved: &Solved, case: &Case) -> bool {
    let Ok(value) = i64::try_from(solved.value) else {
        return false;
    };
    value.checked_add(compiled.constant) == Some(case.2) && solved.sink_side.as_slice() == case.3
}

/// Threads and blocks.
const CREWS: &[(u32, u32)] = &[(1, 16), (1, 256), (2, 16), (2, 256), (8, 16), (8, 256)];

/// Whether workers cut the net as the plain solver does, and ask their gate exactly where something
/// flows.
fn is_alike<R: Threads + Wait + Abort + AllocGlobal + Sync>(
    rt: &R,
    net: &Net,
    wanted: &Solved,
    crew: &(u32, u32),
) -> bool {
    let gate = take_ok(rt, Diary::new(rt.alloc(), 0));
    let options = Options {
        threads: crew.0,
        blocks: crew.1,
        ..TWO
    };
    is_plain(rt, net, wanted, &options, &gate) && (gate.count() > 0) == (wanted.value > 0)
}

/// Whether all do so.
fn are_alike<R: Threads + Wait + Abort + AllocGlobal + Sync>(
    rt: &R,
    net: &Net,
    wanted: &Solved,
) -> bool {
    for crew in CREWS {
        if !is_alike(rt, net, wanted, crew) {
            return false;
        }
    }
    true
}

/// The value of the cut of a case, where all cuts are alike and show the case's minimum.
fn right_value<R: Threads + Wait + Abort + AllocGlobal + Sync>(rt: &R, case: &Case) -> Option<u64> {
    let energy = take_ok(rt, energy_of(rt.alloc(), case));
    let regular = take_ok(rt, check(&energy));
    let compiled = take_ok(rt, compile(rt.alloc(), regular));
    let wanted = take_ok(rt, solve(rt.alloc(), &compiled.net));
    if are_alike(rt, &compiled.net, &wanted) && is_minimum(&compiled, &wanted, case) {
        Some(wanted.value)
    } else {
        None
    }
}

/// Each net has fewer nodes than blocks. In some of them something flows.
#[test]
fn worked_nets_end_alike(rt: HostRuntime) {
    let mut greatest = 0;
    for (place, case) in CASES.iter().enumerate() {
        let value = right_value(&rt, case);
        expect(&rt, place, value.is_some());
        greatest = value.unwrap_or(0).max(greatest);
    }
    hold(&rt, greatest > 0);
}

/// Whether the minimum of the first case is refused to workers of these options, as bad.
fn is_told<R: Threads + Wait + Abort + AllocGlobal + Sync>(rt: &R, options: &Options) -> bool {
    let open = Open;
    let gate: &(dyn Gate + Sync) = &open;
    let how = Workers {
        rt,
        options: *options,
        gate: &gate,
    };
    let energy = take_ok(rt, energy_of(rt.alloc(), &CASES[0]));
    let regular = take_ok(rt, check(&energy));
    minimise_by(rt.alloc(), regular, &how).err() == Some(SolveError::BadOptions)
}

#[test]
fn bad_options_are_told(rt: HostRuntime) {
    for (place, options) in BAD.iter().enumerate() {
        expect(&rt, place, is_told(&rt, options));
    }
}
