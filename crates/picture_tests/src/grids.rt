//! Moves on a small grid, on one thread and by workers.
ghost use Rattle.std.specs.Prelude.{◌≤◌, ◌<◌, ◌+◌, ◌*◌, ◌≤ℤ◌, pos};

use crate::by_workers::TWO;
use crate::rows::{expect, hold, take_ok};
use cost_store::{DataCost, Problem, SmoothCost};
use label_field::{Labelling, Pairs};
use moves::{Alone, Ended, MoveError, Sharing, expand, run_expansion};
use rounds::{Open, Workers};
use std::alloc::Global;
use std::sync::Wait;
use std::thread::Threads;
use worker_options::{Gate, Options};

/// Costs of three labels at nine sites, site first.
const DATA: [u8; 27] = [
    0, 2, 3, 3, 0, 2, 1, 0, 3, 0, 1, 3, 3, 1, 0, 2, 0, 2, 3, 3, 0, 0, 2, 2, 1, 2, 0,
];

const POTTS: [u8; 9] = [0, 1, 1, 1, 0, 1, 1, 1, 0];

/// Whether an expansion changed something, how a run after it ended, and the labels then.
type Came = (bool, Ended, Vec<u8>);

/// What an expansion and a run of expansions after it come to, from the label 0 at each site of a
/// grid of 3 by 3.
fn expand_and_run<H: Sharing>(alloc: Global, how: &H) -> Result<Came, MoveError>
    requires { H.ready how.now }
{
    let problem = Problem::new(
        Pairs::grid4(alloc, 3, 3, 1)?,
        DataCost::new(
            |site: u32, label: u32| -> i64
                requires { site * 3 + label < 27 }
                ensures { (pos 0 ≤ℤ result) × (result ≤ℤ pos 255) }
            { i64::from(DATA[(site * 3 + label) as usize]) },
            9,
            3,
        ),
        SmoothCost::new(
            |first: u32, second: u32| -> i64
                requires { first * 3 + second < 9 }
                ensures { (pos 0 ≤ℤ result) × (result ≤ℤ pos 255) }
            { i64::from(POTTS[(first * 3 + second) as usize]) },
            3,
        ),
    );
    let mut labelling = Labelling::new(alloc, 9, 3)?;
    let changed = expand(alloc, &problem, &mut labelling, 1, how)?;
    let ended = run_expansion(alloc, &problem, &mut labelling, 10, how)?;
    let labels = Vec::from_slice(alloc, labelling.as_slice())?;
    Ok((changed, ended, labels))
}

/// The same by workers.
fn expanded_by<R: Threads + Wait + Sync>(
    rt: &R,
    alloc: Global,
    options: Options,
) -> Result<Came, MoveError> {
    let open = Open;
    let gate: &(dyn Gate + Sync) = &open;
    let how = Workers {
        rt,
        options,
        gate: &gate,
    };
    expand_and_run(alloc, &how)
}

/// Whether two came to the same.
fn are_alike(first: &Came, second: &Came) -> bool {
    first.0 == second.0 && first.1 == second.1 && first.2.as_slice() == second.2.as_slice()
}

#[test]
fn grids_are_alike(rt: HostRuntime) {
    let alone = take_ok(&rt, expand_and_run(rt.alloc(), &Alone));
    let two = take_ok(&rt, expanded_by(&rt, rt.alloc(), TWO));
    hold(&rt, are_alike(&alone, &two));
}

/// Options of one thread of which one number is out of its range: such a thread is given each net.
const BAD: &[Options] = &[
    Options { threads: 0, ..TWO },
    Options {
        threads: 1,
        blocks: 257,
        ..TWO
    },
    Options {
        threads: 1,
        ring: 0,
        ..TWO
    },
];

#[test]
fn bad_options_are_told(rt: HostRuntime) {
    for (place, options) in BAD.iter().enumerate() {
        let refused = expanded_by(&rt, rt.alloc(), *options).err();
        expect(&rt, place, refused == Some(MoveError::BadOptions));
    }
}
