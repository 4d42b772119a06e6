//! A cut that is refused: the moves made before it stand, and no picture is written.
ghost use Rattle.std.specs.Prelude.{◌≤◌, ◌<◌, ◌+◌, ◌*◌, ◌≤ℤ◌, pos};

use crate::by_workers::{Kept, RESTORE};
use crate::rows::{expect, hold, take_ok};
use byte_streams::Watched;
use cost_store::{DataCost, Problem, SmoothCost};
use cut_ways::InOrder;
use flow_network::{Net, Solved};
use label_field::{Labelling, Pairs};
use moves::{Alone, Ended, How, MoveError, Sharing, SolveError, run_expansion};
use std::alloc::Global;
use std::process::Abort;
use std::sync::atomic::{AtomicUsize, Ordering};
use vision::{Report, VisionError, run_restore};

/// Cuts so many nets, and refuses each further one.
#[derive(Drop)]
struct Refusing {
    left: AtomicUsize,
    error: SolveError,
}

impl Refusing {
    fn new(left: usize, error: SolveError) -> Refusing {
        Refusing {
            left: AtomicUsize::new(left),
            error,
        }
    }
}

impl How for Refusing {
    ghost ready = { λ _. Unit {0} };

    ghost refuses = { λ _ _. Unit {0} };

    fn solve(&self, alloc: Global, net: &Net) -> Result<Solved, SolveError> {
        if self.left.load(Ordering::SeqCst) == 0 {
            return Err(self.error);
        }
        self.left.fetch_sub(1, Ordering::SeqCst);
        Alone.solve(alloc, net)
    }
}

impl Sharing for Refusing {
    type Fork = InOrder;

    fn strip_sites(&self) -> usize {
        0
    }

    fn fork(&self) -> InOrder {
        InOrder
    }
}

/// Why a cut is refused, and what a run of moves and a command tell then.
type Error = (SolveError, MoveError, VisionError);

const ERRORS: &[Error] = &[
    (
        SolveError::OutOfMemory,
        MoveError::OutOfMemory,
        VisionError::OutOfMemory,
    ),
    (
        SolveError::Workers,
        MoveError::Workers,
        VisionError::Workers,
    ),
];

/// Costs of three labels at three sites in a row, site first. Two neighbours of unlike labels cost
/// 1.
const DATA: [u8; 9] = [3, 4, 2, 2, 0, 5, 3, 5, 1];

const POTTS: [u8; 9] = [0, 1, 1, 1, 0, 1, 1, 1, 0];

/// The labels before each move of the run from all 0, and after the last. The moves expand 0, 1, 2
/// in turn. The third gives the last site 2 (8 to 7), the fifth the second site 1 (7 to 6), the
/// sixth the first site 2 (6 to 5).
const CHAIN: &[[u8; 3]] = &[
    [0, 0, 0],
    [0, 0, 0],
    [0, 0, 0],
    [0, 0, 2],
    [0, 0, 2],
    [0, 1, 2],
    [2, 1, 2],
    [2, 1, 2],
    [2, 1, 2],
];

/// How a run of expansions from all 0 ends, and at which labels.
fn run_from_zero<H: Sharing>(
    alloc: Global,
    how: &H,
) -> Result<(Result<Ended, MoveError>, Vec<u8>), MoveError>
    requires { H.ready how.now }
{
    let problem = Problem::new(
        Pairs::grid4(alloc, 3, 1, 1)?,
        DataCost::new(
            |site: u32, label: u32| -> i64
                requires { site * 3 + label < 9 }
                ensures { (pos 0 ≤ℤ result) × (result ≤ℤ pos 255) }
            { i64::from(DATA[(site * 3 + label) as usize]) },
            3,
            3,
        ),
        SmoothCost::new(
            |first: u32, second: u32| -> i64
                requires { first * 3 + second < 9 }
                ensures { (pos 0 ≤ℤ result) × (result ≤ℤ pos 255) }
            { i64::from(POTTS[(first * 3 + second) as usize]) },
            3,
        ),
    );
    let mut labelling = Labelling::new(alloc, 3, 3)?;
    let ended = run_expansion(alloc, &problem, &mut labelling, 10, how);
    let labels = Vec::from_slice(alloc, labelling.as_slice())?;
    Ok((ended, labels))
}

/// How a run ends that is refused its cut after so many.
fn end_after(cuts: usize, told: MoveError) -> Result<Ended, MoveError> {
    if cuts < 8 {
        return Err(told);
    }
    Ok(Ended {
        cycles: 3,
        settled: true,
    })
}

/// Whether such a run tells so, and leaves these labels.
fn is_left(rt: &(impl Abort + AllocGlobal), row: &Error, cuts: usize, left: &[u8; 3]) -> bool {
    let how = Refusing::new(cuts, row.0);
    let (ended, labels) = take_ok(rt, run_from_zero(rt.alloc(), &how));
    ended == end_after(cuts, row.1) && labels.as_slice() == left.as_slice()
}

/// Each number of cuts that are not refused leaves the labels that they gave.
fn expect_left(rt: &(impl Abort + AllocGlobal), row: &Error) {
    for (cuts, left) in CHAIN.iter().enumerate() {
        expect(rt, cuts, is_left(rt, row, cuts, left));
    }
}

#[test]
fn refused_cuts_leave_the_moves_before(rt: HostRuntime) {
    for row in ERRORS {
        expect_left(&rt, row);
    }
}

/// A row of three pixels that is restored to itself, by seven cuts: 0 to 3 are expanded, the last
/// of which changes the picture, then 0 to 2.
const ROW: &[u8] = b"P5\n3 1\n3\n\x00\x03\x00";

/// What a restoring whose cut is refused after so many tells, and what it writes.
fn restore_with_cuts(
    rt: &(impl Abort + AllocGlobal),
    cuts: usize,
    error: SolveError,
) -> (Result<Report, VisionError>, Vec<u8>) {
    let how = Refusing::new(cuts, error);
    hold(rt, RESTORE.fits());
    let mut writer = Kept::new(rt.alloc());
    let mut sink = Watched::new(&mut writer);
    let report = run_restore(rt.alloc(), ROW, &RESTORE, &how, &mut sink);
    hold(rt, sink.failures() == 0);
    let Kept { bytes } = writer;
    (report, bytes)
}

/// Whether such a restoring tells so and writes nothing, and after seven cuts writes the picture.
fn is_written(rt: &(impl Abort + AllocGlobal), row: &Error, cuts: usize) -> bool {
    let (report, bytes) = restore_with_cuts(rt, cuts, row.0);
    if cuts < 7 {
        report == Err(row.2) && bytes.is_empty()
    } else {
        report.is_ok() && bytes.as_slice() == ROW
    }
}

/// Each number of cuts that are not refused.
fn expect_written(rt: &(impl Abort + AllocGlobal), row: &Error) {
    for cuts in 0..8usize {
        expect(rt, cuts, is_written(rt, row, cuts));
    }
}

#[test]
fn refused_cuts_write_nothing(rt: HostRuntime) {
    for row in ERRORS {
        expect_written(&rt, row);
    }
}
