//! How many nets a run of swaps has whose later swaps look near the changes alone, and how many
//! sites these have, on the picture of `opened`; and that it ends as a run whose moves are all made
//! whole.
use crate::later::{Counting, labels_after};
use crate::random::CutAlone;
use crate::rows::expect;
use label_energies::Moves;
use moves::Alone;
use std::alloc::Global;
use std::process::Abort;
use std::sync::atomic::{AtomicUsize, Ordering};

/// What two unlike labels cost, how many cycles are allowed, how many swaps are made whole, each of
/// which has one net, and how many sites these nets have together. Made by
/// tools/tables/later_swaps.py, which finds by itself where a later swap looks.
type Run = (i64, u32, usize, usize);

const RUNS: &[Run] = &[
    (2, 4, 18, 1945),
    (3, 3, 18, 19374),
    (3, 6, 18, 19374),
    (5, 3, 17, 27185),
    (5, 4, 21, 32942),
    (5, 6, 25, 39589),
    (8, 3, 14, 28612),
];

/// What two unlike labels cost, and how many cycles are allowed, in runs that are made once more
/// with all swaps whole.
const COMPARED: &[(i64, u32)] = &[(3, 6), (5, 6), (8, 3)];

/// Whether a run, which is not refused, has as many nets as the row tells, and these as many sites.
fn has_nets(rt: &impl Abort, alloc: Global, run: &Run) -> bool {
    let counting = Counting {
        parts: 1,
        cuts: AtomicUsize::new(0),
        nodes: AtomicUsize::new(0),
    };
    labels_after(rt, alloc, Moves::Swap, run.0, run.1, &counting).is_some()
        && counting.cuts.load(Ordering::SeqCst) == run.2
        && counting.nodes.load(Ordering::SeqCst) == run.3
}

#[test]
fn later_swaps_look_near_changes(rt: HostRuntime) {
    for (place, run) in RUNS.iter().enumerate() {
        expect(&rt, place, has_nets(&rt, rt.alloc(), run));
    }
}

#[test]
fn later_swaps_end_as_whole_ones(rt: HostRuntime) {
    for (place, run) in COMPARED.iter().enumerate() {
        let near = labels_after(&rt, rt.alloc(), Moves::Swap, run.0, run.1, &Alone);
        let whole = labels_after(&rt, rt.alloc(), Moves::Swap, run.0, run.1, &CutAlone);
        expect(&rt, place, near.is_some() && near == whole);
    }
}
