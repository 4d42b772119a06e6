//! How many cuts a run of expansions has whose later expansions look near the changes alone, and
//! how many sites these have, on the picture of `opened`; and that it ends as a run whose moves are
//! all made whole.
ghost use Rattle.std.specs.Prelude.{false, ◌≡◌, ◌<◌, ◌≤◌, ◌+◌, ◌*◌, ◌≤ℤ◌, pos, length, All};
ghost use Rattle.cost_store.specs.Limits.{smooth_limit};
ghost use Rattle.cost_store.specs.Promises.{IsCost, entry_at};
ghost use Rattle.cut_ways.specs.declared.solve_error.SolveError.TheVariants.{OutOfMemory};

use crate::opened::sample;
use crate::random::CutAlone;
use crate::rows::{expect, hold, take_ok};
use cost_store::{DataCost, Problem, SMOOTH_LIMIT, SmoothCost, check_table, is_metric};
use cut_ways::InOrder;
use flow_network::{Net, Solved};
use label_energies::Moves;
use label_field::{Labelling, Pairs};
use moves::{Alone, How, Sharing, SolveError, run};
use std::alloc::{AllocError, Global};
use std::process::Abort;
use std::sync::atomic::{AtomicUsize, Ordering};

/// By how many parts a later expansion looks, what two unlike labels cost, how many cycles are
/// allowed, how many cuts there are but for those of the parts, and how many sites these have
/// together. Made by tools/tables/stage_sites.py, which finds by itself where a later expansion
/// looks.
type Run = (usize, i64, u32, usize, usize);

const RUNS: &[Run] = &[
    (1, 2, 1, 4, 1863),
    (1, 2, 2, 8, 2193),
    (1, 2, 3, 12, 3852),
    (1, 2, 4, 13, 3924),
    (1, 5, 4, 22, 24927),
    (8, 2, 3, 12, 2195),
    (8, 5, 4, 18, 20949),
];

/// What two unlike labels cost in these runs.
const UNLIKE: &[i64] = &[2, 5];

/// The pixels of the picture.
const PIXELS: usize = 4096;

/// As `Alone`, but it counts the nets that it is given, and their nodes. A later expansion looks by
/// so many parts, and a whole move has one. No net is too small to come here.
#[derive(Drop)]
pub struct Counting {
    pub parts: usize,
    pub cuts: AtomicUsize,
    pub nodes: AtomicUsize,
}

impl How for Counting {
    ghost ready = { λ _. Unit {0} };

    ghost refuses = { λ _ e. e ≡ OutOfMemory };

    fn solve(&self, alloc: Global, net: &Net) -> Result<Solved, SolveError> {
        self.cuts.fetch_add(1, Ordering::SeqCst);
        self.nodes.fetch_add(net.nodes(), Ordering::SeqCst);
        Alone.solve(alloc, net)
    }
}

impl Sharing for Counting {
    type Fork = InOrder;

    fn strip_sites(&self) -> usize {
        0
    }

    fn parts(&self, sites: usize) -> usize {
        if sites == PIXELS {
            return 1;
        }
        self.parts.max(1)
    }

    fn fork(&self) -> InOrder {
        InOrder
    }
}

/// What each two of four labels cost.
fn smooth_costs(alloc: Global, unlike: i64) -> Result<Vec<i64>, AllocError> {
    let mut table = Vec::new(alloc);
    for first in 0..4u32 {
        for second in 0..4u32 {
            table.push(if first == second { 0 } else { unlike })?;
        }
    }
    Ok(table)
}

/// The table of that.
fn smooth_of(rt: &impl Abort, alloc: Global, unlike: i64) -> Vec<i64>
    ensures size { length result.items ≡ 16 }
    ensures costs { All (IsCost smooth_limit) result.items }
{
    let table = take_ok(rt, smooth_costs(alloc, unlike));
    hold(rt, check_table(table.as_slice(), SMOOTH_LIMIT).is_ok());
    hold(rt, table.len() == 16);
    table
}

/// Runs moves of a kind on the picture. It answers whether they were not refused.
fn makes_moves<H: Sharing>(
    alloc: Global,
    pairs: Pairs,
    labelling: &mut Labelling,
    smooth: &[i64],
    kind: Moves,
    cycles: u32,
    how: &H,
) -> bool
    requires ready { H.ready how.now }
    requires pairs { (pairs.sites ≡ 4096) × (pairs.numbered ≡ false) }
    requires sites { (length labelling.old.at ≡ 4096) × (labelling.old.labels ≡ 4) }
    requires smooth { (length smooth.now ≡ 16) × All (IsCost smooth_limit) smooth.now }
{
    let problem = Problem::new(
        pairs,
        DataCost::new(
            |site: u32, label: u32| -> i64
                requires { (site < 4096) × (label < 4) }
                ensures { (pos 0 ≤ℤ result) × (result ≤ℤ pos 15) }
            { i64::from(5 * sample(site).abs_diff(label)) },
            4096,
            4,
        ),
        SmoothCost::with_metric(
            |first: u32, second: u32| -> i64
                requires { first * 4 + second < length smooth.now }
                ensures { result ≡ entry_at 4 smooth.entry.now first second }
            { smooth[first as usize * 4 + second as usize] },
            4,
            is_metric(smooth, 4),
        ),
    );
    run(alloc, &problem, labelling, kind, cycles, how).is_ok()
}

/// The labels where a run of moves of a kind on the picture ends that starts from label 0
/// everywhere; none where it is refused.
pub fn labels_after<H: Sharing>(
    rt: &impl Abort,
    alloc: Global,
    kind: Moves,
    unlike: i64,
    cycles: u32,
    how: &H,
) -> Option<Vec<u8>>
    requires { H.ready how.now }
{
    let pairs = take_ok(rt, Pairs::grid4(alloc, 64, 64, 1));
    let mut labelling = take_ok(rt, Labelling::new(alloc, 4096, 4));
    let smooth = smooth_of(rt, alloc, unlike);
    hold(rt, pairs.sites() == 4096);
    hold(rt, labelling.sites() == 4096);
    hold(rt, labelling.labels() == 4);
    if !makes_moves(
        alloc,
        pairs,
        &mut labelling,
        smooth.as_slice(),
        kind,
        cycles,
        how,
    ) {
        return None;
    }
    Some(take_ok(rt, Vec::from_slice(alloc, labelling.as_slice())))
}

/// Whether a run, which is not refused, has as many cuts as the row tells, and these as many sites.
fn has_cuts(rt: &impl Abort, alloc: Global, run: &Run) -> bool {
    let counting = Counting {
        parts: run.0,
        cuts: AtomicUsize::new(0),
        nodes: AtomicUsize::new(0),
    };
    labels_after(rt, alloc, Moves::Expansion, run.1, run.2, &counting).is_some()
        && counting.cuts.load(Ordering::SeqCst) == run.3
        && counting.nodes.load(Ordering::SeqCst) == run.4
}

#[test]
fn later_expansions_open_few_sites(rt: HostRuntime) {
    for (place, run) in RUNS.iter().enumerate() {
        expect(&rt, place, has_cuts(&rt, rt.alloc(), run));
    }
}

#[test]
fn later_expansions_end_as_whole_ones(rt: HostRuntime) {
    for (place, unlike) in UNLIKE.iter().enumerate() {
        let near = labels_after(&rt, rt.alloc(), Moves::Expansion, *unlike, 4, &Alone);
        let whole = labels_after(&rt, rt.alloc(), Moves::Expansion, *unlike, 4, &CutAlone);
        expect(&rt, place, near.is_some() && near == whole);
    }
}
