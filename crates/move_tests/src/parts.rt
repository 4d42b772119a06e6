//! Moves closed in by parts: whatever the number of parts and the size of their strips, the labels
//! are those of one part.
ghost use Rattle.std.specs.Prelude.{◌≡◌, ◌<◌, ◌≤◌, ◌≤ℤ◌, pos, length};
ghost use Rattle.cost_store.specs.Posed.{IsPosed};
ghost use Rattle.cut_ways.specs.declared.solve_error.SolveError.TheVariants.{OutOfMemory};

use crate::rows::{expect, hold, take_ok};
use cost_store::{DataCost, Problem, SmoothCost};
use cut_ways::InOrder;
use flow_network::{Net, Solved};
use label_energies::Move;
use label_field::{Labelling, Pairs};
use moves::{Alone, How, MoveError, Sharing, SolveError, expand, swap};
use std::alloc::Global;
use std::process::Abort;

/// As `Alone`, but a move is closed in by so many parts, in strips of so many open sites.
#[derive(Clone, Copy)]
struct InParts {
    parts: usize,
    strip: usize,
}

impl How for InParts {
    ghost ready = { λ _. Unit {0} };

    ghost refuses = { λ _ e. e ≡ OutOfMemory };

    fn solve(&self, alloc: Global, net: &Net) -> Result<Solved, SolveError> {
        Alone.solve(alloc, net)
    }
}

impl Sharing for InParts {
    type Fork = InOrder;

    fn strip_sites(&self) -> usize {
        self.strip
    }

    fn parts(&self, _sites: usize) -> usize {
        self.parts.max(1)
    }

    fn fork(&self) -> InOrder {
        InOrder
    }
}

/// How many columns and rows a picture has.
const SIDE: u32 = 9;

const SITES: u32 = 81;

/// How many pictures are tried, by how many parts, and in strips of how many open sites.
const PICTURES: u32 = 8;

const PARTS: &[usize] = &[2, 3, 7, 50];

const STRIPS: &[usize] = &[1, 7, 50];

/// The moves of each picture. The last is refused where smooth costs are squares.
const CHANGES: &[Move] = &[
    Move::Expand(0),
    Move::Expand(3),
    Move::Swap(1, 2),
    Move::Expand(1),
];

/// A number below 65,536 that a picture has at a place: a mix of the two.
fn hash_of(picture: u32, place: u32) -> u32
    ensures { result < 65536 }
{
    let seed = picture
        .wrapping_mul(2_654_435_761)
        .wrapping_add(place.wrapping_mul(40_503))
        .wrapping_add(12_345);
    let turned = seed ^ (seed >> 15);
    let once = turned.wrapping_mul(2_246_822_519);
    (once ^ (once >> 13)) >> 16
}

/// Neighbours in rows, columns and one diagonal. Of each second pair the later site comes first.
fn pairs_of(rt: &impl Abort, alloc: Global, picture: u32) -> Pairs {
    let mut pairs = Pairs::new(alloc, SITES);
    for site in 0..SITES {
        for step in [1, SIDE, SIDE + 1] {
            if site % SIDE == SIDE - 1 && step != SIDE || SITES <= site + step {
                continue;
            }
            let is_turned = hash_of(picture, 7 * site + step) % 2 == 0;
            let ends = if is_turned && picture % 2 == 0 {
                (site + step, site)
            } else {
                (site, site + step)
            };
            hold(rt, !pairs.are_numbered());
            take_ok(rt, pairs.add(ends.0, ends.1, 1));
        }
    }
    pairs
}

/// Whether unlike labels of a picture cost the square of how far they lie apart. It is a metric no
/// more: from 0 to 2 costs 4, and by way of 1 it costs 2.
fn is_square(picture: u32) -> bool {
    picture % 4 == 3
}

/// What two labels of neighbours cost in a picture.
fn smooth_at(picture: u32, first: u32, second: u32) -> i64
    ensures { (pos 0 ≤ℤ result) × (result ≤ℤ pos 10000) }
{
    let apart = first.abs_diff(second).min(3);
    let shape = if is_square(picture) {
        apart * apart
    } else {
        9 * apart.min(1)
    };
    let cost = 200 * (1 + picture % 5) * shape;
    i64::from(cost.min(10_000))
}

/// The label of a site at the start.
fn label_at(picture: u32, site: u32) -> u32
    ensures { result < 4 }
{
    hash_of(picture, 1000 + site % SITES) % 4
}

/// The labels of a picture at the start.
fn start_of(rt: &impl Abort, alloc: Global, picture: u32) -> Labelling
    ensures { (length result.at ≡ 81) × (result.labels ≡ 4) }
{
    let mut start = take_ok(rt, Labelling::new(alloc, SITES, 4));
    for site in 0..SITES {
        take_ok(rt, start.set_label(site, label_at(picture, site)));
    }
    hold(rt, start.sites() == SITES);
    hold(rt, start.labels() == 4);
    start
}

/// What a move answers, and the labels then.
type Told = (Result<bool, MoveError>, Vec<u8>);

/// What a move answers, and the labels after it.
fn told_by<F: Fn(u32, u32) -> i64 + Sync, V: Fn(u32, u32) -> i64 + Sync, H: Sharing>(
    rt: &impl Abort,
    alloc: Global,
    problem: &Problem<F, V>,
    picture: u32,
    change: Move,
    how: &H,
) -> Told
    requires ready { H.ready how.now }
    requires posed { IsPosed F.Fn V.Fn problem.now }
    requires size { (problem.now.pairs.sites ≡ 81) × (problem.now.data_cost.labels ≡ 4) }
{
    let mut labelling = start_of(rt, alloc, picture);
    let answer = match change {
        Move::Expand(alpha) => expand(alloc, problem, &mut labelling, alpha, how),
        Move::Swap(alpha, beta) => swap(alloc, problem, &mut labelling, alpha, beta, how),
    };
    (
        answer,
        take_ok(rt, Vec::from_slice(alloc, labelling.as_slice())),
    )
}

/// Whether a move by so many parts, in strips of each size, answers and leaves the same.
fn is_told_by<F: Fn(u32, u32) -> i64 + Sync, V: Fn(u32, u32) -> i64 + Sync>(
    rt: &impl Abort,
    alloc: Global,
    problem: &Problem<F, V>,
    picture: u32,
    change: Move,
    wanted: &Told,
    parts: usize,
) -> bool
    requires posed { IsPosed F.Fn V.Fn problem.now }
    requires size { (problem.now.pairs.sites ≡ 81) × (problem.now.data_cost.labels ≡ 4) }
{
    for strip in STRIPS {
        let how = InParts {
            parts,
            strip: *strip,
        };
        let told = told_by(rt, alloc, problem, picture, change, &how);
        if told.0 != wanted.0 || told.1.as_slice() != wanted.1.as_slice() {
            return false;
        }
    }
    true
}

/// Whether it does so by each number of parts.
fn is_told_by_parts<F: Fn(u32, u32) -> i64 + Sync, V: Fn(u32, u32) -> i64 + Sync>(
    rt: &impl Abort,
    alloc: Global,
    problem: &Problem<F, V>,
    picture: u32,
    change: Move,
    wanted: &Told,
) -> bool
    requires posed { IsPosed F.Fn V.Fn problem.now }
    requires size { (problem.now.pairs.sites ≡ 81) × (problem.now.data_cost.labels ≡ 4) }
{
    for parts in PARTS {
        if !is_told_by(rt, alloc, problem, picture, change, wanted, *parts) {
            return false;
        }
    }
    true
}

/// How many sites have another label than at the start.
fn count_changes(picture: u32, labels: &[u8]) -> usize {
    let mut changes = 0usize;
    let mut site = 0u32;
    for label in labels {
        if u32::from(*label) != label_at(picture, site) {
            changes = changes.wrapping_add(1);
        }
        site = site.wrapping_add(1);
    }
    changes
}

/// Whether a move of a picture is refused exactly where it should be.
fn is_due(picture: u32, change: Move, answer: &Result<bool, MoveError>) -> bool {
    let is_refused = is_square(picture) && change == Move::Expand(1);
    match answer {
        Ok(_) => !is_refused,
        Err(MoveError::PairNotRegular { .. }) => is_refused,
        Err(_) => false,
    }
}

/// How many sites a move changes, if it comes to the same by parts, and is refused exactly where it
/// should be.
fn try_move<F: Fn(u32, u32) -> i64 + Sync, V: Fn(u32, u32) -> i64 + Sync>(
    rt: &impl Abort,
    alloc: Global,
    problem: &Problem<F, V>,
    picture: u32,
    change: Move,
) -> Option<usize>
    requires posed { IsPosed F.Fn V.Fn problem.now }
    requires size { (problem.now.pairs.sites ≡ 81) × (problem.now.data_cost.labels ≡ 4) }
{
    let wanted = told_by(rt, alloc, problem, picture, change, &Alone);
    if is_due(picture, change, &wanted.0)
        && is_told_by_parts(rt, alloc, problem, picture, change, &wanted)
    {
        Some(count_changes(picture, wanted.1.as_slice()))
    } else {
        None
    }
}

/// How many sites the moves of a picture change in all, if each comes to the same by parts.
fn try_moves<F: Fn(u32, u32) -> i64 + Sync, V: Fn(u32, u32) -> i64 + Sync>(
    rt: &impl Abort,
    alloc: Global,
    problem: &Problem<F, V>,
    picture: u32,
) -> Option<usize>
    requires posed { IsPosed F.Fn V.Fn problem.now }
    requires size { (problem.now.pairs.sites ≡ 81) × (problem.now.data_cost.labels ≡ 4) }
{
    let mut changes = 0usize;
    for change in CHANGES {
        let count = try_move(rt, alloc, problem, picture, *change)?;
        changes = changes.wrapping_add(count);
    }
    Some(changes)
}

/// The moves of a random picture of four labels. It answers how many sites they change in all, if
/// each comes to the same by parts.
fn try_picture(rt: &impl Abort, alloc: Global, picture: u32) -> Option<usize> {
    let pairs = pairs_of(rt, alloc, picture);
    hold(rt, pairs.sites() == SITES && !pairs.are_numbered());
    let problem = Problem::new(
        pairs,
        DataCost::new(
            |site: u32, label: u32| -> i64
                requires { (site < 81) × (label < 4) }
                ensures { (pos 0 ≤ℤ result) × (result ≤ℤ pos 65535) }
            { i64::from(hash_of(picture, 2000 + 4 * site + label)) },
            SITES,
            4,
        ),
        SmoothCost::new(
            |first: u32, second: u32| -> i64
                requires { (first < 4) × (second < 4) }
                ensures { (pos 0 ≤ℤ result) × (result ≤ℤ pos 10000) }
            { smooth_at(picture, first, second) },
            4,
        ),
    );
    try_moves(rt, alloc, &problem, picture)
}

#[test]
fn parts_move_as_one(rt: HostRuntime) {
    let mut changes = 0usize;
    for picture in 0..PICTURES {
        let told = try_picture(&rt, rt.alloc(), picture);
        expect(&rt, picture as usize, told.is_some());
        changes = changes.wrapping_add(told.unwrap_or(0));
    }
    hold(&rt, 300 < changes);
}
