//! Listed moves of which few sites are left for a cut, or none, or all.
ghost use Rattle.std.specs.Prelude.{false, ◌≡◌, ◌≤◌, ◌<◌, ◌≤ℤ◌, pos, length};
ghost use Rattle.label_energies.specs.Moves.{IsMoveOf};
ghost use Rattle.cost_store.specs.Posed.{IsPosed, FitsProblem};

use crate::listed::LISTED;
use crate::opened::open_in;
use crate::random::CutAlone;
use crate::rows::{expect, hold, take_ok};
use cost_store::{DataCost, Problem, SmoothCost};
use label_energies::Move;
use label_field::{Labelling, Pairs};
use moves::{Alone, Sharing, expand, swap};
use std::alloc::Global;
use std::process::Abort;

/// How many bytes a row has: how many sites, labels and pairs; 0 for an expansion, 1 for a swap;
/// alpha, beta; how many sites are left open; 1 where a label changes. Then three data costs of
/// each of 24 sites, three smooth costs of each of three labels, the labels of 24 sites before and
/// after, and 40 pairs with their weights. A byte is 48 more than its number.
const BYTES: usize = 257;

/// A number of a row.
fn number(row: &[u8; BYTES], place: usize) -> u32
    requires { place < 257 }
    ensures { result ≤ 255 }
{
    u32::from(row[place]).saturating_sub(48)
}

/// The pairs of a row.
fn pairs_of(rt: &impl Abort, alloc: Global, row: &[u8; BYTES], sites: u32) -> Pairs
    requires { sites ≤ 24 }
    ensures sites { result.sites ≡ sites }
    ensures weighted { result.numbered ≡ false }
{
    let mut pairs = Pairs::new(alloc, sites);
    for place in 0..number(row, 2).min(40) as usize {
        let at = 137 + 3 * place;
        let weight = i64::from(number(row, at + 2));
        hold(rt, !pairs.are_numbered());
        take_ok(rt, pairs.add(number(row, at), number(row, at + 1), weight));
    }
    hold(rt, pairs.sites() == sites && !pairs.are_numbered());
    pairs
}

/// The labels that stand from this place of a row on.
fn labels_at(
    rt: &impl Abort,
    alloc: Global,
    row: &[u8; BYTES],
    at: usize,
    sites: u32,
    labels: u32,
) -> Labelling
    requires { (sites ≤ 24) × (1 ≤ labels) × (labels ≤ 3) × (at < 200) }
    ensures { (length result.at ≡ sites) × (result.labels ≡ labels) }
{
    let mut labelling = take_ok(rt, Labelling::new(alloc, sites, labels));
    for site in 0..sites {
        take_ok(
            rt,
            labelling.set_label(site, number(row, at + site as usize)),
        );
    }
    hold(rt, labelling.sites() == sites);
    hold(rt, labelling.labels() == labels);
    labelling
}

/// The move of a row, whose labels are below this number.
fn change_of(row: &[u8; BYTES], labels: u32) -> Move
    requires { 1 ≤ labels }
    ensures { IsMoveOf labels result }
{
    let alpha = number(row, 4).min(labels - 1);
    let beta = number(row, 5).min(labels - 1);
    if number(row, 3) == 0 {
        Move::Expand(alpha)
    } else {
        Move::Swap(alpha, beta)
    }
}

/// Whether a move ends with the wanted labels, and says that a label changes just where one does in
/// the row.
fn ends_right<F: Fn(u32, u32) -> i64 + Sync, V: Fn(u32, u32) -> i64 + Sync, H: Sharing>(
    problem: &Problem<F, V>,
    alloc: Global,
    labelling: &mut Labelling,
    wanted: &Labelling,
    change: Move,
    row: &[u8; BYTES],
    how: &H,
) -> bool
    requires ready { H.ready how.now }
    requires posed { IsPosed F.Fn V.Fn problem.now }
    requires fits { FitsProblem problem.now labelling.old }
{
    let told = match change {
        Move::Expand(alpha) => expand(alloc, problem, labelling, alpha, how),
        Move::Swap(alpha, beta) => swap(alloc, problem, labelling, alpha, beta, how),
    };
    told == Ok(number(row, 7) == 1) && labelling.as_slice() == wanted.as_slice()
}

/// Whether a move leaves so many sites open as the row says, and ends as it says: with sites
/// decided first, and without. The labellings are that before the move, twice, and that after it.
fn is_told<F: Fn(u32, u32) -> i64 + Sync, V: Fn(u32, u32) -> i64 + Sync>(
    rt: &impl Abort,
    problem: &Problem<F, V>,
    alloc: Global,
    labelling: &mut Labelling,
    again: &mut Labelling,
    wanted: &Labelling,
    row: &[u8; BYTES],
) -> bool
    requires posed { IsPosed F.Fn V.Fn problem.now }
    requires fits { FitsProblem problem.now labelling.old }
    requires again { FitsProblem problem.now again.old }
    requires labels { 1 ≤ problem.now.data_cost.labels }
{
    let change = change_of(row, problem.data_cost.labels);
    let opened = take_ok(rt, open_in(alloc, problem, labelling, change));
    opened == Some(number(row, 6) as usize)
        && ends_right(problem, alloc, labelling, wanted, change, row, &Alone)
        && ends_right(problem, alloc, again, wanted, change, row, &CutAlone)
}

/// Whether a row is right.
fn is_right(rt: &impl Abort, alloc: Global, row: &[u8; BYTES]) -> bool {
    let (sites, labels) = (number(row, 0), number(row, 1));
    hold(rt, sites <= 24);
    hold(rt, 1 <= labels && labels <= 3);
    let pairs = pairs_of(rt, alloc, row, sites);
    let mut labelling = labels_at(rt, alloc, row, 89, sites, labels);
    let mut again = labels_at(rt, alloc, row, 89, sites, labels);
    let wanted = labels_at(rt, alloc, row, 113, sites, labels);
    let problem = Problem::new(
        pairs,
        DataCost::new(
            |site: u32, label: u32| -> i64
                requires { (site < 24) × (label < 3) }
                ensures { (pos 0 ≤ℤ result) × (result ≤ℤ pos 255) }
            { i64::from(number(row, 8 + (site * 3 + label) as usize)) },
            sites,
            labels,
        ),
        SmoothCost::new(
            |first: u32, second: u32| -> i64
                requires { (first < 3) × (second < 3) }
                ensures { (pos 0 ≤ℤ result) × (result ≤ℤ pos 255) }
            { i64::from(number(row, 80 + (first * 3 + second) as usize)) },
            labels,
        ),
    );
    is_told(
        rt,
        &problem,
        alloc,
        &mut labelling,
        &mut again,
        &wanted,
        row,
    )
}

#[test]
fn listed_moves_are_best(rt: HostRuntime) {
    for (place, row) in LISTED.iter().enumerate() {
        expect(&rt, place, is_right(&rt, rt.alloc(), row));
    }
}
