//! Small random moves and runs, with sites decided first, without, and strip by strip, against
//! answers worked out over all labellings.
ghost use Rattle.std.specs.Prelude.{false, ◌≡◌, ◌≤◌, ◌<◌, ◌+◌, ◌*◌, ◌≤ℤ◌, pos, length};
ghost use Rattle.cost_store.specs.Posed.{IsPosed, FitsProblem, AreOfOneSize};
ghost use Rattle.cut_ways.specs.declared.solve_error.SolveError.TheVariants.{OutOfMemory};

use crate::cases::MOVES;
use crate::chains::RUNS;
use crate::rows::{expect, hold, take_ok};
use cost_store::{DataCost, Problem, SmoothCost};
use cut_ways::InOrder;
use flow_network::{Net, Solved};
use label_field::{Labelling, Pairs};
use moves::{Alone, How, MoveError, Sharing, SolveError, expand, run_expansion, run_swap, swap};
use std::alloc::Global;
use std::process::Abort;

/// How many bytes a row has: how many sites, labels and pairs; 0 for an expansion, 1 for a swap, 2
/// for a run of expansions, 3 for a run of swaps; the cycles that are allowed; the answer: 0 kept
/// or stopped, 1 changed or settled, 2 not regular, 3 no such label, 4 a swap where a label costs
/// something by itself; how many cycles were done, or the place of the pair; alpha, beta. Then four
/// data costs of each of six sites, four smooth costs of each of four labels, the labels of six
/// sites before and after, seven pairs with their weights, and the data energy and the smooth
/// energy after, each of eight digits.
pub const BYTES: usize = 98;

/// The greatest data cost, smooth cost and weight.
pub const DATA: u32 = 10_000_000;

pub const SMOOTH: u32 = 10_000;

const WEIGHT: u32 = 1_000;

/// As `Alone`, but no site is decided before the cut.
#[derive(Clone, Copy)]
pub struct CutAlone;

impl How for CutAlone {
    ghost ready = { λ _. Unit {0} };

    ghost refuses = { λ _ e. e ≡ OutOfMemory };

    fn solve(&self, alloc: Global, net: &Net) -> Result<Solved, SolveError> {
        Alone.solve(alloc, net)
    }
}

impl Sharing for CutAlone {
    type Fork = InOrder;

    fn decides_first(&self) -> bool {
        false
    }

    fn fork(&self) -> InOrder {
        InOrder
    }
}

/// As `Alone`, but a move is closed in by so many parts, a strip has so many open sites, and what
/// is left goes to its solver.
#[derive(Clone, Copy)]
pub struct InStrips {
    pub parts: usize,
    pub sites: usize,
}

impl How for InStrips {
    ghost ready = { λ _. Unit {0} };

    ghost refuses = { λ _ e. e ≡ OutOfMemory };

    fn solve(&self, alloc: Global, net: &Net) -> Result<Solved, SolveError> {
        Alone.solve(alloc, net)
    }
}

impl Sharing for InStrips {
    type Fork = InOrder;

    fn strip_sites(&self) -> usize {
        self.sites
    }

    fn parts(&self, _sites: usize) -> usize {
        self.parts.max(1)
    }

    fn fork(&self) -> InOrder {
        InOrder
    }
}

/// How many open sites a strip has where a row is made strip by strip: once for each number, and
/// for each by so many parts.
pub const STRIPS: &[usize] = &[1, 2, 3];

pub const PARTS: &[usize] = &[1, 2, 3];

/// Two parts, in strips of two open sites.
pub const IN_STRIPS: InStrips = InStrips { parts: 2, sites: 2 };

/// A number of a row, at most so great.
pub fn number(row: &[u8; BYTES], place: usize, most: u32) -> u32
    requires { place < 98 }
    ensures { result ≤ most }
{
    number_of(row[place], most)
}

/// The number that a byte stands for, at most so great: a digit is itself, a small letter the limit
/// less its place in the alphabet from 0, a capital so many parts of 27 of the limit, from 1.
pub fn number_of(byte: u8, most: u32) -> u32
    ensures { result ≤ most }
{
    let byte = u32::from(byte);
    let number = if byte >= 97 {
        most.saturating_sub(byte - 97)
    } else if byte >= 65 {
        most.saturating_mul(byte - 64) / 27
    } else {
        byte.saturating_sub(48)
    };
    number.min(most)
}

/// A digit of a row.
pub fn digit(row: &[u8; BYTES], place: usize) -> u32
    requires { place < 98 }
    ensures { result ≤ 9 }
{
    number(row, place, 9)
}

/// An energy, of eight digits.
fn energy_at(row: &[u8; BYTES], from: usize) -> i64
    requires { from + 8 ≤ 98 }
{
    let mut energy: u32 = 0;
    for place in from..from + 8 {
        energy = energy.saturating_mul(10).saturating_add(digit(row, place));
    }
    i64::from(energy)
}

/// The pairs of a row.
pub fn pairs_of(rt: &impl Abort, alloc: Global, row: &[u8; BYTES], sites: u32) -> Pairs
    requires { sites ≤ 6 }
    ensures sites { result.sites ≡ sites }
    ensures weighted { result.numbered ≡ false }
{
    let mut pairs = Pairs::new(alloc, sites);
    for place in 0..digit(row, 2).min(7) as usize {
        let at = 61 + 3 * place;
        let weight = i64::from(number(row, at + 2, WEIGHT));
        hold(rt, !pairs.are_numbered());
        take_ok(rt, pairs.add(digit(row, at), digit(row, at + 1), weight));
    }
    hold(rt, pairs.sites() == sites && !pairs.are_numbered());
    pairs
}

/// The labels before the move of a row.
pub fn start_of(
    rt: &impl Abort,
    alloc: Global,
    row: &[u8; BYTES],
    sites: u32,
    labels: u32,
) -> Labelling
    requires { (sites ≤ 6) × (1 ≤ labels) × (labels ≤ 4) }
    ensures { (length result.at ≡ sites) × (result.labels ≡ labels) }
{
    let mut labelling = take_ok(rt, Labelling::new(alloc, sites, labels));
    for site in 0..sites {
        let label = digit(row, 49 + site as usize);
        take_ok(rt, labelling.set_label(site, label));
    }
    hold(rt, labelling.sites() == sites);
    hold(rt, labelling.labels() == labels);
    labelling
}

/// Whether these are the labels from this place of a row on.
fn are_labels(labels: &[u8], row: &[u8; BYTES], at: usize) -> bool
    requires { at + 6 < 98 }
{
    let mut place = at;
    for label in labels {
        if place >= at + 6 || u32::from(*label) != digit(row, place) {
            return false;
        }
        place += 1;
    }
    true
}

/// What a move or a run is to say: whether it changed or is settled, and how many cycles were done,
/// of a move none.
pub fn answer_wanted(row: &[u8; BYTES]) -> Result<(bool, u32), MoveError> {
    let number = digit(row, 6);
    match digit(row, 5) {
        0 => Ok((false, number)),
        1 => Ok((true, number)),
        2 => Err(MoveError::PairNotRegular {
            pair: number as usize,
            alpha: digit(row, 7),
            beta: (digit(row, 3) % 2 == 1).then_some(digit(row, 8)),
        }),
        3 => Err(MoveError::NoSuchLabel),
        _ => Err(MoveError::LabelCostInSwap),
    }
}

/// Makes the move or the run of a row, and answers as `wanted` does.
fn answer_of<F: Fn(u32, u32) -> i64 + Sync, V: Fn(u32, u32) -> i64 + Sync, H: Sharing>(
    problem: &Problem<F, V>,
    alloc: Global,
    labelling: &mut Labelling,
    row: &[u8; BYTES],
    how: &H,
) -> Result<(bool, u32), MoveError>
    requires ready { H.ready how.now }
    requires posed { IsPosed F.Fn V.Fn problem.now }
    requires fits { FitsProblem problem.now labelling.old }
    ensures sizes { AreOfOneSize labelling.old labelling.new }
{
    let (cycles, alpha, beta) = (digit(row, 4), digit(row, 7), digit(row, 8));
    match digit(row, 3) {
        0 => Ok((expand(alloc, problem, labelling, alpha, how)?, 0)),
        1 => Ok((swap(alloc, problem, labelling, alpha, beta, how)?, 0)),
        2 => {
            let ended = run_expansion(alloc, problem, labelling, cycles, how)?;
            Ok((ended.settled, ended.cycles))
        }
        _ => {
            let ended = run_swap(alloc, problem, labelling, cycles, how)?;
            Ok((ended.settled, ended.cycles))
        }
    }
}

/// Whether these are the labels of a row after its move, and their energies are those of the row.
pub fn is_after<F: Fn(u32, u32) -> i64 + Sync, V: Fn(u32, u32) -> i64 + Sync>(
    problem: &Problem<F, V>,
    labelling: &Labelling,
    row: &[u8; BYTES],
    label_energy: i64,
) -> bool
    requires posed { IsPosed F.Fn V.Fn problem.now }
    requires fits { FitsProblem problem.now labelling.now }
{
    let data_energy = energy_at(row, 82);
    let smooth_energy = energy_at(row, 90);
    are_labels(labelling.as_slice(), row, 55)
        && problem.data_energy(labelling) == data_energy
        && problem.smooth_energy(labelling) == smooth_energy
        && problem.label_energy(labelling) == label_energy
        && problem.energy(labelling)
            == data_energy
                .saturating_add(smooth_energy)
                .saturating_add(label_energy)
}

/// Makes the move or the run of a row; whether what it says, the labels and the energies are those
/// of the row. Where a growth is refused, the labels are those before or, in a run, stand in its
/// chain, and the move is made once more.
pub fn is_answered<F: Fn(u32, u32) -> i64 + Sync, V: Fn(u32, u32) -> i64 + Sync, H: Sharing>(
    problem: &Problem<F, V>,
    alloc: Global,
    labelling: &mut Labelling,
    row: &[u8; BYTES],
    label_energy: i64,
    chain: &[&[u8]],
    how: &H,
) -> bool
    requires ready { H.ready how.now }
    requires posed { IsPosed F.Fn V.Fn problem.now }
    requires fits { FitsProblem problem.now labelling.old }
    ensures sizes { AreOfOneSize labelling.old labelling.new }
{
    let first = answer_of(problem, alloc, labelling, row, how);
    if first != Err(MoveError::OutOfMemory) {
        return first == answer_wanted(row) && is_after(problem, labelling, row, label_energy);
    }
    let stands = are_labels(labelling.as_slice(), row, 49)
        || chain.iter().any(|it| labelling.as_slice() == *it);
    let again = answer_of(problem, alloc, labelling, row, how);
    let is_told = again == answer_wanted(row) || matches!(again, Ok((true, _)));
    stands && is_told && is_after(problem, labelling, row, label_energy)
}

/// Whether a row is right, where no label costs anything by itself.
pub fn is_right<H: Sharing>(
    rt: &impl Abort,
    alloc: Global,
    row: &[u8; BYTES],
    chain: &[&[u8]],
    how: &H,
) -> bool
    requires { H.ready how.now }
{
    let (sites, labels) = (digit(row, 0), digit(row, 1));
    hold(rt, sites <= 6);
    hold(rt, 1 <= labels && labels <= 4);
    let pairs = pairs_of(rt, alloc, row, sites);
    let mut labelling = start_of(rt, alloc, row, sites, labels);
    let problem = Problem::new(
        pairs,
        DataCost::new(
            |site: u32, label: u32| -> i64
                requires { (site < 6) × (label < 4) }
                ensures { (pos 0 ≤ℤ result) × (result ≤ℤ pos 10000000) }
            { i64::from(number(row, 9 + (site * 4 + label) as usize, DATA)) },
            sites,
            labels,
        ),
        SmoothCost::new(
            |first: u32, second: u32| -> i64
                requires { (first < 4) × (second < 4) }
                ensures { (pos 0 ≤ℤ result) × (result ≤ℤ pos 10000) }
            { i64::from(number(row, 33 + (first * 4 + second) as usize, SMOOTH)) },
            labels,
        ),
    );
    is_answered(&problem, alloc, &mut labelling, row, 0, chain, how)
}

/// Whether a row is right that is made strip by strip, for each size of the strips, by so many
/// parts.
fn is_right_by(rt: &impl Abort, alloc: Global, row: &[u8; BYTES], parts: usize) -> bool {
    for sites in STRIPS {
        let how = InStrips {
            parts,
            sites: *sites,
        };
        if !is_right(rt, alloc, row, &[], &how) {
            return false;
        }
    }
    true
}

/// Whether it is so for each number of parts.
fn is_right_in_strips(rt: &impl Abort, alloc: Global, row: &[u8; BYTES]) -> bool {
    for parts in PARTS {
        if !is_right_by(rt, alloc, row, *parts) {
            return false;
        }
    }
    true
}

/// Whether a row is right with sites decided first, without, and strip by strip.
fn is_right_each_way(rt: &impl Abort, alloc: Global, row: &[u8; BYTES]) -> bool {
    is_right(rt, alloc, row, &[], &Alone)
        && is_right(rt, alloc, row, &[], &CutAlone)
        && is_right_in_strips(rt, alloc, row)
}

/// Each row of a table, of which there are so many.
fn expect_rows(rt: &impl Abort, alloc: Global, table: &[u8], count: usize) {
    hold(rt, count <= 500);
    hold(rt, table.len() == BYTES * count);
    for place in 0..count {
        let mut row = [0; BYTES];
        row.copy_from_slice(&table[BYTES * place..BYTES * place + BYTES]);
        expect(rt, place, is_right_each_way(rt, alloc, &row));
    }
}

#[test]
fn random_moves_are_best(rt: HostRuntime) {
    expect_rows(&rt, rt.alloc(), MOVES, 500);
}

#[test]
fn random_runs_are_chains(rt: HostRuntime) {
    expect_rows(&rt, rt.alloc(), RUNS, 300);
}
