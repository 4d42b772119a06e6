//! How many sites of the moves of a first cycle are left for a cut, on a picture that a formula
//! gives.
ghost use Rattle.std.specs.Prelude.{◌<◌, ◌≤ℤ◌, pos};
ghost use Rattle.label_energies.specs.Moves.{IsMoveOf};
ghost use Rattle.cost_store.specs.Posed.{IsPosed, FitsProblem};

use crate::rows::{expect, hold, take_ok};
use cost_store::{DataCost, Problem, SmoothCost};
use label_energies::Move;
use label_field::{Labelling, Pairs};
use move_energy::Choice;
use moves::{Alone, expand};
use site_bounds::Deciding;
use std::alloc::{AllocError, Global};
use std::process::Abort;

/// How many sites each expansion of the first cycle leaves open, and how many it changes. Made by
/// tools/tables/open_sites.py, which knows the definitions alone.
const FIRST_CYCLE: &[(usize, usize)] = &[(0, 0), (863, 3225), (855, 2191), (145, 1039)];

/// A board of fields of 16 by 16 pixels, some of which have another sample.
pub fn sample(site: u32) -> u32
    requires { site < 4096 }
    ensures { result < 4 }
{
    let (x, y) = (site % 64, site / 64);
    let noise = (x * x * 7 + y * 13 + x * y * 5) % 11;
    (x / 16 + y / 16 + if noise < 4 { noise } else { 0 }) % 4
}

/// How many choices are open.
fn count_open(choices: &[Choice]) -> usize {
    let mut count = 0usize;
    for choice in choices {
        if choice.is_open() {
            count = count.wrapping_add(1);
        }
    }
    count
}

/// At how many places two lists differ.
fn count_changed(old: &[u8], new: &[u8]) -> usize {
    let mut count = 0usize;
    for (before, after) in old.iter().zip(new) {
        if *before != *after {
            count = count.wrapping_add(1);
        }
    }
    count
}

/// How many sites a move leaves open; none where it is refused.
pub fn open_in<F: Fn(u32, u32) -> i64 + Sync, V: Fn(u32, u32) -> i64 + Sync>(
    alloc: Global,
    problem: &Problem<F, V>,
    labelling: &Labelling,
    change: Move,
) -> Result<Option<usize>, AllocError>
    requires posed { IsPosed F.Fn V.Fn problem.now }
    requires fits { FitsProblem problem.now labelling.now }
    requires change { IsMoveOf problem.now.data_cost.labels change }
{
    labelling.keeps();
    let mut deciding = Deciding::new(alloc, &problem.pairs)?;
    let decided = deciding.decide(problem, labelling.as_slice(), change);
    if decided.is_err() {
        return Ok(None);
    }
    Ok(Some(count_open(deciding.bounds.choices.as_slice())))
}

/// Expands a label, and answers how many sites are left open, and how many change; none where it
/// was refused.
fn expand_label<F: Fn(u32, u32) -> i64 + Sync, V: Fn(u32, u32) -> i64 + Sync>(
    alloc: Global,
    problem: &Problem<F, V>,
    labelling: &mut Labelling,
    alpha: u32,
) -> Result<Option<(usize, usize)>, AllocError>
    requires posed { IsPosed F.Fn V.Fn problem.now }
    requires fits { FitsProblem problem.now labelling.old }
    requires label { alpha < problem.now.data_cost.labels }
{
    let opened = open_in(alloc, problem, labelling, Move::Expand(alpha))?;
    let before = Vec::from_slice(alloc, labelling.as_slice())?;
    let moved = expand(alloc, problem, labelling, alpha, &Alone);
    if moved.is_err() {
        return Ok(None);
    }
    let changed = count_changed(before.as_slice(), labelling.as_slice());
    Ok(opened.map(|open| (open, changed)))
}

/// The same for a label of the picture.
fn expand_picture(
    rt: &impl Abort,
    alloc: Global,
    labelling: &mut Labelling,
    alpha: u32,
) -> Option<(usize, usize)> {
    let pairs = take_ok(rt, Pairs::grid4(alloc, 64, 64, 1));
    hold(rt, alpha < 4);
    hold(rt, pairs.sites() == 4096);
    hold(rt, labelling.sites() == 4096);
    hold(rt, labelling.labels() == 4);
    let problem = Problem::new(
        pairs,
        DataCost::new(
            |site: u32, label: u32| -> i64
                requires { (site < 4096) × (label < 4) }
                ensures { (pos 0 ≤ℤ result) × (result ≤ℤ pos 15) }
            { i64::from(5 * sample(site).abs_diff(label)) },
            4096,
            4,
        ),
        SmoothCost::new(
            |first: u32, second: u32| -> i64
                ensures { (pos 0 ≤ℤ result) × (result ≤ℤ pos 2) }
            { if first == second { 0 } else { 2 } },
            4,
        ),
    );
    take_ok(rt, expand_label(alloc, &problem, labelling, alpha))
}

#[test]
fn few_sites_are_left_open(rt: HostRuntime) {
    let mut labelling = take_ok(&rt, Labelling::new(rt.alloc(), 4096, 4));
    for (alpha, wanted) in FIRST_CYCLE.iter().enumerate() {
        let told = expand_picture(&rt, rt.alloc(), &mut labelling, alpha as u32);
        expect(&rt, alpha, told == Some(*wanted));
    }
}
