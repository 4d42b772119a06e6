//! What two labels cost a pair of weight 1, in a table, and of what form these costs are.
ghost use Rattle.std.specs.Prelude.{◌≡◌, ℕ, ◌+◌, ◌*◌, ◌/◌, ◌%◌, ◌^◌, ◌<◌, ◌≤◌, length, slice_index};
ghost use Rattle.std.specs.Prelude.{IfOk, IfSome, IsTrue, min, false};
ghost use Rattle.cost_store.specs.Posed.{IsPosed, WhereMeant};
ghost use Rattle.label_field.specs.Grids.{distance};
ghost use Rattle.label_field.specs.Limits.{label_limit};
ghost use Rattle.message_bound.specs.Costs.{parts, AreSmoothCosts, IsSlopeOf, IsQuadraticOf};
ghost use Rattle.message_bound.specs.Costs.{IsOfForm, square_apart, IsGentle};

use cost_store::Problem;
use std::alloc::{AllocError, Global};

/// Costs are counted in so many parts of a unit.
pub const PARTS: u64 = 256;

/// Truncated linear costs: two labels cost `step` for each label that they are apart, and never
/// more than `most`. Where `step` is `most` these are Potts costs.
#[derive(Clone, Copy)]
pub struct Slope {
    pub step: u32,
    pub most: u32,
}

/// Of what form costs are. Where it is known, a message takes as many steps as there are labels.
#[derive(Clone, Copy)]
pub enum Form {
    Linear(Slope),
    /// As linear ones, by the square of how far the labels are apart.
    Square(Slope),
    Table,
}

/// What two labels cost, in parts.
fn smooth_parts<F: Fn(u32, u32) -> i64 + Sync, V: Fn(u32, u32) -> i64 + Sync>(
    problem: &Problem<F, V>,
    first: u32,
    second: u32,
) -> u32
    requires posed { IsPosed F.Fn V.Fn problem.now }
    requires weighted { problem.now.pairs.numbered ≡ false }
    requires inside { (first < problem.now.data_cost.labels)
        × (second < problem.now.data_cost.labels) }
    ensures { WhereMeant F.Fn V.Fn problem.now
        (λ m. (weight : ℕ) → weight * result ≡ parts * m.smooth_cost weight first second) }
{
    (PARTS * problem.pair_cost(1, first, second).unsigned_abs()) as u32
}

/// The table of what two labels cost, in parts, row after row.
pub(crate) fn smooth_costs<F: Fn(u32, u32) -> i64 + Sync, V: Fn(u32, u32) -> i64 + Sync>(
    alloc: Global,
    problem: &Problem<F, V>,
) -> Result<Vec<u32>, AllocError>
    requires posed { IsPosed F.Fn V.Fn problem.now }
    requires weighted { problem.now.pairs.numbered ≡ false }
    ensures size { IfOk result (λ costs. length costs.items
        ≡ problem.now.data_cost.labels * problem.now.data_cost.labels) }
    ensures costs { IfOk result (λ costs. WhereMeant F.Fn V.Fn problem.now
        (λ m. AreSmoothCosts m problem.now.data_cost.labels costs.items)) }
{
    let labels = problem.data_cost.labels as usize;
    let count = labels * labels;
    let mut costs = Vec::with_capacity(alloc, count)?;
    for place in 0..count {
        let first = (place / labels) as u32;
        let second = (place % labels) as u32;
        costs.push_reserved(smooth_parts(problem, first, second));
    }
    Ok(costs)
}

/// What two labels cost that are so far apart, by a slope.
fn cost_apart(slope: Slope, apart: usize) -> u64
    requires { apart < 2 ^ 32 }
    ensures { result ≡ min (slope.step * apart) slope.most }
{
    (u64::from(slope.step) * apart as u64).min(u64::from(slope.most))
}

/// Whether the entries of a row are those of a slope.
fn row_is_of(row: &[u32], first: usize, slope: Slope) -> bool
    requires { (first < 2 ^ 32) × (length row.now < 2 ^ 32) }
    ensures { IsTrue result → (b : ℕ) → b < length row.now
        → slice_index row.now b ≡ min (slope.step * distance first b) slope.most }
{
    for second in 0..row.len() {
        if u64::from(row[second]) != cost_apart(slope, first.abs_diff(second)) {
            return false;
        }
    }
    true
}

/// The slope of truncated linear costs, and nothing where the costs of so many labels are others.
fn slope_of(costs: &[u32], labels: usize) -> Option<Slope>
    requires size { length costs.now ≡ labels * labels }
    requires few { labels < 2 ^ 32 }
    ensures { IfSome result (IsSlopeOf labels costs.now) }
{
    if labels < 2 {
        return None;
    }
    let slope = Slope {
        step: costs[1],
        most: costs[labels - 1],
    };
    for first in 0..labels {
        let from = first * labels;
        if !row_is_of(&costs[from..from + labels], first, slope) {
            return None;
        }
    }
    Some(slope)
}

/// Whether the entries of a row are those of a slope by the squares of distances.
fn row_is_square(row: &[u32], first: usize, slope: Slope) -> bool
    requires { (first ≤ label_limit) × (length row.now ≤ label_limit) }
    ensures { IsTrue result → (b : ℕ) → b < length row.now
        → slice_index row.now b ≡ min (slope.step * square_apart first b) slope.most }
{
    for second in 0..row.len() {
        let apart = first.abs_diff(second);
        if u64::from(row[second]) != cost_apart(slope, apart * apart) {
            return false;
        }
    }
    true
}

/// The slope of truncated quadratic costs, by the squares of distances, and nothing where the costs
/// of so many labels are others.
fn square_of(costs: &[u32], labels: usize) -> Option<Slope>
    requires size { length costs.now ≡ labels * labels }
    requires few { labels ≤ label_limit }
    ensures { IfSome result (IsQuadraticOf labels costs.now) }
{
    if labels < 2 {
        return None;
    }
    let slope = Slope {
        step: costs[1],
        most: costs[labels - 1],
    };
    for first in 0..labels {
        let from = first * labels;
        if !row_is_square(&costs[from..from + labels], first, slope) {
            return None;
        }
    }
    Some(slope)
}

/// The form of the costs of so many labels.
pub(crate) fn form_of(costs: &[u32], labels: usize) -> Form
    requires size { length costs.now ≡ labels * labels }
    requires few { labels ≤ label_limit }
    ensures { IsOfForm labels costs.now result }
{
    if let Some(slope) = slope_of(costs, labels) {
        return Form::Linear(slope);
    }
    match square_of(costs, labels) {
        Some(slope) => Form::Square(slope),
        None => Form::Table,
    }
}

/// Whether no two of the numbers are further apart than their places allow: `step` for each place,
/// and never more than `most`.
pub(crate) fn are_gentle(numbers: &[u32], step: u64, most: u64) -> bool
    requires { (step < 2 ^ 62) × (most < 2 ^ 62) }
    ensures { IsTrue result → IsGentle numbers.now step most }
{
    let mut least = u64::MAX;
    let mut greatest = 0u64;
    let mut last = 0u64;
    for index in 0..numbers.len() {
        let number = u64::from(numbers[index]);
        if 0 < index && (number > last + step || last > number + step) {
            return false;
        }
        last = number;
        least = least.min(number);
        greatest = greatest.max(number);
    }
    greatest <= least.saturating_add(most)
}
