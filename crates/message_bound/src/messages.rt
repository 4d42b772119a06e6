//! The bound that messages prove, whatever they are.
ghost use Rattle.std.specs.Prelude.{◌≡◌, ℕ, pos, ◌+◌, ◌-◌, ◌*◌, ◌^◌, ◌<◌, ◌≤◌, length, slice_index};
ghost use Rattle.std.specs.Prelude.{IfOk, IfSome, IsTrue, List};
ghost use Rattle.label_field.specs.Limits.{label_limit, weight_limit};
ghost use Rattle.cost_store.specs.Posed.{IsPosed, WhereMeant};
ghost use Rattle.message_bound.specs.Rows.{ground, AreRowsInRange};
ghost use Rattle.message_bound.specs.Bounds.{IsLowerBound, ArePaid, AreTakenOff, AreUnder};
ghost use Rattle.message_bound.specs.Costs.{parts, IsSlopeOf, IsQuadraticOf, IsOfForm};
ghost use Rattle.message_bound.specs.PairTables.{ServesPairs};

use crate::bends::{are_level, take_squares};
use crate::costs::{Form, PARTS, Slope, are_gentle};
use crate::rows::{GROUND, least_above_ground, lower, raise};
use crate::tables::PairCosts;
use cost_store::Problem;
use std::alloc::{AllocError, Global};

/// What a label costs a site, in parts, above the ground.
fn first_entry<F: Fn(u32, u32) -> i64 + Sync, V: Fn(u32, u32) -> i64 + Sync>(
    problem: &Problem<F, V>,
    site: u32,
    label: u32,
) -> u64
    requires posed { IsPosed F.Fn V.Fn problem.now }
    requires inside { (site < problem.now.pairs.sites) × (label < problem.now.data_cost.labels) }
    ensures cost { WhereMeant F.Fn V.Fn problem.now
        (λ m. result ≡ ground + parts * m.data_cost site label) }
    ensures range { (ground ≤ result) × (result ≤ ground + 2560000000) }
{
    GROUND + PARTS * problem.site_cost(site, label).unsigned_abs()
}

/// What each label costs each site, in parts, above the ground.
fn first_rows<F: Fn(u32, u32) -> i64 + Sync, V: Fn(u32, u32) -> i64 + Sync>(
    alloc: Global,
    problem: &Problem<F, V>,
) -> Result<Vec<u64>, AllocError>
    requires posed { IsPosed F.Fn V.Fn problem.now }
    ensures size { IfOk result (λ rows.
        length rows.items ≡ problem.now.pairs.sites * problem.now.data_cost.labels) }
    ensures range { IfOk result (λ rows. AreRowsInRange 0 rows.items) }
    ensures under { IfOk result (λ rows.
        WhereMeant F.Fn V.Fn problem.now (λ m. AreUnder m 0 rows.items)) }
{
    let labels = problem.data_cost.labels as usize;
    let count = problem.pairs.sites() as usize * labels;
    let mut rows = Vec::with_capacity(alloc, count)?;
    for place in 0..count {
        let site = (place / labels) as u32;
        let label = (place % labels) as u32;
        rows.push_reserved(first_entry(problem, site, label));
    }
    Ok(rows)
}

/// What has to be taken off at a label of the first site, so that all that is added at the labels
/// of the second is paid. `costs` is what that label and each of the second site cost.
fn due_at(costs: &[u32], weight: u32, added: &[u32]) -> u32
    requires weight { weight ≤ weight_limit }
    requires size { length added.now ≡ length costs.now }
    ensures { (b : ℕ) → b < length costs.now
        → slice_index added.now b ≤ result + weight * slice_index costs.now b }
{
    let mut due = 0u64;
    for second in 0..costs.len() {
        let cost = u64::from(weight) * u64::from(costs[second]);
        let rest = u64::from(added[second]).saturating_sub(cost);
        if due < rest {
            due = rest;
        }
    }
    due as u32
}

/// What is left over at a label of the first site, whatever the label of the second, once all that
/// is added there is paid. `costs` is what that label and each of the second site cost.
fn spare_at(costs: &[u32], weight: u32, added: &[u32]) -> u32
    requires weight { weight ≤ weight_limit }
    requires size { length added.now ≡ length costs.now }
    ensures { (b : ℕ) → b < length costs.now
        → result ≤ weight * slice_index costs.now b - slice_index added.now b }
{
    let mut spare = u64::from(u32::MAX);
    for second in 0..costs.len() {
        let cost = u64::from(weight) * u64::from(costs[second]);
        spare = spare.min(cost.saturating_sub(u64::from(added[second])));
    }
    spare as u32
}

/// What has to be taken off at each label of the first site, and what is left over there and can be
/// given: each two labels are looked at.
fn take_due(costs: &[u32], weight: u32, added: &[u32], taken: &mut [u32], given: &mut [u32])
    requires size { length costs.now ≡ length added.now * length added.now }
    requires weight { weight ≤ weight_limit }
    requires taken { length taken.old ≡ length added.now }
    requires given { length given.old ≡ length added.now }
    ensures paid { ArePaid (length added.now)
        (λ a b. weight * slice_index costs.now (a * length added.now + b))
        added.now taken.new given.new }
    ensures small { (k : ℕ) → k < length added.now
        → (slice_index taken.new k < 2 ^ 32) × (slice_index given.new k < 2 ^ 32) }
{
    let labels = added.len();
    for first in 0..labels {
        let from = first * labels;
        let row = &costs[from..from + labels];
        taken[first] = due_at(row, weight, added);
        given[first] = spare_at(row, weight, added);
    }
}

/// Makes all numbers 0.
fn clear(numbers: &mut [u32])
    ensures { (k : ℕ) → k < length numbers.old → slice_index numbers.new k ≡ 0 }
{
    for label in 0..numbers.len() {
        numbers[label] = 0;
    }
}

/// Whether the numbers are no steeper than what a pair of this weight costs by this slope.
fn is_within_slope(added: &[u32], weight: u32, slope: Slope) -> bool
    requires { weight ≤ weight_limit }
    ensures { IsTrue result → (costs : List ℕ) → IsSlopeOf (length added.now) costs slope
        → AreTakenOff (length added.now)
        (λ a b. weight * slice_index costs (a * length added.now + b)) added.now added.now }
{
    let weight = weight as u64;
    are_gentle(
        added,
        weight * slope.step as u64,
        weight * slope.most as u64,
    )
}

/// Whether they are where costs are linear: no where they are not.
fn is_within(added: &[u32], weight: u32, form: Form) -> bool
    requires { weight ≤ weight_limit }
    ensures { IsTrue result → (costs : List ℕ) → IsOfForm (length added.now) costs form
        → AreTakenOff (length added.now)
        (λ a b. weight * slice_index costs (a * length added.now + b)) added.now added.now }
{
    match form {
        Form::Linear(slope) => is_within_slope(added, weight, slope),
        _ => false,
    }
}

/// Takes off what is due by squares of this slope, and tells whether it did: not where a number is
/// too far below those beside it.
fn take_by_slope(added: &[u32], weight: u32, slope: Slope, taken: &mut [u32]) -> bool
    requires weight { weight ≤ weight_limit }
    requires few { length added.now ≤ label_limit }
    requires taken { length taken.old ≡ length added.now }
    ensures paid { IsTrue result → (costs : List ℕ) → IsQuadraticOf (length added.now) costs slope
        → AreTakenOff (length added.now)
        (λ a b. weight * slice_index costs (a * length added.now + b)) added.now taken.new }
    ensures small { (k : ℕ) → k < length added.now → slice_index taken.new k < 2 ^ 32 }
{
    let weight = weight as u64;
    let step = weight * slope.step as u64;
    let level = are_level(added, step);
    if level {
        take_squares(added, step, weight * slope.most as u64, taken);
    }
    level
}

/// Does so where costs are quadratic.
fn take_by_squares(added: &[u32], weight: u32, form: Form, taken: &mut [u32]) -> bool
    requires weight { weight ≤ weight_limit }
    requires few { length added.now ≤ label_limit }
    requires taken { length taken.old ≡ length added.now }
    ensures paid { IsTrue result → (costs : List ℕ) → IsOfForm (length added.now) costs form
        → AreTakenOff (length added.now)
        (λ a b. weight * slice_index costs (a * length added.now + b)) added.now taken.new }
    ensures small { (k : ℕ) → k < length added.now → slice_index taken.new k < 2 ^ 32 }
{
    match form {
        Form::Square(slope) => take_by_slope(added, weight, slope, taken),
        _ => false,
    }
}

/// What is taken off at each label of the first site: what is added at that label of the second,
/// where that pays, else what is due. What is left over is given: nothing by linear or quadratic
/// costs, since two equal labels cost nothing there.
fn take(costs: &[u32], form: Form, weight: u32, added: &[u32], taken: &mut [u32], given: &mut [u32])
    requires size { length costs.now ≡ length added.now * length added.now }
    requires form { IsOfForm (length added.now) costs.now form }
    requires few { length added.now ≤ label_limit }
    requires weight { weight ≤ weight_limit }
    requires taken { length taken.old ≡ length added.now }
    requires given { length given.old ≡ length added.now }
    ensures paid { ArePaid (length added.now)
        (λ a b. weight * slice_index costs.now (a * length added.now + b))
        added.now taken.new given.new }
    ensures small { (k : ℕ) → k < length added.now
        → (slice_index taken.new k < 2 ^ 32) × (slice_index given.new k < 2 ^ 32) }
{
    if is_within(added, weight, form) {
        taken.copy_from_slice(added);
        clear(given);
    } else if take_by_squares(added, weight, form, taken) {
        clear(given);
    } else {
        take_due(costs, weight, added, taken, given);
    }
}

/// Passes the message of one pair: what it adds at the labels of its second site, and what is taken
/// off for it or given at those of its first. `taken` and `given` are room for one number a label.
fn pass_message<F: Fn(u32, u32) -> i64 + Sync, V: Fn(u32, u32) -> i64 + Sync>(
    problem: &Problem<F, V>,
    costs: &mut PairCosts,
    rows: &mut [u64],
    index: usize,
    added: &[u32],
    taken: &mut [u32],
    given: &mut [u32],
)
    requires posed { IsPosed F.Fn V.Fn problem.now }
    requires serves { ServesPairs F.Fn V.Fn problem.now costs.old }
    requires index { index < length problem.now.pairs.list }
    requires added { length added.now ≡ problem.now.data_cost.labels }
    requires few { length added.now ≤ label_limit }
    requires size { length rows.old ≡ problem.now.pairs.sites * length added.now }
    requires range { AreRowsInRange index rows.old }
    requires taken { length taken.old ≡ length added.now }
    requires given { length given.old ≡ length added.now }
    ensures serves { ServesPairs F.Fn V.Fn problem.now costs.new }
    ensures range { AreRowsInRange (index + 1) rows.new }
    ensures under { WhereMeant F.Fn V.Fn problem.now
        (λ m. AreUnder m index rows.old → AreUnder m (index + 1) rows.new) }
{
    problem.pairs.keeps();
    let labels = added.len();
    let pair = problem.pairs.get(index);
    let weight = costs.load(problem, pair.weight);
    take(costs.as_slice(), costs.form(), weight, added, taken, given);
    lower(rows, pair.first as usize * labels, taken);
    raise(rows, pair.first as usize * labels, given);
    raise(rows, pair.second as usize * labels, added);
}

/// Passes the messages of all pairs.
fn pass_all<F: Fn(u32, u32) -> i64 + Sync, V: Fn(u32, u32) -> i64 + Sync>(
    problem: &Problem<F, V>,
    costs: &mut PairCosts,
    rows: &mut [u64],
    messages: &[u32],
    taken: &mut [u32],
    given: &mut [u32],
)
    requires posed { IsPosed F.Fn V.Fn problem.now }
    requires serves { ServesPairs F.Fn V.Fn problem.now costs.old }
    requires few { problem.now.data_cost.labels ≤ label_limit }
    requires size { length rows.old ≡ problem.now.pairs.sites * problem.now.data_cost.labels }
    requires range { AreRowsInRange 0 rows.old }
    requires messages { length messages.now
        ≡ length problem.now.pairs.list * problem.now.data_cost.labels }
    requires taken { length taken.old ≡ problem.now.data_cost.labels }
    requires given { length given.old ≡ problem.now.data_cost.labels }
    ensures { WhereMeant F.Fn V.Fn problem.now (λ m. AreUnder m 0 rows.old
        → AreUnder m (length problem.now.pairs.list) rows.new) }
{
    let labels = problem.data_cost.labels as usize;
    for index in 0..problem.pairs.len() {
        let from = index * labels;
        let added = &messages[from..from + labels];
        pass_message(problem, costs, rows, index, added, taken, given);
    }
}

/// The least whole number of units that so many parts fit in.
fn units_of(count: u64) -> u64
    ensures least { (units : ℕ) → count ≤ parts * units → result ≤ units }
    ensures small { result < 2 ^ 63 }
{
    let whole = count / PARTS;
    if whole * PARTS < count {
        whole + 1
    } else {
        whole
    }
}

/// The bound that messages prove: no labelling's energy is below it. The messages are any numbers,
/// one for each label of each pair, those of one pair together: what the pair adds at that label of
/// its second site, in parts of a unit, 256 of them. What is not paid by the pair's own cost is
/// taken off at the labels of its first site. Refuses only where memory runs out.
pub fn bound_by_messages<F: Fn(u32, u32) -> i64 + Sync, V: Fn(u32, u32) -> i64 + Sync>(
    alloc: Global,
    problem: &Problem<F, V>,
    messages: &[u32],
) -> Result<i64, AllocError>
    requires posed { IsPosed F.Fn V.Fn problem.now }
    requires few { problem.now.data_cost.labels ≤ label_limit }
    requires messages { length messages.now
        ≡ length problem.now.pairs.list * problem.now.data_cost.labels }
    ensures { WhereMeant F.Fn V.Fn problem.now (λ m. IfOk result (IsLowerBound m)) }
{
    let labels = problem.data_cost.labels as usize;
    let sites = problem.pairs.sites() as usize;
    let mut costs = PairCosts::new(alloc, problem)?;
    let mut rows = first_rows(alloc, problem)?;
    let mut taken = vec![in alloc; 0u32; labels]?;
    let mut given = vec![in alloc; 0u32; labels]?;
    let entries = rows.as_mut_slice();
    pass_all(
        problem,
        &mut costs,
        entries,
        messages,
        taken.as_mut_slice(),
        given.as_mut_slice(),
    );
    Ok(units_of(least_above_ground(entries, sites, labels)) as i64)
}
