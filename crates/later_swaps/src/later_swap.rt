//! A swap of two labels that was made before, which looks only near what changed since.
ghost use Rattle.std.specs.Prelude.{◌≡◌, ◌≢◌, ◌+◌, ◌<◌, ◌≤◌, ℕ, length, OnErr, IfOk, IfErr};
ghost use Rattle.std.specs.Prelude.{IfSome, All, IsTrue, None};
ghost use Rattle.later_swaps.specs.Prelude.{Swap, labelling as labelling_of, costs_of as costs_in};
ghost use Rattle.later_swaps.specs.Prelude.{AreFree, WhereMeant, AreOfOneSize, made_of};
ghost use Rattle.later_swaps.specs.Prelude.{IsReadyMove, IsOfProblem, IsMade, IsMoveRefusal};
ghost use Rattle.later_swaps.specs.Prelude.{IsSwapFound, IsWorkingOn, site_values, made_value};
ghost use Rattle.later_swaps.specs.Prelude.{label_limit, IsSmallestLeast, IsMoved, place_of_swap};
ghost use Rattle.later_swaps.specs.Prelude.{AreSwapsStamped, IsLaterSwap};

use cost_store::{Problem, costs_of, has_cost};
use cut_ways::Sharing;
use label_energies::Move;
use label_field::Labelling;
use move_energy::BuildError;
use near_changes::Changes;
use near_swaps::find_near;
use one_move::{MoveError, Workspace, make_move, take_best};
use std::mem::swap;

/// No label: all labels are below it.
const NO_LABEL: u32 = 256;

/// A swap looks near the changes where at most one in so many sites changed,
const CHANGED_SHARE: usize = 64;

/// and of the sites that have one of its labels at most one in so many changed or is beside one
/// that did.
const FRESH_SHARE: usize = 64;

/// So many sites are looked over at once for those that changed.
const BLOCK: usize = 1024;

/// Whether a label is one of two.
fn is_either(label: u8, one: u8, other: u8) -> bool {
    label == one || label == other
}

/// How many of the sites from one on, before another, changed since a move.
fn count_changed(stamps: &[u32], since: u32, from: usize, to: usize) -> usize
    requires { (from ≤ to) × (to ≤ length stamps.now) }
    ensures { from + result ≤ to }
{
    let mut changed = 0usize;
    for site in from..to {
        if stamps[site] > since {
            changed += 1;
        }
    }
    changed
}

/// Whether few sites changed since a move. Once too many did, no other is looked at.
fn are_few(stamps: &[u32], since: u32) -> bool {
    let most = stamps.len() / CHANGED_SHARE;
    let mut changed = 0usize;
    let mut from = 0;
    while from < stamps.len() && changed <= most {
        let to = stamps.len().min(from + BLOCK);
        changed += count_changed(stamps, since, from, to);
        from = to;
    }
    changed <= most
}

/// How many sites have one of two labels.
fn count_either(at: &[u8], one: u8, other: u8) -> usize {
    let mut count = 0usize;
    for site in 0..at.len() {
        if is_either(at[site], one, other) {
            count += 1;
        }
    }
    count
}

/// How many of the listed sites have one of two labels.
fn count_listed(at: &[u8], one: u8, other: u8, sites: &[u32]) -> usize
    requires { All (λ p. p < length at.now) sites.now }
{
    let mut count = 0usize;
    for index in 0..sites.len() {
        if is_either(at[sites[index] as usize], one, other) {
            count += 1;
        }
    }
    count
}

/// Whether few of the sites that have one of two labels are among these.
fn are_few_fresh(at: &[u8], one: u8, other: u8, fresh: &[u32]) -> bool
    requires { All (λ p. p < length at.now) fresh.now }
{
    count_listed(at, one, other, fresh) <= count_either(at, one, other) / FRESH_SHARE
}

/// The place of two labels in the list of the swaps' numbers.
pub(crate) fn place_of(alpha: u32, beta: u32) -> u32
    requires { (alpha < label_limit) × (beta < label_limit) }
    ensures { result ≡ place_of_swap alpha beta }
{
    alpha * 256 + beta
}

/// Whether a swap may look near the changes alone: it was made before and few sites changed since,
/// and no label costs anything by itself.
fn can_look<F: Fn(u32, u32) -> i64 + Sync, V: Fn(u32, u32) -> i64 + Sync>(
    problem: &Problem<F, V>,
    labelling: &Labelling,
    alpha: u32,
    beta: u32,
    swaps: &Changes,
) -> bool
    ensures free { IsTrue result → AreFree (costs_in problem.now.label_costs) }
    ensures known { IsTrue result → 0 < made_of swaps.now (place_of_swap alpha beta) }
    ensures sizes { IsTrue result → length swaps.now.stamps.items ≡ length labelling.now.at }
    ensures labels { IsTrue result → (alpha < labelling.now.labels)
        × (beta < labelling.now.labels) × (alpha ≢ beta) }
    ensures few { IsTrue result → labelling.now.labels ≤ label_limit }
{
    let count = labelling.labels();
    if alpha >= count
        || beta >= count
        || alpha == beta
        || has_cost(costs_of(&problem.label_costs))
    {
        return false;
    }
    let since = swaps.last(place_of(alpha, beta));
    since > 0 && swaps.stamps.len() == labelling.sites() as usize && are_few(&swaps.stamps, since)
}

/// Finds what the sites get near the changes. It answers no where that is given up, as it is where
/// a term is not regular: then the swap is to be made whole.
fn look<F: Fn(u32, u32) -> i64 + Sync, V: Fn(u32, u32) -> i64 + Sync>(
    problem: &Problem<F, V>,
    space: &mut Workspace,
    at: &[u8],
    alpha: u32,
    beta: u32,
    swaps: &Changes,
) -> Result<bool, BuildError>
    requires asked { IsReadyMove F.Fn V.Fn problem.now at.now (Swap alpha beta) space.old }
    requires apart { alpha ≢ beta }
    requires stamps { length swaps.now.stamps.items ≡ length at.now }
    ensures of_problem { IsOfProblem F.Fn V.Fn problem.now space.new }
    ensures found { IfOk result (λ found. IsTrue found →
        IsSwapFound F.Fn V.Fn problem.now at.now alpha beta swaps.now space.new) }
{
    let alloc = *swaps.stamps.allocator();
    space.group(alloc, problem)?;
    space.stage.mark_fresh(
        &problem.pairs,
        &space.deciding.ends,
        at,
        NO_LABEL,
        &swaps.stamps,
        swaps.last(place_of(alpha, beta)),
    )?;
    if !are_few_fresh(at, alpha as u8, beta as u8, &space.stage.fresh_sites) {
        return Ok(false);
    }
    space.deciding.open(problem, at, Move::Swap(alpha, beta))?;
    swap(
        &mut space.deciding.bounds.choices,
        &mut space.built.variables.choices,
    );
    let form = space
        .deciding
        .numbers
        .form(&problem.pairs, &space.deciding.ends, at);
    let found = find_near(
        &form,
        &mut space.stage,
        &mut space.strips,
        &mut space.built.variables,
        &space.deciding.swapped,
        beta as u8,
    )?;
    swap(&mut space.deciding.lists.changing, &mut space.stage.opened);
    space.deciding.lists.listed = found;
    Ok(found)
}

/// A swap of two labels that was made before, where few sites changed since: it looks at those and
/// at what is near them. It answers nothing, and changes nothing, where the swap is to be made
/// whole. Refused as a swap is, the labels as they were. The labels are those of the whole swap
/// where what is remembered is true of the labels before.
fn make_later_swap<F: Fn(u32, u32) -> i64 + Sync, V: Fn(u32, u32) -> i64 + Sync, H: Sharing>(
    problem: &Problem<F, V>,
    space: &mut Workspace,
    labelling: &mut Labelling,
    alpha: u32,
    beta: u32,
    swaps: &Changes,
    how: &H,
) -> Result<Option<bool>, MoveError>
    requires ready { H.ready how.now }
    requires working { IsWorkingOn F.Fn V.Fn problem.now labelling.old space.old }
    ensures of_problem { IsOfProblem F.Fn V.Fn problem.now space.new }
    ensures sizes { AreOfOneSize labelling.old labelling.new }
    ensures moved { WhereMeant F.Fn V.Fn problem.now
        (λ m. AreSwapsStamped m (labelling_of labelling.old.at) swaps.now →
        IsLaterSwap m alpha beta labelling.old.at labelling.new.at result) }
    ensures made { IfOk result (λ later. IfSome later
        (IsMade (Swap alpha beta) labelling.old.at labelling.new.at)) }
    ensures values { WhereMeant F.Fn V.Fn problem.now
        (λ m. AreSwapsStamped m (labelling_of labelling.old.at) swaps.now →
        IfOk result (λ later. IfSome later (λ _. IsSmallestLeast m.sites
        (made_value m (Swap alpha beta) (labelling_of labelling.old.at))
        (site_values space.new.built.variables.choices.items)))) }
    ensures unchanged { OnErr result (labelling.new ≡ labelling.old) }
    ensures kept { IfOk result (λ later. later ≡ None → labelling.new ≡ labelling.old) }
    ensures refused { IfErr result
        (IsMoveRefusal (H.refuses how.now) labelling.old.labels (Swap alpha beta)) }
{
    if !how.decides_first() || !can_look(problem, labelling, alpha, beta, swaps) {
        return Ok(None);
    }
    match look(problem, space, labelling.as_slice(), alpha, beta, swaps) {
        Ok(true) => {}
        Ok(false) => return Ok(None),
        Err(BuildError::PairNotRegular(_)) => return Ok(None),
        Err(BuildError::OutOfMemory) => return Err(MoveError::OutOfMemory),
    }
    Ok(Some(take_best(problem, labelling, Move::Swap(alpha, beta), space)))
}

/// A swap near what changed since the last of its labels, where that is known, and else whole.
pub fn swap_labels<F: Fn(u32, u32) -> i64 + Sync, V: Fn(u32, u32) -> i64 + Sync, H: Sharing>(
    problem: &Problem<F, V>,
    space: &mut Workspace,
    labelling: &mut Labelling,
    alpha: u32,
    beta: u32,
    swaps: &Changes,
    how: &H,
) -> Result<bool, MoveError>
    requires ready { H.ready how.now }
    requires working { IsWorkingOn F.Fn V.Fn problem.now labelling.old space.old }
    ensures of_problem { IsOfProblem F.Fn V.Fn problem.now space.new }
    ensures sizes { AreOfOneSize labelling.old labelling.new }
    ensures moved { WhereMeant F.Fn V.Fn problem.now
        (λ m. AreSwapsStamped m (labelling_of labelling.old.at) swaps.now →
        IsMoved m (Swap alpha beta) labelling.old.at labelling.new.at result) }
    ensures made { IfOk result (IsMade (Swap alpha beta) labelling.old.at labelling.new.at) }
    ensures values { WhereMeant F.Fn V.Fn problem.now
        (λ m. AreSwapsStamped m (labelling_of labelling.old.at) swaps.now →
        IfOk result (λ _. IsSmallestLeast m.sites
        (made_value m (Swap alpha beta) (labelling_of labelling.old.at))
        (site_values space.new.built.variables.choices.items))) }
    ensures unchanged { OnErr result (labelling.new ≡ labelling.old) }
    ensures refused { IfErr result
        (IsMoveRefusal (H.refuses how.now) labelling.old.labels (Swap alpha beta)) }
{
    if let Some(changed) = make_later_swap(problem, space, labelling, alpha, beta, swaps, how)? {
        return Ok(changed);
    }
    let alloc = *swaps.stamps.allocator();
    let change = Move::Swap(alpha, beta);
    make_move(alloc, problem, space, labelling, change, how)
}
