//! An expansion of a label that was expanded before, which looks only near what changed since.
ghost use Rattle.std.specs.Prelude.{◌≡◌, ◌↔◌, ◌<◌, ℕ, [], Bool, true, length, OnOk, OnErr, IfOk};
ghost use Rattle.std.specs.Prelude.{IfErr, IfSome, IsTrue, None};
ghost use Rattle.std.specs.List.{All, Contains};
ghost use Rattle.later_expansions.specs.Prelude.{Expand, labelling as labelling_of};
ghost use Rattle.later_expansions.specs.Prelude.{costs_of as costs_in, AreFree, WhereMeant};
ghost use Rattle.later_expansions.specs.Prelude.{AreOfOneSize, made_of, IsReadyMove, changed_after};
ghost use Rattle.later_expansions.specs.Prelude.{WasExpanded, is_marked, AreTaking, IsOfProblem};
ghost use Rattle.later_expansions.specs.Prelude.{IsMade, IsCutRefusal, IsMoveRefusal, IsStageReady};
ghost use Rattle.later_expansions.specs.Prelude.{AreStageZeros, IsTakenLeast, CanBeTested};
ghost use Rattle.later_expansions.specs.Prelude.{AreTermsRegular, AreStageFresh, AreFreshSites};
ghost use Rattle.later_expansions.specs.Prelude.{HasTaken, IsLater, IsWorkingOn, TellsChange};
ghost use Rattle.later_expansions.specs.Prelude.{AreStamped, HasNumbersNear};
ghost use Rattle.move_energy.specs.BySite.{AreBySite};

use crate::opening_apart::open_apart;
use crate::stage_cut::{Standing, make_stage};
use cost_store::{Problem, costs_of, has_cost};
use cut_ways::Sharing;
use label_energies::Move;
use label_field::Labelling;
use move_energy::BuildError;
use near_changes::Changes;
use one_move::{MoveError, Workspace, relabel_site};
use std::alloc::AllocError;

/// A later expansion looks near the changes where less than one in so many sites changed.
const CHANGED_SHARE: usize = 32;

/// The most stages of an expansion: where none of so many is closed, the expansion is made whole.
const STAGE_LIMIT: u32 = 64;

/// The stages of an expansion open at most one in so many sites together: where they need more, it
/// is made whole.
const OPENED_SHARE: usize = 2;

/// Whether less than one in so many sites changed since a move and has not the label.
fn are_few(stamps: &[u32], since: u32, at: &[u8], alpha: u32) -> bool
    requires count { length stamps.now ≡ length at.now }
{
    let mut changed = 0usize;
    for site in 0..stamps.len() {
        if (stamps[site] > since) & (u32::from(at[site]) != alpha) {
            changed += 1;
        }
    }
    changed < stamps.len().div_ceil(CHANGED_SHARE)
}

/// Whether an expansion may look near the changes alone: its label was expanded before and few
/// sites changed since, the smooth costs were stored as a metric or each pair has costs of its own,
/// and no label costs anything by itself.
fn can_look<F: Fn(u32, u32) -> i64 + Sync, V: Fn(u32, u32) -> i64 + Sync>(
    problem: &Problem<F, V>,
    labelling: &Labelling,
    alpha: u32,
    changes: &Changes,
) -> bool
    ensures testable { IsTrue result → CanBeTested problem.now }
    ensures free { IsTrue result → AreFree (costs_in problem.now.label_costs) }
    ensures known { IsTrue result → 0 < made_of changes.now alpha }
    ensures sizes { IsTrue result → (length changes.now.stamps.items ≡ length labelling.now.at)
        × (alpha < labelling.now.labels) }
{
    let since = changes.last(alpha);
    (problem.smooth_cost.by_metric || problem.pairs.are_numbered())
        && !has_cost(costs_of(&problem.label_costs))
        && since > 0
        && alpha < labelling.labels()
        && changes.stamps.len() == labelling.sites() as usize
        && are_few(&changes.stamps, since, labelling.as_slice(), alpha)
}

/// Marks what changed since the label's last expansion, begins to read the numbers of the
/// expansion, and tests its terms: those over a metric are regular.
fn begin_numbers<F: Fn(u32, u32) -> i64 + Sync, V: Fn(u32, u32) -> i64 + Sync>(
    problem: &Problem<F, V>,
    space: &mut Workspace,
    at: &[u8],
    alpha: u32,
    changes: &Changes,
) -> Result<(), BuildError>
    requires asked { IsReadyMove F.Fn V.Fn problem.now at.now (Expand alpha) space.old }
    requires testable { CanBeTested problem.now }
    requires stamps { length changes.now.stamps.items ≡ length at.now }
    ensures of_problem { IsOfProblem F.Fn V.Fn problem.now space.new }
    ensures by_site { OnOk result (AreBySite problem.now.pairs space.new.deciding.ends) }
    ensures fresh { OnOk result (AreFreshSites problem.now.pairs alpha (labelling_of at.now)
        (changed_after changes.now alpha) space.new.stage) }
    ensures numbers { OnOk result (HasNumbersNear F.Fn V.Fn problem.now at.now (Expand alpha) []
        space.new.deciding.ends space.new.deciding.numbers) }
{
    let alloc = *changes.stamps.allocator();
    space.group(alloc, problem)?;
    space.stage.mark_fresh(
        &problem.pairs,
        &space.deciding.ends,
        at,
        alpha,
        &changes.stamps,
        changes.last(alpha),
    )?;
    space
        .deciding
        .numbers
        .begin(problem, &space.deciding.ends, at, Move::Expand(alpha))?;
    if problem.smooth_cost.by_metric {
        return Ok(());
    }
    space.deciding.numbers.test_terms()
}

/// Makes the first stage ready: by parts of the sites that look by themselves first, where the way
/// to cut asks for parts.
fn begin_stages<F: Fn(u32, u32) -> i64 + Sync, V: Fn(u32, u32) -> i64 + Sync, H: Sharing>(
    problem: &Problem<F, V>,
    space: &mut Workspace,
    at: &[u8],
    alpha: u32,
    changes: &Changes,
    how: &H,
) -> Result<(), AllocError>
    requires ready { H.ready how.now }
    requires asked { IsReadyMove F.Fn V.Fn problem.now at.now (Expand alpha) space.old }
    requires by_site { AreBySite problem.now.pairs space.old.deciding.ends }
    requires numbers { HasNumbersNear F.Fn V.Fn problem.now at.now (Expand alpha) []
        space.old.deciding.ends space.old.deciding.numbers }
    requires fresh { AreFreshSites problem.now.pairs alpha (labelling_of at.now)
        (changed_after changes.now alpha) space.old.stage }
    ensures of_problem { IsOfProblem F.Fn V.Fn problem.now space.new }
    ensures numbers { OnOk result (HasNumbersNear F.Fn V.Fn problem.now at.now (Expand alpha) []
        space.new.deciding.ends space.new.deciding.numbers) }
    ensures stage { OnOk result (IsStageReady problem.now.pairs space.new) }
    ensures fresh { WhereMeant F.Fn V.Fn problem.now
        (λ m. OnOk result (AreStageFresh m alpha at.now changes.now space.new)) }
    ensures zeros { WhereMeant F.Fn V.Fn problem.now
        (λ m. OnOk result (AreStageZeros m alpha at.now space.new)) }
{
    let alloc = *changes.stamps.allocator();
    if open_apart(alloc, problem, space, at, alpha, how)? {
        return Ok(());
    }
    space.stage.open_first(
        &mut space.built.variables.choices,
        &problem.pairs,
        &space.deciding.ends,
        at,
        alpha,
    )
}

/// Finds the sites that take the label, stage by stage. It answers no where that is given up, as it
/// is where a term is not regular.
fn look<F: Fn(u32, u32) -> i64 + Sync, V: Fn(u32, u32) -> i64 + Sync, H: Sharing>(
    problem: &Problem<F, V>,
    space: &mut Workspace,
    at: &[u8],
    alpha: u32,
    changes: &Changes,
    how: &H,
) -> Result<bool, MoveError>
    requires ready { H.ready how.now }
    requires asked { IsReadyMove F.Fn V.Fn problem.now at.now (Expand alpha) space.old }
    requires testable { CanBeTested problem.now }
    requires stamps { length changes.now.stamps.items ≡ length at.now }
    ensures of_problem { IsOfProblem F.Fn V.Fn problem.now space.new }
    ensures tested { WhereMeant F.Fn V.Fn problem.now
        (λ m. AreTermsRegular m alpha at.now result) }
    ensures least { WhereMeant F.Fn V.Fn problem.now (λ m. IfOk result (λ closed. IsTrue closed →
        WasExpanded m alpha (changed_after changes.now alpha) (labelling_of at.now) →
        IsTakenLeast m alpha at.now space.new)) }
    ensures taking { IfOk result (λ closed. IsTrue closed →
        AreTaking problem.now.pairs.sites space.new.stage) }
    ensures refused { IfErr result (IsCutRefusal (H.refuses how.now)) }
{
    match begin_numbers(problem, space, at, alpha, changes) {
        Ok(()) => {}
        Err(BuildError::PairNotRegular(_)) => return Ok(false),
        Err(BuildError::OutOfMemory) => return Err(MoveError::OutOfMemory),
    }
    match begin_stages(problem, space, at, alpha, changes, how) {
        Ok(()) => {}
        Err(_) => return Err(MoveError::OutOfMemory),
    }
    let mut total = 0usize;
    for _stage in 0..STAGE_LIMIT {
        total = total.saturating_add(space.stage.opened.len());
        if total > at.len() / OPENED_SHARE {
            return Ok(false);
        }
        match make_stage(problem, space, at, alpha, how)? {
            Standing::Closed => return Ok(true),
            Standing::Open => {}
        }
    }
    Ok(false)
}

/// Gives the listed sites the label. It answers whether a label changed.
fn take(labelling: &mut Labelling, alpha: u32, sites: &[u32]) -> bool
    requires below { alpha < labelling.old.labels }
    requires inside { All (λ p. p < length labelling.old.at) sites.now }
    ensures sizes { AreOfOneSize labelling.old labelling.new }
    ensures each { (took : ℕ → Bool) → ((p : ℕ) → p < length labelling.old.at →
        (took p ≡ true) ↔ Contains sites.now p)
        → HasTaken alpha took labelling.old.at labelling.new.at }
    ensures changed { TellsChange result labelling.old.at labelling.new.at }
{
    let mut changed = false;
    for index in 0..sites.len() {
        if relabel_site(labelling, sites[index], true, Move::Expand(alpha)) {
            changed = true;
        }
    }
    changed
}

/// An expansion of a label that was expanded before, where few sites changed since: it looks at
/// those and at what is near them, and at more, stage by stage, until nothing that was not looked
/// at can matter. It answers nothing, and changes nothing, where the expansion is to be made whole.
/// Refused as an expansion is, the labels as they were. The labels are those of the whole expansion
/// where what is remembered is true of the labels before.
pub fn make_later_expansion<
    F: Fn(u32, u32) -> i64 + Sync,
    V: Fn(u32, u32) -> i64 + Sync,
    H: Sharing,
>(
    problem: &Problem<F, V>,
    space: &mut Workspace,
    labelling: &mut Labelling,
    alpha: u32,
    changes: &Changes,
    how: &H,
) -> Result<Option<bool>, MoveError>
    requires ready { H.ready how.now }
    requires working { IsWorkingOn F.Fn V.Fn problem.now labelling.old space.old }
    ensures of_problem { IsOfProblem F.Fn V.Fn problem.now space.new }
    ensures sizes { AreOfOneSize labelling.old labelling.new }
    ensures moved { WhereMeant F.Fn V.Fn problem.now
        (λ m. AreStamped m (labelling_of labelling.old.at) changes.now →
        IsLater m alpha labelling.old.at labelling.new.at result) }
    ensures made { IfOk result (λ later. IfSome later
        (IsMade (Expand alpha) labelling.old.at labelling.new.at)) }
    ensures taken { IfOk result (λ later. IfSome later (λ _.
        AreTaking (length labelling.old.at) space.new.stage
        × HasTaken alpha (is_marked space.new.stage.taken.items) labelling.old.at labelling.new.at
        × AreFree (costs_in problem.now.label_costs))) }
    ensures unchanged { OnErr result (labelling.new ≡ labelling.old) }
    ensures kept { IfOk result (λ later. later ≡ None → labelling.new ≡ labelling.old) }
    ensures refused { IfErr result
        (IsMoveRefusal (H.refuses how.now) labelling.old.labels (Expand alpha)) }
{
    if !how.decides_first() || !can_look(problem, labelling, alpha, changes) {
        return Ok(None);
    }
    labelling.keeps();
    if !look(problem, space, labelling.as_slice(), alpha, changes, how)? {
        return Ok(None);
    }
    Ok(Some(take(labelling, alpha, &space.stage.taking)))
}
