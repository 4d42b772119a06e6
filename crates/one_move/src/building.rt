//! What is left of a move, of which sites are decided before it is built or cut.
ghost use Rattle.std.specs.Prelude.{◌≡◌, ◌+◌, ◌<◌, length, IfOk, IfErr, OnOk, IsTrue, ◌↔◌};
ghost use Rattle.one_move.specs.Prelude.{labelling, site_limit, label_limit, WhereMeant, choice_at};
ghost use Rattle.one_move.specs.Prelude.{IsPrepareRefusal, IsDecidedMove, move_value, Agree};
ghost use Rattle.one_move.specs.Prelude.{IsOfProblem, IsRestWhereListed, IsReadyMove, IsReadMove};
ghost use Rattle.one_move.specs.Prelude.{IsWeighedMove, IsLeftOf, KeepsChoices, KeepsDecided};
ghost use Rattle.one_move.specs.Prelude.{IsReadyToCut, IsBuiltMove, costs_of, AreCosts, IsFreeFor};
ghost use Rattle.one_move.specs.Prelude.{Expand, AreCostsOf, IsSwap, HasFormOf};
ghost use Rattle.one_move.specs.PlainBuilding.{IsPlainBuilding};
ghost use Rattle.one_move.specs.Prelude.{IsAllowed, IsPriced};
ghost use Rattle.kept_labels.specs.Kept.{AreLabelsKept};

use crate::left::{Built, Left, at_price, leave_read, leave_weighed};
use crate::workspace::Workspace;
use cost_store::{Problem, costs_of, has_cost};
use cut_ways::Sharing;
use kept_labels::{are_kept, own_price_of};
use label_cost_terms::add_label_costs;
use label_energies::Move;
use move_energy::BuildError;
use std::alloc::{AllocError, Global};
use std::mem::swap;
use strips::{Basis, close_parts};

/// Decides the sites of a move, which the workspace then knows.
fn decide<F: Fn(u32, u32) -> i64 + Sync, V: Fn(u32, u32) -> i64 + Sync>(
    alloc: Global,
    problem: &Problem<F, V>,
    space: &mut Workspace,
    at: &[u8],
    change: Move,
) -> Result<(), BuildError>
    requires asked { IsReadyMove F.Fn V.Fn problem.now at.now change space.old }
    ensures of_problem { IsOfProblem F.Fn V.Fn problem.now space.new }
    ensures weighed { OnOk result
        (IsWeighedMove F.Fn V.Fn problem.now at.now change space.new) }
    ensures decided { WhereMeant F.Fn V.Fn problem.now (λ m. IsDecidedMove m change at.now
        space.new.built.variables.choices.items result) }
{
    space.group(alloc, problem)?;
    space.deciding.decide(problem, at, change)?;
    swap(
        &mut space.deciding.bounds.choices,
        &mut space.built.variables.choices,
    );
    Ok(())
}

/// What is left of a move whose sites are decided, over its listed open sites, from what they
/// weigh.
fn leave_open<F: Fn(u32, u32) -> i64 + Sync, V: Fn(u32, u32) -> i64 + Sync>(
    problem: &Problem<F, V>,
    space: &mut Workspace,
    at: &[u8],
    change: Move,
    small: usize,
) -> Result<Left, AllocError>
    requires weighed { IsWeighedMove F.Fn V.Fn problem.now at.now change space.old }
    requires listed { IsTrue space.old.deciding.lists.listed }
    ensures same { KeepsDecided space.old space.new }
    ensures kept { KeepsChoices space.old space.new }
    ensures left { IfOk result (IsLeftOf F.Fn V.Fn problem.now at.now change space.new) }
{
    let form = space
        .deciding
        .numbers
        .form(&problem.pairs, &space.deciding.ends, at);
    let basis = Basis {
        start: &space.built.variables.choices,
        weights: &space.deciding.bounds.greatest,
    };
    let left = leave_weighed(
        &mut space.strips,
        &form,
        &basis,
        &space.built.variables.choices,
        &space.deciding.lists.opened,
        &mut space.built.variables.of_sites,
        &mut space.built.form,
        small,
    )?;
    Ok(left)
}

/// What is left of a move whose sites are decided, of its last strip: all strips before it are
/// closed in, so many sites each.
fn leave_strip<F: Fn(u32, u32) -> i64 + Sync, V: Fn(u32, u32) -> i64 + Sync>(
    problem: &Problem<F, V>,
    space: &mut Workspace,
    at: &[u8],
    change: Move,
    size: usize,
    small: usize,
) -> Result<Left, AllocError>
    requires some { 0 < size }
    requires weighed { IsWeighedMove F.Fn V.Fn problem.now at.now change space.old }
    ensures of_problem { IsOfProblem F.Fn V.Fn problem.now space.new }
    ensures near { OnOk result (IsRestWhereListed change at.now space.new) }
    ensures known { (space.new.deciding.ends ≡ space.old.deciding.ends)
        × (space.new.deciding.numbers ≡ space.old.deciding.numbers) }
    ensures choices { OnOk result (length space.new.built.variables.choices.items ≡ length at.now) }
    ensures left { IfOk result (IsLeftOf F.Fn V.Fn problem.now at.now change space.new) }
    ensures agree { WhereMeant F.Fn V.Fn problem.now (λ m.
        Agree m.sites (move_value m change (labelling at.now))
        (choice_at space.old.built.variables.choices.items) →
        OnOk result (Agree m.sites (move_value m change (labelling at.now))
        (choice_at space.new.built.variables.choices.items))) }
{
    swap(
        &mut space.deciding.bounds.choices,
        &mut space.built.variables.choices,
    );
    let form = space
        .deciding
        .numbers
        .form(&problem.pairs, &space.deciding.ends, at);
    let basis = Basis {
        start: &space.deciding.bounds.choices,
        weights: &space.deciding.bounds.greatest,
    };
    space
        .strips
        .close_in(&form, &basis, &mut space.built.variables, size)?;
    swap(&mut space.stage.opened, &mut space.strips.opened);
    let left = leave_weighed(
        &mut space.strips,
        &form,
        &basis,
        &space.built.variables.choices,
        &space.stage.opened,
        &mut space.built.variables.of_sites,
        &mut space.built.form,
        small,
    )?;
    if space.deciding.lists.listed {
        swap(&mut space.deciding.lists.opened, &mut space.stage.opened);
        return Ok(left);
    }
    Ok(left)
}

/// How many sites have one of two labels.
fn count_of_labels(at: &[u8], one: u32, other: u32) -> usize {
    let mut count = 0usize;
    for site in 0..at.len() {
        let label = u32::from(at[site]);
        if label == one || label == other {
            count += 1;
        }
    }
    count
}

/// The threads of a swap take as long to start as those of an expansion over a quarter of its sites
/// gain.
const SWAP_SHARE: usize = 4;

/// In how many parts a move is closed in at first. The way to cut says it of all sites, and for a
/// swap of a share of those that have one of its labels: these may be few, and are not counted if
/// all sites are.
fn part_count<H: Sharing>(how: &H, at: &[u8], change: Move) -> usize {
    match change {
        Move::Expand(_) => how.parts(at.len()),
        Move::Swap(one, other) => {
            let most = how.parts(at.len() / SWAP_SHARE);
            if most < 2 {
                return most;
            }
            how.parts(count_of_labels(at, one, other) / SWAP_SHARE)
        }
    }
}

/// Decides and closes in the sites of a move by parts, side by side, where the way to cut asks for
/// parts. It answers whether it did.
fn close_apart<F: Fn(u32, u32) -> i64 + Sync, V: Fn(u32, u32) -> i64 + Sync, H: Sharing>(
    alloc: Global,
    problem: &Problem<F, V>,
    space: &mut Workspace,
    at: &[u8],
    change: Move,
    how: &H,
) -> Result<bool, BuildError>
    requires ready { H.ready how.now }
    requires asked { IsReadyMove F.Fn V.Fn problem.now at.now change space.old }
    ensures of_problem { IsOfProblem F.Fn V.Fn problem.now space.new }
    ensures read { IfOk result (λ done. IsTrue done →
        IsReadMove F.Fn V.Fn problem.now at.now change space.new) }
    ensures agree { WhereMeant F.Fn V.Fn problem.now (λ m. IfOk result (λ done. IsTrue done →
        Agree m.sites (move_value m change (labelling at.now))
        (choice_at space.new.built.variables.choices.items))) }
    ensures refused { WhereMeant F.Fn V.Fn problem.now (λ m.
        IfErr result (IsPrepareRefusal m change (labelling at.now))) }
{
    let parts = part_count(how, at, change).min(at.len());
    if parts < 2 {
        return Ok(false);
    }
    space.group(alloc, problem)?;
    space.deciding.open(problem, at, change)?;
    swap(
        &mut space.deciding.bounds.choices,
        &mut space.built.variables.choices,
    );
    let form = space
        .deciding
        .numbers
        .form(&problem.pairs, &space.deciding.ends, at);
    let size = strip_size(how, problem.data_cost.labels);
    let fork = how.fork();
    close_parts(
        &fork,
        &form,
        &mut space.built.variables.choices,
        parts,
        size,
    )?;
    space
        .deciding
        .lists
        .fill(at, change, &space.built.variables.choices)?;
    Ok(true)
}

/// What is left of a move that was closed in by parts.
fn leave_rest<F: Fn(u32, u32) -> i64 + Sync, V: Fn(u32, u32) -> i64 + Sync>(
    problem: &Problem<F, V>,
    space: &mut Workspace,
    at: &[u8],
    change: Move,
    small: usize,
) -> Result<Left, AllocError>
    requires read { IsReadMove F.Fn V.Fn problem.now at.now change space.old }
    ensures same { KeepsDecided space.old space.new }
    ensures kept { KeepsChoices space.old space.new }
    ensures left { IfOk result (IsLeftOf F.Fn V.Fn problem.now at.now change space.new) }
{
    let form = space
        .deciding
        .numbers
        .form(&problem.pairs, &space.deciding.ends, at);
    if space.deciding.lists.listed {
        let left = leave_read(
            &mut space.strips,
            &form,
            &space.built.variables.choices,
            &space.deciding.lists.opened,
            &mut space.built.variables.of_sites,
            &mut space.built.form,
            small,
        )?;
        return Ok(left);
    }
    space.strips.list_open(&space.built.variables.choices)?;
    swap(&mut space.stage.opened, &mut space.strips.opened);
    let rest = leave_read(
        &mut space.strips,
        &form,
        &space.built.variables.choices,
        &space.stage.opened,
        &mut space.built.variables.of_sites,
        &mut space.built.form,
        small,
    )?;
    Ok(rest)
}

/// A move between more labels than this has shorter strips: it leaves most sites open, and reads a
/// wide table of costs beside the rows of a strip.
const MANY_LABELS: u32 = 64;

/// Its strips have one in so many sites of those of another.
const MANY_SHARE: usize = 2;

/// How many open sites a move closes in at once: all, where the way to cut takes all that is open
/// as one net.
fn strip_size<H: Sharing>(how: &H, labels: u32) -> usize
    ensures { 0 < result }
{
    let sites = how.strip_sites();
    if sites == 0 {
        return usize::MAX;
    }
    if labels > MANY_LABELS {
        (sites / MANY_SHARE).max(1)
    } else {
        sites
    }
}

/// What is left of a move whose sites were decided first: of the rest, where it was closed in by
/// parts, and of the last strip, where more sites are open than one net takes.
fn build_decided<F: Fn(u32, u32) -> i64 + Sync, V: Fn(u32, u32) -> i64 + Sync, H: Sharing>(
    alloc: Global,
    problem: &Problem<F, V>,
    space: &mut Workspace,
    at: &[u8],
    change: Move,
    how: &H,
    small: usize,
) -> Result<Left, BuildError>
    requires ready { H.ready how.now }
    requires asked { IsReadyMove F.Fn V.Fn problem.now at.now change space.old }
    ensures { IsPlainBuilding F.Fn V.Fn problem.now at.now change space.new result }
{
    if close_apart(alloc, problem, space, at, change, how)? {
        let rest = leave_rest(problem, space, at, change, small)?;
        return Ok(rest);
    }
    decide(alloc, problem, space, at, change)?;
    let size = strip_size(how, problem.data_cost.labels);
    if space.deciding.lists.listed && space.deciding.lists.count <= size {
        let open = leave_open(problem, space, at, change, small)?;
        return Ok(open);
    }
    let strip = leave_strip(problem, space, at, change, size, small)?;
    Ok(strip)
}

/// The energy of a move of which nothing is decided.
fn build_whole<F: Fn(u32, u32) -> i64 + Sync, V: Fn(u32, u32) -> i64 + Sync>(
    alloc: Global,
    problem: &Problem<F, V>,
    space: &mut Workspace,
    at: &[u8],
    change: Move,
) -> Result<Left, BuildError>
    requires asked { IsReadyMove F.Fn V.Fn problem.now at.now change space.old }
    ensures { IsPlainBuilding F.Fn V.Fn problem.now at.now change space.new result }
{
    space.group(alloc, problem)?;
    space
        .deciding
        .numbers
        .read(problem, &space.deciding.ends, at, change)?;
    space.deciding.lists.listed = false;
    space.built.prepare(alloc, problem, at, change)?;
    Ok(Left::Form)
}

/// What is left of a move where no label costs anything by itself, its sites decided first or not.
fn build_plain<F: Fn(u32, u32) -> i64 + Sync, V: Fn(u32, u32) -> i64 + Sync, H: Sharing>(
    alloc: Global,
    problem: &Problem<F, V>,
    space: &mut Workspace,
    at: &[u8],
    change: Move,
    how: &H,
    small: usize,
) -> Result<Left, BuildError>
    requires ready { H.ready how.now }
    requires asked { IsReadyMove F.Fn V.Fn problem.now at.now change space.old }
    ensures { IsPlainBuilding F.Fn V.Fn problem.now at.now change space.new result }
{
    if how.decides_first() {
        build_decided(alloc, problem, space, at, change, how, small)
    } else {
        build_whole(alloc, problem, space, at, change)
    }
}

/// The energy of an expansion where labels cost something by themselves, of which nothing is
/// decided: what a site costs then depends on all sites of its label.
fn build_costed<F: Fn(u32, u32) -> i64 + Sync, V: Fn(u32, u32) -> i64 + Sync>(
    alloc: Global,
    problem: &Problem<F, V>,
    space: &mut Workspace,
    at: &[u8],
    alpha: u32,
    costs: &[i64],
) -> Result<Built, BuildError>
    requires asked { IsReadyMove F.Fn V.Fn problem.now at.now (Expand alpha) space.old }
    requires label_costs { AreCosts problem.now.data_cost.labels costs.now }
    ensures of_problem { IsOfProblem F.Fn V.Fn problem.now space.new }
    ensures left { IfOk result (λ built.
        IsReadyToCut at.now (Expand alpha) (site_limit + label_limit) space.new built.left) }
    ensures price { IfOk result (λ built. built.price ≡ 0) }
    ensures built { WhereMeant F.Fn V.Fn problem.now (λ m. AreCostsOf m costs.now →
        IsBuiltMove m (Expand alpha) at.now space.new.built result) }
{
    space.deciding.lists.listed = false;
    space
        .built
        .prepare(alloc, problem, at, Move::Expand(alpha))?;
    add_label_costs(
        alloc,
        &mut space.built.form,
        &space.built.variables,
        at,
        alpha,
        costs,
    )?;
    Ok(Built {
        left: Left::Form,
        price: 0,
    })
}

/// Whether an expansion keeps each other label that costs something by itself. Its costs are then
/// read.
fn keeps_labels<F: Fn(u32, u32) -> i64 + Sync, V: Fn(u32, u32) -> i64 + Sync>(
    alloc: Global,
    problem: &Problem<F, V>,
    space: &mut Workspace,
    at: &[u8],
    alpha: u32,
    costs: &[i64],
) -> Result<bool, AllocError>
    requires asked { IsReadyMove F.Fn V.Fn problem.now at.now (Expand alpha) space.old }
    requires label_costs { AreCosts problem.now.data_cost.labels costs.now }
    ensures of_problem { IsOfProblem F.Fn V.Fn problem.now space.new }
    ensures kept { WhereMeant F.Fn V.Fn problem.now (λ m. AreCostsOf m costs.now →
        IsAllowed m (Expand alpha) (labelling at.now) →
        IfOk result (λ kept. IsTrue kept ↔ AreLabelsKept m alpha (labelling at.now))) }
{
    space.group(alloc, problem)?;
    space
        .deciding
        .numbers
        .read(problem, &space.deciding.ends, at, Move::Expand(alpha))?;
    let form = space
        .deciding
        .numbers
        .form(&problem.pairs, &space.deciding.ends, at);
    Ok(are_kept(&form, alpha, costs))
}

/// What is left of an expansion where labels cost something by themselves. If it keeps each other
/// one of them, it is the expansion without label costs, and pays for its own label once its least
/// values are found.
fn build_with_costs<F: Fn(u32, u32) -> i64 + Sync, V: Fn(u32, u32) -> i64 + Sync, H: Sharing>(
    alloc: Global,
    problem: &Problem<F, V>,
    space: &mut Workspace,
    at: &[u8],
    alpha: u32,
    costs: &[i64],
    how: &H,
    small: usize,
) -> Result<Built, BuildError>
    requires ready { H.ready how.now }
    requires asked { IsReadyMove F.Fn V.Fn problem.now at.now (Expand alpha) space.old }
    requires label_costs { AreCosts problem.now.data_cost.labels costs.now }
    ensures of_problem { IsOfProblem F.Fn V.Fn problem.now space.new }
    ensures left { IfOk result (λ built.
        IsReadyToCut at.now (Expand alpha) (site_limit + label_limit) space.new built.left) }
    ensures price { IfOk result (λ built.
        IsPriced F.Fn V.Fn problem.now at.now (Expand alpha) space.new built.price) }
    ensures built { WhereMeant F.Fn V.Fn problem.now (λ m. AreCostsOf m costs.now →
        IsBuiltMove m (Expand alpha) at.now space.new.built result) }
{
    if !keeps_labels(alloc, problem, space, at, alpha, costs)? {
        return build_costed(alloc, problem, space, at, alpha, costs);
    }
    let left = build_plain(alloc, problem, space, at, Move::Expand(alpha), how, small);
    at_price(left, own_price_of(at, alpha, costs))
}

/// What is left of a move. Its sites are decided first or not, but where labels cost something by
/// themselves nothing is decided of an expansion that might give up one of them. Where fewer are
/// then open than `small`, their least values are found, and else the form of what is open is.
pub(crate) fn build_move<F: Fn(u32, u32) -> i64 + Sync, V: Fn(u32, u32) -> i64 + Sync, H: Sharing>(
    alloc: Global,
    problem: &Problem<F, V>,
    space: &mut Workspace,
    at: &[u8],
    change: Move,
    how: &H,
    small: usize,
) -> Result<Built, BuildError>
    requires ready { H.ready how.now }
    requires asked { IsReadyMove F.Fn V.Fn problem.now at.now change space.old }
    requires free { IsFreeFor change (costs_of problem.now.label_costs) }
    ensures of_problem { IsOfProblem F.Fn V.Fn problem.now space.new }
    ensures left { IfOk result (λ built.
        IsReadyToCut at.now change (site_limit + label_limit) space.new built.left) }
    ensures form { OnOk result
        (IsSwap change → HasFormOf F.Fn V.Fn problem.now at.now change space.new) }
    ensures price { IfOk result (λ built.
        IsPriced F.Fn V.Fn problem.now at.now change space.new built.price) }
    ensures built { WhereMeant F.Fn V.Fn problem.now
        (λ m. IsBuiltMove m change at.now space.new.built result) }
{
    let costs = costs_of(&problem.label_costs);
    let costly = has_cost(costs);
    match change {
        Move::Swap(_, _) => at_price(
            build_plain(alloc, problem, space, at, change, how, small),
            0,
        ),
        Move::Expand(alpha) => {
            if costly {
                return build_with_costs(alloc, problem, space, at, alpha, costs, how, small);
            }
            at_price(
                build_plain(alloc, problem, space, at, change, how, small),
                0,
            )
        }
    }
}
