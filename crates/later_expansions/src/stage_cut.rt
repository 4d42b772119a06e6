//! One stage of an expansion that is made once more: its cut, and what is done with what the cut
//! shows.
ghost use Rattle.std.specs.Prelude.{◌≡◌, ◌+◌, ◌<◌, ℕ, [], false, true, length, OnOk, IfOk, IfErr};
ghost use Rattle.site_forms.specs.Numbers.{IsOverPairs, WhereRead};
ghost use Rattle.later_expansions.specs.Prelude.{Expand, WhereMeant, Zero, AreOpenSites, choice_at};
ghost use Rattle.later_expansions.specs.Prelude.{value_of, open_count, IsNumbering, is_marked};
ghost use Rattle.later_expansions.specs.Prelude.{IsClosedIn, AreTaking, HasNumbersNear};
ghost use Rattle.later_expansions.specs.Prelude.{KeepsDecided, IsReadyMove, IsOfProblem};
ghost use Rattle.later_expansions.specs.Prelude.{IsCutRefusal, IsStageLeast, IsStageReady};
ghost use Rattle.later_expansions.specs.Prelude.{AreStageZeros, EndsMove};

use compile_cut::Quadratic;
use cost_store::Problem;
use cut_ways::Sharing;
use label_energies::Move;
use label_field::Pairs;
use move_energy::MoveEnergy;
use near_changes::Window;
use one_move::{MoveError, Workspace, cut_small, least_nodes};
use site_bounds::SiteForm;
use std::alloc::{AllocError, Global};
use std::mem::replace;
use strips::Strips;

/// What a stage leaves: the sites that take the label are found, or there are more sites to look
/// at.
#[derive(Clone, Copy)]
pub(crate) enum Standing {
    Closed,
    Open,
}

/// The cut of a partly fixed move, over the listed open sites: a bit for each. Few are cut in rows,
/// on the thread of the caller, and all where that cuts alone.
pub(crate) fn cut_stage<H: Sharing>(
    form: &SiteForm,
    strips: &mut Strips,
    built: &mut MoveEnergy,
    opened: &[u32],
    how: &H,
    cutting: &mut plain_cut::Workspace,
) -> Result<Vec<bool>, MoveError>
    requires ready { H.ready how.now }
    requires over { IsOverPairs form.now }
    requires choices { length built.old.variables.choices.items ≡ length form.now.at.now }
    requires opened { AreOpenSites built.old.variables.choices.items opened.now }
    ensures kept { built.new.variables.choices.items ≡ built.old.variables.choices.items }
    ensures numbering { OnOk result (IsNumbering built.new.variables.choices.items
        built.new.variables.of_sites.items) }
    ensures count { IfOk result
        (λ bits. length bits.items ≡ open_count built.new.variables.choices.items) }
    ensures least { WhereRead form.now (λ m move f. IfOk result
        (λ bits. IsStageLeast m move f built.new.variables.choices.items bits.items)) }
    ensures refused { IfErr result (IsCutRefusal (H.refuses how.now)) }
{
    let small = least_nodes(how.shares_nets(), form.at.len(), true).max(how.strip_sites());
    if how.is_alone() || opened.len() < small {
        let bits = strips.look_read(
            form,
            &built.variables.choices,
            opened,
            &mut built.variables.of_sites,
        )?;
        return Ok(bits);
    }
    let alloc = *built.form.weights.allocator();
    strips.build_read(
        form,
        &built.variables.choices,
        opened,
        &mut built.variables.of_sites,
        &mut built.form,
    )?;
    let left = replace(&mut built.form, Quadratic::new(alloc));
    cut_small(alloc, left, small, how, cutting)
}

/// What is done with what a cut showed: where the sites that take the label are not closed in, more
/// sites are opened.
fn end_stage(space: &mut Workspace, pairs: &Pairs, bits: &[bool]) -> Result<Standing, AllocError>
    requires ready { IsStageReady pairs.now space.old }
    requires numbering { IsNumbering space.old.built.variables.choices.items
        space.old.built.variables.of_sites.items }
    requires bits { length bits.now ≡ open_count space.old.built.variables.choices.items }
    ensures same { KeepsDecided space.old space.new }
    ensures fresh { space.new.stage.fresh.items ≡ space.old.stage.fresh.items }
    ensures closed { IfOk result (λ standing. standing ≡ Standing.Closed → IsClosedIn pairs.now
        (value_of space.old.built.variables.choices.items bits.now)
        (choice_at space.old.built.variables.choices.items)
        (is_marked space.new.stage.taken.items) (is_marked space.old.stage.fresh.items)) }
    ensures taking { IfOk result (λ standing. standing ≡ Standing.Closed →
        AreTaking pairs.now.sites space.new.stage) }
    ensures open { IfOk result
        (λ standing. standing ≡ Standing.Open → IsStageReady pairs.now space.new) }
    ensures zeros { IfOk result
        (λ standing. standing ≡ Standing.Open → (p : ℕ) → p < pairs.now.sites →
        choice_at space.new.built.variables.choices.items p ≡ Zero →
        value_of space.old.built.variables.choices.items bits.now p ≡ false) }
{
    let closed = space.stage.close(
        pairs,
        &space.deciding.ends,
        &space.built.variables.choices,
        &space.built.variables.of_sites,
        bits,
    )?;
    if closed {
        return Ok(Standing::Closed);
    }
    let window = Window {
        from: 0,
        to: pairs.sites(),
    };
    space.stage.reopen(
        &mut space.built.variables.choices,
        pairs,
        &space.deciding.ends,
        bits,
        window,
    )?;
    Ok(Standing::Open)
}

/// One stage: what labels cost its open sites is read, then its cut is made, and more sites are
/// opened where that shows so.
pub(crate) fn make_stage<F: Fn(u32, u32) -> i64 + Sync, V: Fn(u32, u32) -> i64 + Sync, H: Sharing>(
    problem: &Problem<F, V>,
    space: &mut Workspace,
    at: &[u8],
    alpha: u32,
    how: &H,
) -> Result<Standing, MoveError>
    requires ready { H.ready how.now }
    requires asked { IsReadyMove F.Fn V.Fn problem.now at.now (Expand alpha) space.old }
    requires numbers { HasNumbersNear F.Fn V.Fn problem.now at.now (Expand alpha) []
        space.old.deciding.ends space.old.deciding.numbers }
    requires stage { IsStageReady problem.now.pairs space.old }
    ensures of_problem { IsOfProblem F.Fn V.Fn problem.now space.new }
    ensures numbers { HasNumbersNear F.Fn V.Fn problem.now at.now (Expand alpha) []
        space.new.deciding.ends space.new.deciding.numbers }
    ensures fresh { space.new.stage.fresh.items ≡ space.old.stage.fresh.items }
    ensures closed { WhereMeant F.Fn V.Fn problem.now (λ m. IfOk result (λ standing.
        standing ≡ Standing.Closed → EndsMove m alpha at.now space.old space.new)) }
    ensures taking { IfOk result (λ standing. standing ≡ Standing.Closed →
        AreTaking problem.now.pairs.sites space.new.stage) }
    ensures open { IfOk result (λ standing. standing ≡ Standing.Open →
        IsStageReady problem.now.pairs space.new) }
    ensures zeros { WhereMeant F.Fn V.Fn problem.now
        (λ m. IfOk result (λ standing. standing ≡ Standing.Open →
        AreStageZeros m alpha at.now space.old → AreStageZeros m alpha at.now space.new)) }
    ensures refused { IfErr result (IsCutRefusal (H.refuses how.now)) }
{
    space
        .deciding
        .numbers
        .read_sites(problem, at, Move::Expand(alpha), &space.stage.opened);
    let form = space
        .deciding
        .numbers
        .form(&problem.pairs, &space.deciding.ends, at);
    let bits = cut_stage(
        &form,
        &mut space.strips,
        &mut space.built,
        &space.stage.opened,
        how,
        &mut space.cutting,
    )?;
    match end_stage(space, &problem.pairs, &bits) {
        Ok(standing) => Ok(standing),
        Err(_) => Err(MoveError::OutOfMemory),
    }
}
