//! The first stage of an expansion that is made once more, after parts of the sites looked by
//! themselves.
ghost use Rattle.std.specs.Prelude.{◌≡◌, ◌<◌, ◌≤◌, [], All, length, IfOk, OnOk, IsTrue};
ghost use Rattle.label_field.specs.Limits.{site_limit};
ghost use Rattle.move_energy.specs.BySite.{AreBySite};
ghost use Rattle.move_energy.specs.Choices.{AreOpenSites};
ghost use Rattle.later_expansions.specs.Prelude.{Expand, WhereMeant, AreStageZeros};
ghost use Rattle.later_expansions.specs.Prelude.{KeepsFreshSites, HasNumbersOf, HasNumbersNear};
ghost use Rattle.later_expansions.specs.Prelude.{IsReadyMove, IsOfProblem};

use cost_store::Problem;
use cut_ways::Sharing;
use label_energies::Move;
use near_changes::{PartSizes, Window, choose_first, find_zeros};
use one_move::Workspace;
use std::alloc::{AllocError, Global};

/// Stages look at some so many sites for each fresh one. So there are as many parts as a move of
/// that many sites would have.
const SITES_A_FRESH_ONE: usize = 32;

/// A part sees one in so many of its own sites more, at each of its ends.
const BEYOND_SHARE: u32 = 4;

/// So many parts of sites that are no fewer.
fn part_sizes(sites: usize, parts: usize) -> PartSizes
    requires { (0 < parts) × (parts ≤ sites) × (sites ≤ site_limit) }
{
    let own = (sites as u32).div_ceil(parts as u32);
    PartSizes {
        own,
        beyond: own / BEYOND_SHARE,
    }
}

/// Opens the sites of the first stage after so many parts of the sites looked by themselves, side
/// by side.
fn open_by_parts<F: Fn(u32, u32) -> i64 + Sync, V: Fn(u32, u32) -> i64 + Sync, H: Sharing>(
    alloc: Global,
    problem: &Problem<F, V>,
    space: &mut Workspace,
    at: &[u8],
    alpha: u32,
    how: &H,
    parts: usize,
) -> Result<(), AllocError>
    requires ready { H.ready how.now }
    requires numbers { HasNumbersOf F.Fn V.Fn problem.now at.now (Expand alpha) space.old }
    requires by_site { AreBySite problem.now.pairs space.old.deciding.ends }
    requires inside { All (λ p. p < problem.now.pairs.sites) space.old.stage.fresh_sites.items }
    requires parts { (0 < parts) × (parts ≤ length at.now) }
    ensures same { KeepsFreshSites space.old space.new }
    ensures count { OnOk result
        (length space.new.built.variables.choices.items ≡ length at.now) }
    ensures opened { OnOk result
        (AreOpenSites space.new.built.variables.choices.items space.new.stage.opened.items) }
    ensures zeros { WhereMeant F.Fn V.Fn problem.now
        (λ m. OnOk result (AreStageZeros m alpha at.now space.new)) }
{
    problem.pairs.keeps();
    let choices = &mut space.built.variables.choices;
    choose_first(choices, at, alpha)?;
    let form = space
        .deciding
        .numbers
        .form(&problem.pairs, &space.deciding.ends, at);
    find_zeros(
        alloc,
        &how.fork(),
        &form,
        choices,
        &space.stage.fresh_sites,
        parts,
        part_sizes(at.len(), parts),
    )?;
    let window = Window {
        from: 0,
        to: problem.pairs.sites(),
    };
    space
        .stage
        .open_fresh(choices, &problem.pairs, &space.deciding.ends, window)
}

/// Opens the sites of the first stage after parts of the sites looked by themselves, where the way
/// to cut asks for parts. What labels cost is read at all sites then. It answers whether they did.
pub(crate) fn open_apart<F: Fn(u32, u32) -> i64 + Sync, V: Fn(u32, u32) -> i64 + Sync, H: Sharing>(
    alloc: Global,
    problem: &Problem<F, V>,
    space: &mut Workspace,
    at: &[u8],
    alpha: u32,
    how: &H,
) -> Result<bool, AllocError>
    requires ready { H.ready how.now }
    requires asked { IsReadyMove F.Fn V.Fn problem.now at.now (Expand alpha) space.old }
    requires numbers { HasNumbersNear F.Fn V.Fn problem.now at.now (Expand alpha) []
        space.old.deciding.ends space.old.deciding.numbers }
    requires by_site { AreBySite problem.now.pairs space.old.deciding.ends }
    requires inside { All (λ p. p < problem.now.pairs.sites) space.old.stage.fresh_sites.items }
    ensures of_problem { IsOfProblem F.Fn V.Fn problem.now space.new }
    ensures by_site { AreBySite problem.now.pairs space.new.deciding.ends }
    ensures numbers { OnOk result (HasNumbersNear F.Fn V.Fn problem.now at.now (Expand alpha) []
        space.new.deciding.ends space.new.deciding.numbers) }
    ensures fresh { space.new.stage.fresh ≡ space.old.stage.fresh }
    ensures listed { space.new.stage.fresh_sites ≡ space.old.stage.fresh_sites }
    ensures count { IfOk result (λ done. IsTrue done →
        length space.new.built.variables.choices.items ≡ length at.now) }
    ensures opened { IfOk result (λ done. IsTrue done →
        AreOpenSites space.new.built.variables.choices.items space.new.stage.opened.items) }
    ensures zeros { WhereMeant F.Fn V.Fn problem.now (λ m. IfOk result (λ done. IsTrue done →
        AreStageZeros m alpha at.now space.new)) }
{
    let fresh = space.stage.fresh_sites.len();
    let parts = how
        .parts(fresh.saturating_mul(SITES_A_FRESH_ONE))
        .min(at.len());
    if parts < 2 {
        return Ok(false);
    }
    space
        .deciding
        .numbers
        .read(problem, &space.deciding.ends, at, Move::Expand(alpha))?;
    open_by_parts(alloc, problem, space, at, alpha, how, parts)?;
    Ok(true)
}
