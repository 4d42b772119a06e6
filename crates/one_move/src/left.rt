//! What is left of a move whose sites were decided and closed in: its open sites, whose least
//! values are found at once, or a form of which a way to cut finds them.
ghost use Rattle.std.specs.Prelude.{◌≡◌, ◌+◌, length, IfOk, IfErr};
ghost use Rattle.site_forms.specs.Numbers.{IsOverPairs};
ghost use Rattle.strips.specs.Closing.{CanClose};
ghost use Rattle.one_move.specs.Prelude.{choice_at, site_limit, label_limit, WhereRead};
ghost use Rattle.one_move.specs.Prelude.{AreOpenSites, AreWeights, IsCutRefusal, IsLeftSized};
ghost use Rattle.one_move.specs.Prelude.{KeepsDecided, KeepsChoices, LeavesLeast, TellsLeft};
ghost use Rattle.one_move.specs.Prelude.{priced_of};

use crate::MoveError;
use crate::move_by_cut::cut_small;
use crate::workspace::Workspace;
use compile_cut::Quadratic;
use cut_ways::Sharing;
use move_energy::{BuildError, Choice};
use site_bounds::SiteForm;
use std::alloc::{AllocError, Global};
use std::mem::replace;
use strips::{Basis, Strips};

/// What is left of a move.
#[derive(Drop)]
pub(crate) enum Left {
    /// The form of what is open, in the workspace.
    Form,
    /// The least values of what is open, with the fewest ones: a bit for each open site.
    Values(Vec<bool>),
}

/// A move that is built: what is left of it, and what it then pays. An expansion whose form leaves
/// out what its own label costs by itself pays that; every other move pays 0.
#[derive(Drop)]
pub(crate) struct Built {
    pub left: Left,
    pub price: u32,
}

/// A move of which this is left, at this price.
pub(crate) fn at_price(left: Result<Left, BuildError>, price: u32) -> Result<Built, BuildError>
    ensures { result ≡ priced_of left price }
{
    match left {
        Ok(left) => Ok(Built { left, price }),
        Err(error) => Err(error),
    }
}

/// What is left of a move whose open sites are listed, from what they weighed at the start: their
/// least values, where there are fewer of them than `small`, which this thread then cuts in rows,
/// or their form.
pub(crate) fn leave_weighed(
    strips: &mut Strips,
    form: &SiteForm,
    basis: &Basis,
    known: &[Choice],
    opened: &[u32],
    numbers: &mut Vec<u32>,
    written: &mut Quadratic,
    small: usize,
) -> Result<Left, AllocError>
    requires can { CanClose form.now basis.now known.now }
    requires opened { AreOpenSites known.now opened.now }
    ensures sized { IfOk result (IsLeftSized site_limit written.new) }
    ensures tells { WhereRead form.now (λ m move f.
        AreWeights m move f (choice_at basis.now.start.now) basis.now.weights.now →
        IfOk result (TellsLeft m move f known.now written.new)) }
{
    if opened.len() < small {
        let bits = strips.look(form, basis, known, opened, numbers)?;
        return Ok(Left::Values(bits));
    }
    strips.build_open(form, basis, known, opened, numbers, written)?;
    Ok(Left::Form)
}

/// The same, where it is not known what the sites weigh: that is read of each open site and its
/// neighbours.
pub(crate) fn leave_read(
    strips: &mut Strips,
    form: &SiteForm,
    known: &[Choice],
    opened: &[u32],
    numbers: &mut Vec<u32>,
    written: &mut Quadratic,
    small: usize,
) -> Result<Left, AllocError>
    requires over { IsOverPairs form.now }
    requires count { length known.now ≡ length form.now.at.now }
    requires opened { AreOpenSites known.now opened.now }
    ensures sized { IfOk result (IsLeftSized site_limit written.new) }
    ensures tells { WhereRead form.now (λ m move f.
        IfOk result (TellsLeft m move f known.now written.new)) }
{
    if opened.len() < small {
        let bits = strips.look_read(form, known, opened, numbers)?;
        return Ok(Left::Values(bits));
    }
    strips.build_read(form, known, opened, numbers, written)?;
    Ok(Left::Form)
}

/// The least values of what is left of a move, a bit for each open site. A form of as many nodes as
/// `small` or more is left to the way to cut, and the workspace then knows that this had a net of
/// the run. Refused: what `how` refuses, and `OutOfMemory`.
pub(crate) fn cut_left<H: Sharing>(
    alloc: Global,
    left: Left,
    space: &mut Workspace,
    small: usize,
    how: &H,
) -> Result<Vec<bool>, MoveError>
    requires ready { H.ready how.now }
    requires sized { IsLeftSized (site_limit + label_limit) space.old.built.form left }
    ensures same { KeepsDecided space.old space.new }
    ensures kept { KeepsChoices space.old space.new }
    ensures least { IfOk result (LeavesLeast space.old.built left) }
    ensures refused { IfErr result (IsCutRefusal (H.refuses how.now)) }
{
    match left {
        Left::Values(bits) => Ok(bits),
        Left::Form => {
            let form = replace(&mut space.built.form, Quadratic::new(alloc));
            space.shared = space.shared || form.weights.len() >= small;
            cut_small(alloc, form, small, how, &mut space.cutting)
        }
    }
}
