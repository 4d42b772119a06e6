//! A part of the sites: the stages in which it looks, by numbers alone.
ghost use Rattle.std.specs.Prelude.{◌≡◌, ◌<◌, ℕ, All, length, IfOk, OnOk};
ghost use Rattle.move_energy.specs.BySite.{AreBySite};
ghost use Rattle.site_forms.specs.Numbers.{IsOverPairs};
ghost use Rattle.near_changes.specs.Working.{KeepsZeros};
ghost use Rattle.near_changes.specs.SideBySide.{IsPartReady, KeepsZerosOf};

use crate::opening::Window;
use crate::stage::Stage;
use crate::windows::has_within;
use label_field::Pairs;
use move_energy::{Choice, Neighbours, Variables};
use site_bounds::SiteForm;
use std::alloc::{AllocError, Global};
use strips::Strips;

/// The most stages of a part. What it leaves open then is left to the stages of all sites.
const STAGE_LIMIT: u32 = 64;

/// A part opens at most one in so many sites that it sees. More are left to the stages of all
/// sites.
const OPENED_SHARE: u32 = 2;

/// What a part works with: what it knows and the numbers of its open sites, where it looks, and the
/// lists of its cuts.
#[derive(Drop)]
pub(crate) struct Part {
    pub variables: Variables,
    pub stage: Stage,
    pub strips: Strips,
}

/// What a part begins with: what is known, and its fresh sites and rings around them open, of those
/// that it sees.
pub(crate) fn begin_part(
    alloc: Global,
    pairs: &Pairs,
    ends: &Neighbours,
    known: &[Choice],
    fresh: Vec<u32>,
    seen: Window,
) -> Result<Part, AllocError>
    requires by_site { AreBySite pairs.now ends.now }
    requires sites { length known.now ≡ pairs.now.sites }
    requires inside { All (λ p. p < pairs.now.sites) fresh.items }
    ensures ready { IfOk result (IsPartReady pairs.now ends.now) }
    ensures zeros { IfOk result (λ part. KeepsZeros known.now part.variables.choices.items) }
{
    let mut variables = Variables::new(alloc);
    variables.choices = Vec::from_slice(alloc, known)?;
    let mut stage = Stage::empty(alloc);
    stage.fresh_sites = fresh;
    stage.open_fresh(&mut variables.choices, pairs, ends, seen)?;
    Ok(Part {
        variables,
        stage,
        strips: Strips::new(alloc),
    })
}

/// One stage of a part: its cut, and what is opened next. It answers whether there was something to
/// open.
fn make_part_stage(form: &SiteForm, part: &mut Part, seen: Window) -> Result<bool, AllocError>
    requires over { IsOverPairs form.now }
    requires ready { IsPartReady form.now.pairs.now form.now.ends.now part.old }
    ensures ready { OnOk result
        (IsPartReady form.now.pairs.now form.now.ends.now part.new) }
    ensures zeros { OnOk result (KeepsZerosOf form.now
        part.old.variables.choices.items part.new.variables.choices.items) }
{
    form.pairs.keeps();
    let bits = part.strips.look_read(
        form,
        &part.variables.choices,
        &part.stage.opened,
        &mut part.variables.of_sites,
    )?;
    part.variables.number_listed(&part.stage.opened)?;
    part.stage.close(
        form.pairs,
        form.ends,
        &part.variables.choices,
        &part.variables.of_sites,
        &bits,
    )?;
    let more = has_within(&part.stage.front, seen);
    part.stage.reopen(
        &mut part.variables.choices,
        form.pairs,
        form.ends,
        &bits,
        seen,
    )?;
    Ok(more)
}

/// The stages of a part, until nothing that it sees is left to be opened, or much of it is open.
pub(crate) fn make_part_stages(
    form: &SiteForm,
    part: &mut Part,
    seen: Window,
) -> Result<(), AllocError>
    requires over { IsOverPairs form.now }
    requires ready { IsPartReady form.now.pairs.now form.now.ends.now part.old }
    ensures ready { OnOk result
        (IsPartReady form.now.pairs.now form.now.ends.now part.new) }
    ensures zeros { OnOk result (KeepsZerosOf form.now
        part.old.variables.choices.items part.new.variables.choices.items) }
{
    let most = (seen.to.saturating_sub(seen.from) / OPENED_SHARE) as usize;
    for _stage in 0..STAGE_LIMIT {
        if part.stage.opened.len() > most {
            return Ok(());
        }
        if !make_part_stage(form, part, seen)? {
            return Ok(());
        }
    }
    Ok(())
}
