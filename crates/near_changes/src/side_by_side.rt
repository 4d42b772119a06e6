//! Parts that look side by side.
ghost use Rattle.std.specs.Prelude.{◌≡◌, ◌*◌, ◌<◌, ◌≤◌, All, length, vec_len, IfOk};
ghost use Rattle.label_field.specs.Limits.{site_limit};
ghost use Rattle.label_energies.specs.Energies.{IsInstance};
ghost use Rattle.move_energy.specs.Choices.{choice_at};
ghost use Rattle.site_forms.specs.Numbers.{IsOverPairs, WhereRead};
ghost use Rattle.strips.specs.Parts.{OfParts};
ghost use Rattle.near_changes.specs.SideBySide.{AreZerosOf, AreZeroCodes, KeepsZerosOf};
ghost use Rattle.near_changes.specs.SideBySide.{IsPartFound};

use crate::join::{codes_within, join_parts};
use crate::opening::Window;
use crate::part::{begin_part, make_part_stages};
use crate::windows::{PartSizes, list_within, own_window, seen_window};
use cut_ways::Fork;
use move_energy::Choice;
use site_bounds::SiteForm;
use std::alloc::{AllocError, Global};

/// What a part finds by itself, from its own fresh sites on: the codes of the sites that it sees.
/// There are none where no fresh site is its own.
fn look_apart(
    alloc: Global,
    form: &SiteForm,
    known: &[Choice],
    fresh: &[u32],
    own: Window,
    seen: Window,
) -> Result<Vec<u8>, AllocError>
    requires over { IsOverPairs form.now }
    requires sites { length known.now ≡ form.now.pairs.now.sites }
    requires inside { All (λ p. p < form.now.pairs.now.sites) fresh.now }
    requires seen { (seen.from ≤ seen.to) × (seen.to ≤ form.now.pairs.now.sites) }
    ensures zeros { WhereRead form.now (λ m move f. IsInstance m →
        AreZerosOf m move f (choice_at known.now) →
        IfOk result (λ codes. AreZeroCodes m move f seen.from codes.items)) }
{
    let own_fresh = list_within(alloc, fresh, own)?;
    if own_fresh.is_empty() {
        return Ok(Vec::new(alloc));
    }
    let mut part = begin_part(alloc, form.pairs, form.ends, known, own_fresh, seen)?;
    make_part_stages(form, &mut part, seen)?;
    codes_within(alloc, &part.variables.choices, seen)
}

/// What so many parts find, side by side.
fn look_each<K: Fork>(
    alloc: Global,
    fork: &K,
    form: &SiteForm,
    known: &[Choice],
    fresh: &[u32],
    count: usize,
    sizes: PartSizes,
) -> Result<Vec<Result<Vec<u8>, AllocError>>, AllocError>
    requires able { K.can_do fork.now }
    requires over { IsOverPairs form.now }
    requires sites { length known.now ≡ form.now.pairs.now.sites }
    requires inside { All (λ p. p < form.now.pairs.now.sites) fresh.now }
    requires few { count ≤ site_limit }
    ensures count { IfOk result (λ parts. vec_len parts ≡ count) }
    ensures found { IfOk result (λ parts.
        OfParts (IsPartFound form.now known.now sizes) parts.items) }
{
    let form = *form;
    fork.do_parts(
        alloc,
        count,
        &move |part: usize| -> Result<Vec<u8>, AllocError>
            requires { (part < site_limit) × IsOverPairs form
                × (length known.now ≡ form.pairs.now.sites)
                × All (λ p. p < form.pairs.now.sites) fresh.now }
            ensures { IfOk result (λ codes.
                IsPartFound form.entry known.entry.now sizes part codes.items) }
        {
            form.pairs.keeps();
            let sites = form.pairs.sites();
            let own = own_window(sites, sizes, part);
            let seen = seen_window(sites, sizes, part);
            look_apart(alloc, &form, known, fresh, own, seen)
        },
    )
}

/// Looks for sites that are 0 in the least values of a move, by so many parts of the sites side by
/// side. `known` says which are, and then which others were found to be too; sites that a part
/// looked at in vain are open in it. Each part looks around the fresh sites that are its own, stage
/// by stage, with all sites that it does not see at 1. It refuses only where memory runs out.
pub fn find_zeros<K: Fork>(
    alloc: Global,
    fork: &K,
    form: &SiteForm,
    known: &mut Vec<Choice>,
    fresh: &[u32],
    parts: usize,
    sizes: PartSizes,
) -> Result<(), AllocError>
    requires able { K.can_do fork.now }
    requires over { IsOverPairs form.now }
    requires sites { length known.old.items ≡ form.now.pairs.now.sites }
    requires inside { All (λ p. p < form.now.pairs.now.sites) fresh.now }
    requires few { parts ≤ site_limit }
    ensures count { length known.new.items ≡ length known.old.items }
    ensures zeros { KeepsZerosOf form.now known.old.items known.new.items }
{
    form.pairs.keeps();
    let found = look_each(alloc, fork, form, known, fresh, parts, sizes)?;
    join_parts(known, sizes, &found)
}
