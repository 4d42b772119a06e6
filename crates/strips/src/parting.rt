//! A move closed in by parts of its sites, side by side: each part is decided and closed in by
//! numbers alone, strip by strip, with the sites of all other parts unknown.
ghost use Rattle.std.specs.Prelude.{◌≡◌, ◌+◌, ◌<◌, ◌≤◌, List, length, vec_len};
ghost use Rattle.std.specs.Prelude.{IfOk, OnOk};
ghost use Rattle.label_field.specs.Limits.{site_limit};
ghost use Rattle.label_energies.specs.Energies.{IsInstance};
ghost use Rattle.move_energy.specs.declared.choice.Choice.{Choice as AnyChoice};
ghost use Rattle.move_energy.specs.Choices.{choice_at};
ghost use Rattle.move_energy.specs.MoveValues.{move_value};
ghost use Rattle.site_bounds.specs.Parts.{ArePassedChoices};
ghost use Rattle.site_forms.specs.Numbers.{IsOverPairs, WhereRead};
ghost use Rattle.persistency.specs.Agreeing.{Agree};
ghost use Rattle.strip_nets.specs.Views.{KeepsChosen};
ghost use Rattle.strips.specs.Parts.{IsPartClosed, IsPartAnswer, OfParts, DecidesTold};
ghost use Rattle.strips.specs.Parts.{EndsWithStrip, PartsEndWithStrips};

use crate::closing::Strips;
use crate::opening::list_next;
use crate::parts::{codes_of, join_parts, part_start};
use cut_ways::Fork;
use move_energy::Choice;
use site_bounds::{SiteForm, sweep};
use std::alloc::{AllocError, Global};

/// Closes in the strips of a range of sites, so many open sites each and what the strip before left
/// open.
fn close_range(
    form: &SiteForm,
    known: &mut Vec<Choice>,
    from: u32,
    to: u32,
    size: usize,
) -> Result<(), AllocError>
    requires over { IsOverPairs form.now }
    requires count { length known.old.items ≡ length form.now.at.now }
    requires range { (from ≤ to) × (to ≤ length form.now.at.now) }
    requires some { 0 < size }
    ensures count { length known.new.items ≡ length known.old.items }
    ensures goes_on { (start : List AnyChoice) → KeepsChosen start known.old.items →
        KeepsChosen start known.new.items }
    ensures agree { WhereRead form.now (λ m move f. IsInstance m →
        Agree m.sites (move_value m move f) (choice_at known.old.items) →
        OnOk result (Agree m.sites (move_value m move f) (choice_at known.new.items))) }
    ensures ends { WhereRead form.now (λ m move f. IsInstance m →
        Agree m.sites (move_value m move f) (choice_at known.old.items) →
        OnOk result (EndsWithStrip m move f known.old.items from to (choice_at known.new.items))) }
{
    let mut strips = Strips::new(*known.allocator());
    strips.room.numbers.reserve((to - from) as usize)?;
    let mut end = list_next(known, &mut strips.opened, from, from, to, size)?;
    'strips: while end < to {
        strips.close_read(form, known, from, end)?;
        let more = size.max(strips.opened.len());
        end = list_next(known, &mut strips.opened, from, end, to, more)?;
    }
    strips.close_read(form, known, from, to)
}

/// Decides the open sites of a part that can be told, closes in its strips, and answers the codes
/// of what is then known of its sites.
fn close_part(
    alloc: Global,
    form: &SiteForm,
    choices: &[Choice],
    from: usize,
    to: usize,
    size: usize,
) -> Result<Vec<u8>, AllocError>
    requires over { IsOverPairs form.now }
    requires choices { length choices.now ≡ length form.now.at.now }
    requires range { (from ≤ to) × (to ≤ length form.now.at.now) }
    requires some { 0 < size }
    ensures { IfOk result (λ codes. IsPartClosed form.now choices.now from to codes.items) }
{
    let mut known = Vec::from_slice(alloc, choices)?;
    sweep(form, known.as_mut_slice(), from, to);
    close_range(form, &mut known, from as u32, to as u32, size)?;
    codes_of(alloc, &known, from, to)
}

/// Closes in so many parts side by side, each of so many sites, and in strips of so many open
/// sites.
fn close_each<K: Fork>(
    fork: &K,
    form: &SiteForm,
    choices: &[Choice],
    alloc: Global,
    count: usize,
    sites: usize,
    size: usize,
) -> Result<Vec<Result<Vec<u8>, AllocError>>, AllocError>
    requires able { K.can_do fork.now }
    requires over { IsOverPairs form.now }
    requires choices { length choices.now ≡ length form.now.at.now }
    requires few { count ≤ site_limit }
    requires some { 0 < size }
    ensures count { IfOk result (λ parts. vec_len parts ≡ count) }
    ensures closed { IfOk result (λ parts.
        OfParts (IsPartAnswer form.now choices.now sites) parts.items) }
{
    let form = *form;
    fork.do_parts(
        alloc,
        count,
        &move |part: usize| -> Result<Vec<u8>, AllocError>
            requires { (part < site_limit) × IsOverPairs form
                × (length choices.now ≡ length form.at.now) × (0 < size) }
            ensures { IfOk result (λ codes.
                IsPartAnswer form.entry choices.entry.now sites part codes.items) }
        {
            let all = form.at.len();
            let from = part_start(all, sites, part);
            let to = part_start(all, sites, part + 1);
            close_part(alloc, &form, choices, from, to, size)
        },
    )
}

/// Decides and closes in the sites of a move by so many parts, side by side, in strips of so many
/// open sites. Each site that can be told by what is known at first is decided. Only what lies near
/// the borders of the parts stays open, and what no strip of a part can tell. The choices agree
/// with the least assignment with the fewest ones, whatever the number of parts. Each part ends
/// with a strip of all its sites that are open then: what stays open of it is what both sides of
/// that strip leave open. It refuses only where memory runs out.
pub fn close_parts<K: Fork>(
    fork: &K,
    form: &SiteForm,
    known: &mut Vec<Choice>,
    count: usize,
    size: usize,
) -> Result<(), AllocError>
    requires able { K.can_do fork.now }
    requires over { IsOverPairs form.now }
    requires choices { length known.old.items ≡ length form.now.at.now }
    requires count { (0 < count) × (count ≤ site_limit) }
    requires some { 0 < size }
    ensures count { length known.new.items ≡ length known.old.items }
    ensures agree { WhereRead form.now (λ m move f. IsInstance m →
        ArePassedChoices m move f (choice_at known.old.items) →
        OnOk result (Agree m.sites (move_value m move f) (choice_at known.new.items))) }
    ensures told { OnOk result (DecidesTold form.now known.old.items known.new.items) }
    ensures ends { WhereRead form.now (λ m move f. IsInstance m →
        ArePassedChoices m move f (choice_at known.old.items) →
        OnOk result (PartsEndWithStrips m move f known.old.items count
        (choice_at known.new.items))) }
{
    let sites = known.len().div_ceil(count);
    let alloc = *known.allocator();
    let parts = close_each(fork, form, known, alloc, count, sites, size)?;
    join_parts(known.as_mut_slice(), sites, parts.as_slice())
}
