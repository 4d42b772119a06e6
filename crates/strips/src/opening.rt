//! Which sites a strip has: those that the strips before left open, and the next ones.
ghost use Rattle.std.specs.Prelude.{◌≡◌, ◌<◌, ◌≤◌, ◌+◌, ◌++◌, All, filter, length, IfOk, OnOk};
ghost use Rattle.label_field.specs.Limits.{site_limit};
ghost use Rattle.move_energy.specs.Choices.{open_at, AreOpenSites};
ghost use Rattle.strip_nets.specs.Views.{strip_view};

use move_energy::Choice;
use site_bounds::keep;
use std::alloc::AllocError;

/// So many sites are listed at once.
const BLOCK: usize = 16;

/// Lists a site where it is open, behind those before it. It answers how many it listed.
fn list_site(
    known: &[Choice],
    opened: &mut Vec<u32>,
    first: u32,
    site: u32,
) -> Result<usize, AllocError>
    requires site { (first ≤ site) × (site < length known.now) }
    requires opened { AreOpenSites (strip_view known.now first site) opened.old.items }
    ensures few { IfOk result (λ count. count ≤ 1) }
    ensures opened { OnOk result
        (AreOpenSites (strip_view known.now first (site + 1)) opened.new.items) }
{
    if known[site as usize].is_open() {
        opened.push(site)?;
        return Ok(1);
    }
    Ok(0)
}

/// The same for the block that begins at a site.
fn list_block(
    known: &[Choice],
    opened: &mut Vec<u32>,
    first: u32,
    from: u32,
) -> Result<usize, AllocError>
    requires sites { length known.now ≤ site_limit }
    requires block { (first ≤ from) × (from + 16 ≤ length known.now) }
    requires opened { AreOpenSites (strip_view known.now first from) opened.old.items }
    ensures few { IfOk result (λ count. count ≤ 16) }
    ensures opened { OnOk result
        (AreOpenSites (strip_view known.now first (from + 16)) opened.new.items) }
{
    let mut found = [0u32; BLOCK];
    let mut count = 0;
    for place in 0..BLOCK {
        let site = from + place as u32;
        count = keep(&mut found, count, site, known[site as usize].is_open());
    }
    opened.extend_from_slice(&found[..count])?;
    Ok(count)
}

/// Lists the next open sites, from one on, before another, behind those that are listed: so many,
/// or all that are left. The listed sites are the open ones of a range that ends there. It answers
/// where the range ends then.
pub(crate) fn list_next(
    known: &[Choice],
    opened: &mut Vec<u32>,
    first: u32,
    from: u32,
    end: u32,
    size: usize,
) -> Result<u32, AllocError>
    requires sites { length known.now ≤ site_limit }
    requires some { 0 < size }
    requires from { (first ≤ from) × (from ≤ end) × (end ≤ length known.now) }
    requires opened { AreOpenSites (strip_view known.now first from) opened.old.items }
    ensures inside { IfOk result (λ to. to ≤ end) }
    ensures later { IfOk result (λ to. from ≤ to) }
    ensures further { IfOk result (λ to. from < end → from < to) }
    ensures whole { IfOk result (λ to. end ≤ size → to ≡ end) }
    ensures opened { IfOk result (λ to.
        AreOpenSites (strip_view known.now first to) opened.new.items) }
{
    let mut more = 0;
    let mut site = from;
    'sites: while site < end {
        if more == size {
            return Ok(site);
        }
        if end - site < BLOCK as u32 || size - more < BLOCK {
            more += list_site(known, opened, first, site)?;
            site += 1;
        } else {
            more += list_block(known, opened, first, site)?;
            site += BLOCK as u32;
        }
    }
    Ok(end)
}

/// Lists those of the sites that are still open, behind the ones that are listed.
pub(crate) fn list_left(
    left: &mut Vec<u32>,
    opened: &[u32],
    known: &[Choice],
) -> Result<(), AllocError>
    requires { All (λ site. site < length known.now) opened.now }
    ensures { OnOk result (left.new.items
        ≡ left.old.items ++ filter (open_at known.now) opened.now) }
{
    for place in 0..opened.len() {
        let site = opened[place];
        if known[site as usize].is_open() {
            left.push(site)?;
        }
    }
    Ok(())
}
