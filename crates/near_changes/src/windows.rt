//! The sites of a part, and those that it sees.
ghost use Rattle.std.specs.Prelude.{◌≡◌, ◌*◌, ◌-◌, ◌<◌, ◌≤◌, min, filter, IfOk};
ghost use Rattle.std.specs.List.{list_any};
ghost use Rattle.label_field.specs.Limits.{site_limit};
ghost use Rattle.near_changes.specs.SideBySide.{seen_start, is_of};

use crate::opening::Window;
use std::alloc::{AllocError, Global};

/// So many sites are a part's own, and so many beyond each of its ends are seen by it too.
#[derive(Clone, Copy)]
pub struct PartSizes {
    pub own: u32,
    pub beyond: u32,
}

/// The sites that are a part's own.
pub(crate) fn own_window(sites: u32, sizes: PartSizes, part: usize) -> Window
    requires few { (part < site_limit) × (sites ≤ site_limit) }
    ensures from { result.from ≡ min (part * sizes.own) sites }
    ensures range { (result.from ≤ result.to) × (result.to ≤ sites) }
{
    let from = (part * sizes.own as usize).min(sites as usize) as u32;
    Window {
        from,
        to: from.saturating_add(sizes.own).min(sites),
    }
}

/// The sites that a part sees: its own, and those beyond its ends.
pub(crate) fn seen_window(sites: u32, sizes: PartSizes, part: usize) -> Window
    requires few { (part < site_limit) × (sites ≤ site_limit) }
    ensures from { result.from ≡ seen_start sites sizes part }
    ensures range { (result.from ≤ result.to) × (result.to ≤ sites) }
{
    let own = own_window(sites, sizes, part);
    Window {
        from: own.from.saturating_sub(sizes.beyond),
        to: own.to.saturating_add(sizes.beyond).min(sites),
    }
}

/// Whether a site is of a window.
fn is_within(site: u32, window: Window) -> bool
    ensures { result ≡ is_of window site }
{
    window.from <= site && site < window.to
}

/// Whether one of the sites is of a window.
pub(crate) fn has_within(sites: &[u32], window: Window) -> bool
    ensures { result ≡ list_any (is_of window) sites.now }
{
    for index in 0..sites.len() {
        if is_within(sites[index], window) {
            return true;
        }
    }
    false
}

/// Those of the sites that are of a window.
pub(crate) fn list_within(
    alloc: Global,
    sites: &[u32],
    window: Window,
) -> Result<Vec<u32>, AllocError>
    ensures { IfOk result (λ list. list.items ≡ filter (is_of window) sites.now) }
{
    let mut list = Vec::new(alloc);
    for index in 0..sites.len() {
        let site = sites[index];
        if is_within(site, window) {
            list.push(site)?;
        }
    }
    Ok(list)
}
