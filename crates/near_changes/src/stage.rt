//! What a move that is made once more knows of the sites.
ghost use Rattle.std.specs.Prelude.{◌≡◌, ◌==◌, [], ℕ, ◌<◌, false, length, OnOk, if◌then◌else◌};
ghost use Rattle.near_changes.specs.Looking.{is_marked};
ghost use Rattle.near_changes.specs.Working.{IsMarkedToo, IsListedToo};

use label_field::Pair;
use std::alloc::{AllocError, Global};

/// What a move that is made once more knows of the sites while it looks, in stages, only where
/// something changed. It keeps its memory for the next one: 2 bytes a site, and 4 for each that is
/// listed.
#[derive(Drop)]
pub struct Stage {
    /// Of each site whether it is fresh: it changed since the last such move or is beside one that
    /// did, and has not the label of an expansion.
    pub fresh: Vec<bool>,
    /// Those sites.
    pub fresh_sites: Vec<u32>,
    /// Of each site whether it is in the set that takes the label, or in a swap in the closed set.
    pub taken: Vec<bool>,
    /// Those sites.
    pub taking: Vec<u32>,
    /// Sites to open next.
    pub front: Vec<u32>,
    /// The open sites, in rising order.
    pub opened: Vec<u32>,
}

impl Stage {
    /// Nothing is known. It takes no memory.
    pub fn empty(alloc: Global) -> Stage
        ensures fresh { result.fresh.items ≡ [] }
        ensures sites { result.fresh_sites.items ≡ [] }
    {
        Stage {
            fresh: Vec::new(alloc),
            fresh_sites: Vec::new(alloc),
            taken: Vec::new(alloc),
            taking: Vec::new(alloc),
            front: Vec::new(alloc),
            opened: Vec::new(alloc),
        }
    }
}

/// A mark for each of so many sites, of which none is marked.
pub(crate) fn unmark_all(flags: &mut Vec<bool>, sites: usize) -> Result<(), AllocError>
    ensures count { OnOk result (length flags.new.items ≡ sites) }
    ensures none { OnOk result ((p : ℕ) → is_marked flags.new.items p ≡ false) }
{
    flags.resize(sites, false)?;
    flags.as_mut_slice().fill(false);
    Ok(())
}

/// Marks a site, and lists it where it was not marked.
pub(crate) fn mark(flags: &mut Vec<bool>, sites: &mut Vec<u32>, site: u32) -> Result<(), AllocError>
    requires { site < length flags.old.items }
    ensures marked { OnOk result (IsMarkedToo site flags.old.items flags.new.items) }
    ensures listed { OnOk result
        (IsListedToo site flags.old.items sites.old.items sites.new.items) }
{
    if !flags[site as usize] {
        flags[site as usize] = true;
        sites.push(site)?;
    }
    Ok(())
}

/// The other end of a pair.
pub(crate) fn other_end(pair: Pair, site: u32) -> u32
    ensures { result ≡ (if pair.first == site then pair.second else pair.first) }
{
    if pair.first == site {
        pair.second
    } else {
        pair.first
    }
}
