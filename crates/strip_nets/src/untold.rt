//! From which site on nothing was told since the start: there a row need not look back.
ghost use Rattle.std.specs.Prelude.{◌≡◌, ◌<◌, ◌≤◌, ℕ, IsTrue, length};
ghost use Rattle.move_energy.specs.Choices.{choice_at};
ghost use Rattle.strip_nets.specs.Building.{CanBuild, IsUntoldFrom};

use crate::material::{Material, StripSites};
use move_energy::Choice;

/// So many sites are compared at once.
const BLOCK: u32 = 64;

/// At most so many sites are compared for each listed one.
const LOOKS: usize = 8;

/// Whether the same is known of the sites from one on, before another, as at the start.
fn are_same(start: &[Choice], known: &[Choice], from: u32, to: u32) -> bool
    requires { (to ≤ length start.now) × (to ≤ length known.now) }
    ensures { IsTrue result → (p : ℕ) → from ≤ p → p < to →
        choice_at known.now p ≡ choice_at start.now p }
{
    let mut other = false;
    for site in from..to {
        if known[site as usize] != start[site as usize] {
            other = true;
        }
    }
    !other
}

/// A site of a strip from which on nothing was told since the start, or the strip's end. It looks
/// back from there, at sites in proportion to those that are listed.
pub(crate) fn untold_from(material: &Material, sites: &StripSites) -> u32
    requires can { CanBuild material.now }
    ensures { IsUntoldFrom material.now sites.now result }
{
    let end = sites.to;
    if !material.form.rising || end as usize > material.known.len() {
        return end;
    }
    let most = sites.opened.len().saturating_mul(LOOKS).min(end as usize) as u32;
    let least = sites.from.max(end - most);
    let mut untold = end;
    'back: while untold >= least
        && untold - least >= BLOCK
        && are_same(material.start, material.known, untold - BLOCK, untold)
    {
        untold -= BLOCK;
    }
    untold
}
