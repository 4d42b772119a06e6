//! How much more a move's label costs each site, where it changes it.
ghost use Rattle.std.specs.Prelude.{◌≡◌, ◌<◌, ℕ, pos, All, length, OnOk, IsTrue};
ghost use Rattle.form_lists.specs.OwnRises.{AreZeroBut, IsOff};
ghost use Rattle.site_forms.specs.Fields.{own_at};

use std::alloc::{AllocError, Global};

/// Rises are cleared one by one where at most one in so many was read.
const FEW_SHARE: usize = 4;

/// What labels cost the sites in a move: by how much the energy rises where a site's value turns
/// from 0 to 1. After a move that read them at few sites, the next one clears these alone.
#[derive(Drop)]
pub(crate) struct OwnRises {
    pub rises: Vec<i32>,
    /// The sites whose rises were read since all were cleared, where `cleared`.
    pub sites: Vec<u32>,
    pub cleared: bool,
    ghost zeros: { IsTrue cleared → AreZeroBut rises.items sites.items },
}

/// Clears the rises of these sites, where all others are 0.
fn clear_at(rises: &mut [i32], sites: &[u32])
    requires { AreZeroBut rises.old sites.now }
    ensures count { length rises.new ≡ length rises.old }
    ensures zeros { (u : ℕ) → own_at rises.new u ≡ pos 0 }
{
    for place in 0..sites.len() {
        rises[sites[place] as usize] = 0;
    }
}

impl OwnRises {
    /// Of no sites. It takes no memory.
    pub fn empty(alloc: Global) -> OwnRises {
        OwnRises {
            rises: Vec::new(alloc),
            sites: Vec::new(alloc),
            cleared: false,
        }
    }

    /// Sets the rises of so many sites to 0.
    pub fn clear(&mut self, count: usize) -> Result<(), AllocError>
        ensures count { OnOk result (length self.new.rises.items ≡ count) }
        ensures zeros { OnOk result ((u : ℕ) → own_at self.new.rises.items u ≡ pos 0) }
    {
        let cleared = self.cleared;
        self.cleared = false;
        if cleared && self.rises.len() == count && self.sites.len() <= count / FEW_SHARE {
            clear_at(self.rises.as_mut_slice(), &self.sites);
        } else {
            self.rises.truncate(0);
            self.rises.resize(count, 0)?;
        }
        self.sites.clear();
        self.cleared = true;
        Ok(())
    }

    /// Adds these sites to those that were read since.
    pub fn note(&mut self, sites: &[u32])
        requires inside { All (λ p. p < length self.old.rises.items) sites.now }
        ensures same { self.new.rises ≡ self.old.rises }
        ensures noted { IsTrue self.new.cleared → (u : ℕ) → IsOff self.new.sites.items u →
            IsOff sites.now u }
    {
        if self.cleared {
            let noted = self.sites.extend_from_slice(sites).is_ok();
            self.cleared = noted;
        }
    }
}
