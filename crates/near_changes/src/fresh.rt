//! Marking the fresh sites.
ghost use Rattle.std.specs.Prelude.{◌≡◌, ◌≢◌, ◌⊎◌, ℕ, ◌<◌, true, length};
ghost use Rattle.std.specs.Prelude.{OnOk};
ghost use Rattle.move_energy.specs.BySite.{AreBySite};
ghost use Rattle.label_energies.specs.Energies.{labelling};
ghost use Rattle.near_changes.specs.Looking.{is_marked, changed_since, AreBeside, AreFreshSites};
ghost use Rattle.near_changes.specs.Working.{AreFreshMarks, StaysMarked, IsMarkedAround};

use crate::Stage;
use crate::stage::{mark, other_end, unmark_all};
use label_field::Pairs;
use move_energy::{Neighbours, ends_at, pair_at};
use std::alloc::AllocError;

impl Stage {
    /// Marks a site as fresh if it could take the label.
    fn mark_site(&mut self, at: &[u8], alpha: u32, site: u32) -> Result<(), AllocError>
        requires site { site < length at.now }
        requires marks { AreFreshMarks (length at.now) self.old }
        ensures marks { OnOk result (AreFreshMarks (length at.now) self.new) }
        ensures stays { OnOk result (StaysMarked self.old.fresh.items self.new.fresh.items) }
        ensures only { OnOk result ((p : ℕ) → is_marked self.new.fresh.items p ≡ true →
            (is_marked self.old.fresh.items p ≡ true)
            ⊎ ((labelling at.now p ≢ alpha) × (p ≡ site))) }
        ensures here { OnOk result
            (labelling at.now site ≢ alpha → is_marked self.new.fresh.items site ≡ true) }
    {
        if u32::from(at[site as usize]) != alpha {
            mark(&mut self.fresh, &mut self.fresh_sites, site)?;
        }
        Ok(())
    }

    /// Marks a site that changed and those beside it, of all that could take the label.
    fn mark_around(
        &mut self,
        pairs: &Pairs,
        ends: &Neighbours,
        at: &[u8],
        alpha: u32,
        site: u32,
    ) -> Result<(), AllocError>
        requires by_site { AreBySite pairs.now ends.now }
        requires sites { length at.now ≡ pairs.now.sites }
        requires site { site < length at.now }
        requires marks { AreFreshMarks (length at.now) self.old }
        ensures marks { OnOk result (AreFreshMarks (length at.now) self.new) }
        ensures stays { OnOk result (StaysMarked self.old.fresh.items self.new.fresh.items) }
        ensures only { OnOk result ((p : ℕ) → is_marked self.new.fresh.items p ≡ true →
            (is_marked self.old.fresh.items p ≡ true) ⊎ ((labelling at.now p ≢ alpha)
            × ((p ≡ site) ⊎ AreBeside pairs.now site p))) }
        ensures around { OnOk result
            (IsMarkedAround pairs.now ends.now alpha (labelling at.now) site
            (is_marked self.new.fresh.items)) }
    {
        self.mark_site(at, alpha, site)?;
        for index in 0..ends_at(pairs, ends, site) {
            let pair = pair_at(pairs, ends, site, index);
            self.mark_site(at, alpha, other_end(pair, site))?;
        }
        Ok(())
    }

    /// Marks the sites that changed since and those beside them, of all that could take the label.
    /// `stamps` has of each site the number of the move that last changed it; it changed since
    /// where that is above `since`.
    pub fn mark_fresh(
        &mut self,
        pairs: &Pairs,
        ends: &Neighbours,
        at: &[u8],
        alpha: u32,
        stamps: &[u32],
        since: u32,
    ) -> Result<(), AllocError>
        requires by_site { AreBySite pairs.now ends.now }
        requires sites { (length at.now ≡ pairs.now.sites) × (length stamps.now ≡ pairs.now.sites) }
        ensures fresh { OnOk result (AreFreshSites pairs.now alpha (labelling at.now)
            (changed_since stamps.now since) self.new) }
    {
        pairs.keeps();
        let count = pairs.sites();
        unmark_all(&mut self.fresh, count as usize)?;
        self.fresh_sites.clear();
        for site in 0..count {
            if stamps[site as usize] > since {
                self.mark_around(pairs, ends, at, alpha, site)?;
            }
        }
        Ok(())
    }
}
