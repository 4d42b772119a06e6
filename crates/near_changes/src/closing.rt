//! Finding what takes the label after a stage, and whether that ends the move.
ghost use Rattle.std.specs.Prelude.{◌≡◌, ℕ, ◌<◌, true, false, length, IsTrue};
ghost use Rattle.std.specs.Prelude.{IfOk, OnOk};
ghost use Rattle.std.specs.List.{All, Contains};
ghost use Rattle.move_energy.specs.BySite.{AreBySite};
ghost use Rattle.move_energy.specs.Choices.{choice_at, value_of, open_count, IsNumbering};
ghost use Rattle.near_changes.specs.Looking.{is_marked, AreTaking, IsClosedIn};
ghost use Rattle.near_changes.specs.Working.{AreShown, IsWider, IsSiteSeen, AreSeenAround};
ghost use Rattle.near_changes.specs.Working.{HasBits, KeepsFresh};

use crate::Stage;
use crate::stage::{mark, other_end, unmark_all};
use label_field::Pairs;
use move_energy::{Choice, Neighbours, ends_at, pair_at};
use std::alloc::AllocError;

/// What the cut of a stage showed: the choices before it, the numbers of the open sites' variables,
/// and the values of these.
#[derive(Clone, Copy)]
pub(crate) struct StageCut<'a> {
    pub choices: &'a [Choice],
    pub numbers: &'a [u32],
    pub bits: &'a [bool],
}

/// What the cut of a stage showed of a site, or what was known: whether it counts as 1.
fn value_at(cut: &StageCut, site: u32) -> bool
    requires cut { HasBits cut.now }
    requires site { site < length cut.now.choices.now }
    ensures { result ≡ value_of cut.now.choices.now cut.now.bits.now site }
{
    match cut.choices[site as usize] {
        Choice::Open => cut.bits[cut.numbers[site as usize] as usize],
        Choice::Zero => false,
        Choice::One => true,
    }
}

impl Stage {
    /// Sees a site that is fresh, or beside one that takes the label: it takes the label too if the
    /// cut showed it at 1, and is to be opened if it was not looked at.
    fn see(&mut self, cut: &StageCut, site: u32) -> Result<(), AllocError>
        requires cut { HasBits cut.now }
        requires site { site < length cut.now.choices.now }
        requires shown { AreShown cut.now.choices.now cut.now.bits.now self.old }
        ensures shown { OnOk result (AreShown cut.now.choices.now cut.now.bits.now self.new) }
        ensures wider { OnOk result (IsWider self.old self.new) }
        ensures seen { OnOk result
            (IsSiteSeen cut.now.choices.now cut.now.bits.now site self.new) }
        ensures same { KeepsFresh self.old self.new }
    {
        if !value_at(cut, site) {
            return Ok(());
        }
        if cut.choices[site as usize].is_open() {
            return mark(&mut self.taken, &mut self.taking, site);
        }
        self.front.push(site)?;
        Ok(())
    }

    /// Sees the sites beside a site.
    fn see_around(
        &mut self,
        pairs: &Pairs,
        ends: &Neighbours,
        cut: &StageCut,
        site: u32,
    ) -> Result<(), AllocError>
        requires by_site { AreBySite pairs.now ends.now }
        requires sites { length cut.now.choices.now ≡ pairs.now.sites }
        requires cut { HasBits cut.now }
        requires site { site < length cut.now.choices.now }
        requires shown { AreShown cut.now.choices.now cut.now.bits.now self.old }
        ensures shown { OnOk result (AreShown cut.now.choices.now cut.now.bits.now self.new) }
        ensures wider { OnOk result (IsWider self.old self.new) }
        ensures seen { OnOk result (AreSeenAround pairs.now ends.now
            cut.now.choices.now cut.now.bits.now site self.new) }
        ensures same { KeepsFresh self.old self.new }
    {
        for index in 0..ends_at(pairs, ends, site) {
            let pair = pair_at(pairs, ends, site, index);
            self.see(cut, other_end(pair, site))?;
        }
        Ok(())
    }

    /// Sees the fresh sites.
    fn see_fresh(&mut self, cut: &StageCut) -> Result<(), AllocError>
        requires cut { HasBits cut.now }
        requires inside { All (λ p. p < length cut.now.choices.now) self.old.fresh_sites.items }
        requires shown { AreShown cut.now.choices.now cut.now.bits.now self.old }
        ensures shown { OnOk result (AreShown cut.now.choices.now cut.now.bits.now self.new) }
        ensures seen { OnOk result (All
            (λ p. IsSiteSeen cut.now.choices.now cut.now.bits.now p self.new)
            self.old.fresh_sites.items) }
        ensures same { KeepsFresh self.old self.new }
    {
        for index in 0..self.fresh_sites.len() {
            let site = self.fresh_sites[index];
            self.see(cut, site)?;
        }
        Ok(())
    }

    /// Sees the sites beside each that takes the label, those that are taken meanwhile too. It
    /// answers whether it came to the end, which it does, since a site is taken once.
    fn see_beside(
        &mut self,
        pairs: &Pairs,
        ends: &Neighbours,
        cut: &StageCut,
    ) -> Result<bool, AllocError>
        requires by_site { AreBySite pairs.now ends.now }
        requires sites { length cut.now.choices.now ≡ pairs.now.sites }
        requires cut { HasBits cut.now }
        requires shown { AreShown cut.now.choices.now cut.now.bits.now self.old }
        ensures shown { OnOk result (AreShown cut.now.choices.now cut.now.bits.now self.new) }
        ensures wider { OnOk result (IsWider self.old self.new) }
        ensures seen { IfOk result (λ end. IsTrue end →
            All (λ p. AreSeenAround pairs.now ends.now cut.now.choices.now
            cut.now.bits.now p self.new) self.new.taking.items) }
        ensures same { KeepsFresh self.old self.new }
    {
        for index in 0..cut.choices.len() {
            if index >= self.taking.len() {
                return Ok(true);
            }
            let site = self.taking[index];
            self.see_around(pairs, ends, cut, site)?;
        }
        Ok(self.taking.len() <= cut.choices.len())
    }

    /// Finds the parts of what the cut of a stage showed at 1 that hold a fresh site, and answers
    /// whether they are closed: whether no pair leads from them to a site that was not looked at
    /// and could take the label, and no fresh site was left out. Then they are what takes the label
    /// (Boykov, Veksler, Zabih, PAMI 2001, for what an expansion is). Where they are not closed,
    /// `front` has sites to open next. `numbers` are the numbers of the open sites' variables, and
    /// `bits` the values of these.
    ///
    /// It takes time in proportion to the sites, one byte each, and to the fresh and taken ones and
    /// their pairs.
    pub fn close(
        &mut self,
        pairs: &Pairs,
        ends: &Neighbours,
        choices: &[Choice],
        numbers: &[u32],
        bits: &[bool],
    ) -> Result<bool, AllocError>
        requires by_site { AreBySite pairs.now ends.now }
        requires sites { length choices.now ≡ pairs.now.sites }
        requires numbering { IsNumbering choices.now numbers.now }
        requires bits { length bits.now ≡ open_count choices.now }
        requires fresh { (p : ℕ) → p < pairs.now.sites → is_marked self.old.fresh.items p ≡ true →
            Contains self.old.fresh_sites.items p }
        requires inside { All (λ p. p < pairs.now.sites) self.old.fresh_sites.items }
        ensures closed { IfOk result (λ closed. IsTrue closed → IsClosedIn pairs.now
            (value_of choices.now bits.now) (choice_at choices.now) (is_marked self.new.taken.items)
            (is_marked self.new.fresh.items)) }
        ensures taking { OnOk result (AreTaking pairs.now.sites self.new) }
        ensures same { KeepsFresh self.old self.new }
    {
        pairs.keeps();
        unmark_all(&mut self.taken, choices.len())?;
        self.taking.clear();
        self.front.clear();
        let cut = StageCut {
            choices,
            numbers,
            bits,
        };
        self.see_fresh(&cut)?;
        let end = self.see_beside(pairs, ends, &cut)?;
        Ok(end && self.front.is_empty())
    }
}
