//! The sites of a move one after another: each is summed, and decided at once where its bounds tell
//! its value.
ghost use Rattle.std.specs.Prelude.{◌≡◌, ◌≢◌, ◌<◌, ◌≤◌, ◌↔◌, ℕ, replicate, length, OnOk};
ghost use Rattle.site_bounds.specs.Prelude.{labelling, Open, Zero, One, choice_at};
ghost use Rattle.site_bounds.specs.Prelude.{Changes, CoversOpen, AreOpenSites, site_limit};
ghost use Rattle.site_bounds.specs.Prelude.{label_limit};
ghost use Rattle.label_energies.specs.declared.change.Move.TheVariants.{Swap};
ghost use Rattle.site_bounds.specs.Prelude.{IsOverPairs, IsInBudget, SumsSite};
ghost use Rattle.site_bounds.specs.Prelude.{summed_count, IsSummed, IsNoneSummed};
ghost use Rattle.site_bounds.specs.Prelude.{HasBounds, IsAnswered, AddsBounds, AreClosed};
ghost use Rattle.site_bounds.specs.Prelude.{PassesClosed, AreUndecided, AreUnsummed};
ghost use Rattle.site_bounds.specs.Prelude.{AreWaiting, SumsNext, EndsSites, DecidesSites};

use crate::Bounds;
use crate::label_sites::LabelSites;
use crate::swapped::mark_open;
use label_energies::Move;
use move_energy::Choice;
use site_forms::{SiteForm, site_rises};
use std::alloc::AllocError;

/// What is known of a site before anything is summed. Where the move cannot change its label its
/// value makes no difference, and is 0.
fn first_choice(change: Move, label: u32) -> Choice
    ensures opened { (result ≡ Open) ↔ Changes change label }
    ensures none { result ≢ One }
{
    if change.can_change(label) {
        Choice::Open
    } else {
        Choice::Zero
    }
}

/// What is known of each site before anything is summed.
fn choose_each(choices: &mut [Choice], at: &[u8], change: Move)
    requires { length choices.old ≡ length at.now }
    ensures opened { (p : ℕ) → p < length at.now →
        (choice_at choices.new p ≡ Open ↔ Changes change (labelling at.now p)) }
    ensures none { (p : ℕ) → p < length at.now → choice_at choices.new p ≢ One }
{
    for site in 0..at.len() {
        choices[site] = first_choice(change, u32::from(at[site]));
    }
}

/// The next open site from one on, or how many sites there are where none is.
fn next_open(choices: &[Choice], from: usize) -> usize
    requires { from ≤ length choices.now }
    ensures within { (from ≤ result) × (result ≤ length choices.now) }
    ensures closed { (u : ℕ) → from ≤ u → u < result → choice_at choices.now u ≢ Open }
    ensures opened { result < length choices.now → choice_at choices.now result ≡ Open }
{
    let mut site = from;
    while site < choices.len() && !choices[site].is_open() {
        site += 1;
    }
    site
}

impl Bounds {
    /// Forgets what was known: so many sites are at 0, and none is summed. What their bounds are
    /// means nothing then.
    fn begin(&mut self, sites: usize) -> Result<(), AllocError>
        ensures closed { OnOk result (self.new.choices.items ≡ replicate sites Zero) }
        ensures unsummed { OnOk result (IsNoneSummed self.new) }
    {
        self.choices.clear();
        self.choices.resize(sites, Choice::Zero)?;
        self.summed = 0;
        self.waiting.clear();
        Ok(())
    }

    /// Opens the sites that the move can change. The others are at 0, and none is summed.
    pub(crate) fn open_sites(&mut self, at: &[u8], change: Move) -> Result<(), AllocError>
        ensures undecided { OnOk result (AreUndecided change at.now self.new) }
    {
        self.begin(at.len())?;
        choose_each(self.choices.as_mut_slice(), at, change);
        Ok(())
    }

    /// Opens the sites that a swap can change, and lists them. The others are at 0, and none is
    /// summed.
    pub(crate) fn open_swapped(
        &mut self,
        by_label: &mut LabelSites,
        swapped: &mut Vec<u32>,
        at: &[u8],
        alpha: u32,
        beta: u32,
    ) -> Result<(), AllocError>
        requires small { length at.now ≤ site_limit }
        requires labels { (alpha < label_limit) × (beta < label_limit) }
        ensures undecided { OnOk result (AreUndecided (Swap alpha beta) at.now self.new) }
        ensures listed { OnOk result (AreOpenSites self.new.choices.items swapped.new.items) }
    {
        by_label.list(swapped, at, alpha as u8, beta as u8)?;
        self.begin(at.len())?;
        mark_open(&mut self.choices, swapped);
        Ok(())
    }

    /// Makes room for two bounds of each site. Those of the last move stay where they are.
    fn make_room(&mut self) -> Result<(), AllocError>
        requires { summed_count self.old ≤ length self.old.choices.items }
        ensures sized { OnOk result (IsSummed (length self.old.choices.items) self.new) }
        ensures same { (self.new.choices ≡ self.old.choices)
            × (self.new.waiting ≡ self.old.waiting) × (self.new.summed ≡ self.old.summed) }
    {
        let sites = self.choices.len();
        self.least.resize(sites, 0)?;
        self.greatest.resize(sites, 0)?;
        Ok(())
    }

    /// Passes over the closed sites before one.
    fn pass_to(&mut self, to: usize)
        requires to { (summed_count self.old ≤ to) × (to ≤ length self.old.choices.items) }
        requires closed { AreClosed (summed_count self.old) to self.old }
        ensures { PassesClosed to self.old self.new }
    {
        self.summed = to;
    }

    /// Writes the bounds of the next site.
    fn add_bounds(&mut self, site: usize, least: i64, greatest: i64)
        requires site { HasBounds site self.old }
        ensures { AddsBounds site least greatest self.old self.new }
    {
        self.least[site] = least;
        self.greatest[site] = greatest;
        self.summed = site + 1;
    }

    /// Decides the site that was summed last if its bounds tell its value and no open site before
    /// it is beside it: then none has to be told. Else it waits, if they tell it.
    fn answer(&mut self, site: u32, beside: bool) -> Result<(), AllocError>
        requires bounds { HasBounds site self.old }
        requires choice { site < length self.old.choices.items }
        ensures { OnOk result (IsAnswered site beside self.old self.new) }
    {
        if beside {
            return self.call_up(site);
        }
        if !self.can_decide(site as usize) {
            return Ok(());
        }
        let value = self.told_value(site as usize);
        self.mark(site as usize, value);
        Ok(())
    }

    /// Sums the next site, which is open, and decides it or lets it wait if its bounds tell its
    /// value.
    #[inline(always)]
    fn sum_site(&mut self, form: &SiteForm, site: u32) -> Result<(), AllocError>
        requires over { IsOverPairs form.now }
        requires site { (site < length form.now.at.now) × (summed_count self.old ≡ site) }
        requires bounds { HasBounds site self.old }
        requires opened { choice_at self.old.choices.items site ≡ Open }
        requires budget { IsInBudget form.now self.old }
        requires waiting { AreWaiting site self.old }
        ensures { OnOk result (SumsSite form.now site self.old self.new) }
    {
        let rises = site_rises(form, &self.choices, site);
        self.add_bounds(site as usize, rises.least, rises.greatest);
        self.answer(site, rises.beside)
    }

    /// Sums the next open site, decides it if its bounds tell its value, and so all sites whose
    /// values then can be told among those that were summed before.
    #[inline(always)]
    fn sum_next(&mut self, form: &SiteForm, site: u32) -> Result<(), AllocError>
        requires over { IsOverPairs form.now }
        requires site { (site < length form.now.at.now) × (summed_count self.old ≤ site) }
        requires closed { AreClosed (summed_count self.old) site self.old }
        requires opened { choice_at self.old.choices.items site ≡ Open }
        requires budget { IsInBudget form.now self.old }
        requires waiting { AreWaiting (summed_count self.old) self.old }
        ensures { OnOk result (SumsNext form.now site self.old self.new) }
    {
        self.pass_to(site as usize);
        self.sum_site(form, site)?;
        self.decide_waiting(form)
    }

    /// Passes over the closed sites behind the last open one.
    fn pass_rest(&mut self, form: &SiteForm)
        requires budget { IsInBudget form.now self.old }
        requires within { summed_count self.old ≤ length form.now.at.now }
        requires closed { AreClosed (summed_count self.old) (length form.now.at.now) self.old }
        requires waiting { AreWaiting (summed_count self.old) self.old }
        ensures { EndsSites form.now self.old self.new }
    {
        self.pass_to(form.at.len());
    }

    /// Sums the sites one after another, but those that are decided already. Each whose bounds tell
    /// its value is decided at once, and so are those whose values then can be told among the sites
    /// that were summed before.
    pub(crate) fn decide_sites(&mut self, form: &SiteForm) -> Result<(), AllocError>
        requires over { IsOverPairs form.now }
        requires unsummed { AreUnsummed (length form.now.at.now) self.old }
        ensures { OnOk result (DecidesSites form.now self.old self.new) }
    {
        self.make_room()?;
        let sites = form.at.len();
        let mut site = 0usize;
        while site < sites {
            let next = next_open(&self.choices, site);
            if next == sites {
                break;
            }
            self.sum_next(form, next as u32)?;
            site = next + 1;
        }
        self.pass_rest(form);
        Ok(())
    }

    /// The same, where each open site is among these: no other is looked at.
    pub(crate) fn decide_among(&mut self, form: &SiteForm, sites: &[u32]) -> Result<(), AllocError>
        requires over { IsOverPairs form.now }
        requires unsummed { AreUnsummed (length form.now.at.now) self.old }
        requires among { CoversOpen self.old.choices.items sites.now }
        ensures { OnOk result (DecidesSites form.now self.old self.new) }
    {
        self.make_room()?;
        for place in 0..sites.len() {
            let site = sites[place];
            if self.choices[site as usize].is_open() {
                self.sum_next(form, site)?;
            }
        }
        self.pass_rest(form);
        Ok(())
    }
}
