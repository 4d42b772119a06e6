//! Deciding the sites that wait, one after another.
ghost use Rattle.std.specs.Prelude.{◌≡◌, ◌≢◌, ◌⊎◌, ◌<◌, ◌≤◌, ◌+◌, ◌*◌, ◌^◌, ℕ, Bool, length, Some};
ghost use Rattle.std.specs.Prelude.{unsigned_abs, OnOk, IsTrue, ◌↔◌, []};
ghost use Rattle.site_bounds.specs.Prelude.{IsSitePlace, pair_beside, degree};
ghost use Rattle.site_bounds.specs.Prelude.{Open, choice_at, bit_of, surplus_limit};
ghost use Rattle.site_bounds.specs.Prelude.{IsOverPairs, WhereRead, IsInBudget, ends_left};
ghost use Rattle.site_bounds.specs.Prelude.{total_left, summed_count, CanDecide, TellsValue};
ghost use Rattle.site_bounds.specs.Prelude.{IsMarked, StayDecided, HasBounds, IsBoundKnown};
ghost use Rattle.site_bounds.specs.Prelude.{IsSummed, IsWithinRange, AreWaiting, AreWaitingBut};
ghost use Rattle.site_bounds.specs.Prelude.{ArePartlyDecided, SeesPair, IsLooking, Shifts};
ghost use Rattle.site_bounds.specs.Prelude.{least_shift as least_shift_of};
ghost use Rattle.site_bounds.specs.Prelude.{greatest_shift as greatest_shift_of, greatest_total};

use crate::Bounds;
use move_energy::Choice;
use site_forms::{SiteForm, head_at, saving_beside};
use std::alloc::AllocError;

/// What is known of a variable once it has a value.
fn choice_of(value: bool) -> Choice
    ensures bit { (b : Bool) → bit_of result b ≡ value }
    ensures closed { result ≢ Open }
{
    if value { Choice::One } else { Choice::Zero }
}

/// What is added to the least rise of a site of which a neighbour got a value, and their pair has
/// this surplus.
fn least_shift(value: bool, surplus: i64) -> i64
    requires { unsigned_abs surplus ≤ surplus_limit }
    ensures value { result ≡ least_shift_of value surplus }
    ensures range { unsigned_abs result ≤ surplus_limit }
{
    if value { 0 } else { surplus }
}

/// What is added to the greatest rise.
fn greatest_shift(value: bool, surplus: i64) -> i64
    requires { unsigned_abs surplus ≤ surplus_limit }
    ensures value { result ≡ greatest_shift_of value surplus }
    ensures range { unsigned_abs result ≤ surplus_limit }
{
    if value { -surplus } else { 0 }
}

impl Bounds {
    /// Changes the bounds of a site of which a neighbour got a value, by their pair's surplus.
    fn shift_bounds(&mut self, site: usize, value: bool, surplus: i64)
        requires site { HasBounds site self.old }
        requires known { IsBoundKnown self.old site }
        requires surplus { unsigned_abs surplus ≤ surplus_limit }
        requires range { IsWithinRange (2 ^ 60) self.old }
        ensures shifts { Shifts site value surplus self.old self.new }
        ensures range { (most : ℕ) → IsWithinRange most self.old →
            IsWithinRange (most + surplus_limit) self.new }
        ensures total { greatest_total self.new ≤ greatest_total self.old + surplus_limit }
        ensures sized { (length self.new.least.items ≡ length self.old.least.items)
            × (length self.new.greatest.items ≡ length self.old.greatest.items) }
        ensures same { (self.new.choices ≡ self.old.choices)
            × (self.new.waiting ≡ self.old.waiting) × (self.new.summed ≡ self.old.summed) }
    {
        self.raise(
            site,
            least_shift(value, surplus),
            greatest_shift(value, surplus),
        );
    }

    /// Changes the bounds of a site of which a neighbour got a value. The site waits from now on if
    /// they tell its value and did not before.
    fn shift(&mut self, site: u32, value: bool, surplus: i64) -> Result<(), AllocError>
        requires site { HasBounds site self.old }
        requires known { IsBoundKnown self.old site }
        requires surplus { unsigned_abs surplus ≤ surplus_limit }
        requires range { IsWithinRange (2 ^ 60) self.old }
        ensures looking { OnOk result (IsLooking 1 self.old self.new) }
        ensures shifts { OnOk result (Shifts site value surplus self.old self.new) }
        ensures waiting { OnOk result
            ((n : ℕ) → site < n → AreWaiting n self.old → AreWaiting n self.new) }
    {
        let waits = self.can_decide(site as usize);
        self.shift_bounds(site as usize, value, surplus);
        if waits {
            return Ok(());
        }
        self.call_up(site)
    }

    /// Whether the bounds of a site are asked for: whether it was summed, and is open.
    fn has_bounds(&self, site: u32) -> bool
        requires { site < length self.now.choices.items }
        ensures { IsTrue result ↔ IsBoundKnown self.now site }
    {
        (site as usize) < self.summed && self.choices[site as usize].is_open()
    }

    /// Sees the pair at a place of a site with the site's value. A neighbour that was not summed
    /// sees it when it is.
    fn see(&mut self, form: &SiteForm, site: u32, place: u32, value: bool) -> Result<(), AllocError>
        requires over { IsOverPairs form.now }
        requires place { IsSitePlace form.now site place }
        requires sized { IsSummed (length form.now.at.now) self.old }
        requires range { IsWithinRange (2 ^ 60) self.old }
        requires waiting { AreWaiting (summed_count self.old) self.old }
        ensures looking { OnOk result (IsLooking 1 self.old self.new) }
        ensures waiting { OnOk result (AreWaiting (summed_count self.old) self.new) }
        ensures sees { OnOk result (WhereRead form.now (λ m move f.
            SeesPair m move f (summed_count self.old) site value
            (pair_beside form.now.ends.now site place) self.old self.new)) }
    {
        let head = head_at(form, site, place);
        if !self.has_bounds(head) {
            return Ok(());
        }
        let surplus = saving_beside(form, site, place, head);
        self.shift(head, value, surplus)
    }

    /// Gives a site its value.
    pub(crate) fn mark(&mut self, site: usize, value: bool)
        requires { site < length self.old.choices.items }
        ensures { IsMarked site value self.old self.new }
    {
        self.choices[site] = choice_of(value);
    }

    /// Decides a site, and sees each of its pairs with its value.
    fn decide(&mut self, form: &SiteForm, site: u32, value: bool) -> Result<(), AllocError>
        requires over { IsOverPairs form.now }
        requires site { (site < summed_count self.old)
            × (choice_at self.old.choices.items site ≡ Open) }
        requires sized { IsSummed (length form.now.at.now) self.old }
        requires range { IsWithinRange (2 ^ 59) self.old }
        requires waiting { AreWaitingBut (summed_count self.old) site self.old }
        ensures sized { OnOk result (IsSummed (length form.now.at.now) self.new) }
        ensures same { OnOk result (summed_count self.new ≡ summed_count self.old) }
        ensures waiting { OnOk result (AreWaiting (summed_count self.old) self.new) }
        ensures range { OnOk result ((most : ℕ) → IsWithinRange most self.old →
            IsWithinRange (most + surplus_limit * degree form.now.ends.now site) self.new) }
        ensures total { OnOk result (greatest_total self.new ≤
            greatest_total self.old + surplus_limit * degree form.now.ends.now site) }
        ensures more { OnOk result (length self.new.waiting.items ≤
            length self.old.waiting.items + degree form.now.ends.now site) }
        ensures left { OnOk result (ends_left form.now self.new + degree form.now.ends.now site
            ≡ ends_left form.now self.old) }
        ensures closed { OnOk result (StayDecided self.old self.new) }
        ensures decided { OnOk result (WhereRead form.now (λ m move f.
            TellsValue self.old site value →
            ArePartlyDecided m move f (summed_count self.old) self.old →
            ArePartlyDecided m move f (summed_count self.old) self.new)) }
    {
        self.mark(site as usize, value);
        let ends = form.ends;
        for place in ends.starts[site as usize]..ends.starts[site as usize + 1] {
            self.see(form, site, place, value)?;
        }
        Ok(())
    }

    /// The value that the bounds of a site tell: 0 where they tell both.
    pub(crate) fn told_value(&self, site: usize) -> bool
        requires site { (site < length self.now.least.items)
            × (site < length self.now.greatest.items) }
        requires told { CanDecide self.now site }
        ensures { TellsValue self.now site result }
    {
        self.least[site] < 0
    }

    /// Decides a site that waited, where its bounds tell its value.
    fn decide_told(&mut self, form: &SiteForm, site: u32) -> Result<(), AllocError>
        requires over { IsOverPairs form.now }
        requires site { site < summed_count self.old }
        requires budget { IsInBudget form.now self.old }
        requires waiting { AreWaitingBut (summed_count self.old) site self.old }
        ensures budget { OnOk result (IsInBudget form.now self.new) }
        ensures same { OnOk result (summed_count self.new ≡ summed_count self.old) }
        ensures waiting { OnOk result (AreWaiting (summed_count self.old) self.new) }
        ensures total { OnOk result (total_left form.now self.new ≤ total_left form.now self.old) }
        ensures less { OnOk result
            (length self.new.waiting.items + ends_left form.now self.new
            ≤ length self.old.waiting.items + ends_left form.now self.old) }
        ensures closed { OnOk result (StayDecided self.old self.new) }
        ensures decided { OnOk result (WhereRead form.now (λ m move f.
            ArePartlyDecided m move f (summed_count self.old) self.old →
            ArePartlyDecided m move f (summed_count self.old) self.new)) }
    {
        let place = site as usize;
        if !self.choices[place].is_open() || !self.can_decide(place) {
            return Ok(());
        }
        let value = self.told_value(place);
        self.decide(form, site, value)
    }

    /// Decides the sites that wait, and those whose values then can be told, until none is left.
    #[inline(always)]
    pub(crate) fn decide_waiting(&mut self, form: &SiteForm) -> Result<(), AllocError>
        requires over { IsOverPairs form.now }
        requires budget { IsInBudget form.now self.old }
        requires waiting { AreWaiting (summed_count self.old) self.old }
        ensures budget { OnOk result (IsInBudget form.now self.new) }
        ensures same { OnOk result (summed_count self.new ≡ summed_count self.old) }
        ensures waiting { OnOk result (AreWaiting (summed_count self.old) self.new) }
        ensures none { OnOk result (self.new.waiting.items ≡ []) }
        ensures closed { OnOk result (StayDecided self.old self.new) }
        ensures total { OnOk result (total_left form.now self.new ≤ total_left form.now self.old) }
        ensures decided { OnOk result (WhereRead form.now (λ m move f.
            ArePartlyDecided m move f (summed_count self.old) self.old →
            ArePartlyDecided m move f (summed_count self.old) self.new)) }
    {
        'deciding: while let Some(site) = self.waiting.pop() {
            self.decide_told(form, site)?;
        }
        Ok(())
    }
}
