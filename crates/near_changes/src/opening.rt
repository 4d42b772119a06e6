//! Opening the sites of a stage.
ghost use Rattle.std.specs.Prelude.{◌≡◌, ◌⊎◌, ◌==◌, ◌↔◌, ◌++◌, ◌∷◌, [], cond, not, ℕ, ◌+◌, ◌<◌};
ghost use Rattle.std.specs.Prelude.{◌≤◌, true, false, length, OnOk, IsTrue};
ghost use Rattle.std.specs.List.{All, Contains};
ghost use Rattle.label_field.specs.Limits.{site_limit};
ghost use Rattle.move_energy.specs.BySite.{AreBySite, IsListing};
ghost use Rattle.label_energies.specs.Energies.{labelling};
ghost use Rattle.move_energy.specs.declared.choice.Choice.TheVariants.{Zero, One};
ghost use Rattle.move_energy.specs.Choices.{choice_at, choice_of, is_open, open_at, value_of};
ghost use Rattle.move_energy.specs.Choices.{open_count, AreOpenSites, AreAssigned};
ghost use Rattle.near_changes.specs.Looking.{AreTaking};
ghost use Rattle.near_changes.specs.Working.{KeepsZeros, OpensWithin, LieWithin, WasLookedAt};
ghost use Rattle.near_changes.specs.Working.{AreLookedAt};

use crate::Stage;
use crate::stage::other_end;
use label_field::Pairs;
use move_energy::{Choice, Neighbours, ends_at, pair_at};
use std::alloc::AllocError;

/// At most so many rings of sites are opened around those that the first stage has to look at.
const FIRST_RINGS: usize = 20;

/// At most so many are opened by a later stage. What the first stage does not close may reach far,
/// and few wide stages cost less than many narrow ones.
const LATER_RINGS: usize = 48;

/// In the rings may be this many sites, one for each around which they lie, and so many for each
/// site that is open without them: in a first stage, which most often closes, fewer than later.
const RING_ROOM: usize = 16;

const FIRST_SHARE: usize = 1;

const LATER_SHARE: usize = 3;

/// So many sites are looked over at once for an open one.
const BLOCK: usize = 64;

/// What is known of a site before the first stage: it is at 0 if it has the label, and else counts
/// as 1.
fn first_choice(label: u32, alpha: u32) -> Choice
    ensures { result ≡ choice_of (not (label == alpha)) }
{
    if label == alpha {
        Choice::Zero
    } else {
        Choice::One
    }
}

/// The value that a cut showed.
fn choice_of(bit: bool) -> Choice
    ensures { result ≡ choice_of bit }
{
    if bit { Choice::One } else { Choice::Zero }
}

/// The choice of each site before the first stage.
fn choose_each(choices: &mut [Choice], at: &[u8], alpha: u32)
    requires { length choices.old ≡ length at.now }
    ensures { (p : ℕ) → p < length at.now →
        choice_at choices.new p ≡ choice_of (not (labelling at.now p == alpha)) }
{
    for site in 0..at.len() {
        choices[site] = first_choice(u32::from(at[site]), alpha);
    }
}

/// The choices before the first stage.
pub fn choose_first(choices: &mut Vec<Choice>, at: &[u8], alpha: u32) -> Result<(), AllocError>
    ensures count { OnOk result (length choices.new.items ≡ length at.now) }
    ensures each { OnOk result ((p : ℕ) → p < length at.now →
        choice_at choices.new.items p ≡ choice_of (not (labelling at.now p == alpha))) }
{
    choices.resize(at.len(), Choice::One)?;
    choose_each(choices.as_mut_slice(), at, alpha);
    Ok(())
}

/// The sites from one on, before another.
#[derive(Clone, Copy)]
pub struct Window {
    pub from: u32,
    pub to: u32,
}

/// Opens a site of a window that was not looked at. It answers whether it was one.
fn open_site(choices: &mut Vec<Choice>, site: u32, window: Window) -> bool
    requires { site < length choices.old.items }
    ensures opened { OpensWithin window choices.old.items choices.new.items }
    ensures looked { window.from ≤ site → site < window.to → WasLookedAt choices.new.items site }
{
    let opens = match choices[site as usize] {
        Choice::One => window.from <= site && site < window.to,
        Choice::Open | Choice::Zero => false,
    };
    if opens {
        choices[site as usize] = Choice::Open;
    }
    opens
}

/// Opens those of the sites that are of a window and were not looked at.
fn open_all(choices: &mut Vec<Choice>, sites: &[u32], window: Window)
    requires { All (λ p. p < length choices.old.items) sites.now }
    ensures opened { OpensWithin window choices.old.items choices.new.items }
    ensures looked { AreLookedAt window sites.now choices.new.items }
{
    for index in 0..sites.len() {
        open_site(choices, sites[index], window);
    }
}

/// Whether a site was not looked at.
fn is_new(choice: Choice) -> bool
    ensures { IsTrue result ↔ choice ≡ One }
{
    match choice {
        Choice::One => true,
        Choice::Open | Choice::Zero => false,
    }
}

/// Lists those of the sites that were not looked at.
fn list_new(list: &mut Vec<u32>, choices: &[Choice], sites: &[u32]) -> Result<(), AllocError>
    requires { All (λ p. p < length choices.now) sites.now }
    ensures inside { OnOk result (All (λ p. p < length choices.now) list.new.items) }
    ensures listed { OnOk result
        (All (λ p. WasLookedAt choices.now p ⊎ Contains list.new.items p) sites.now) }
{
    list.clear();
    for index in 0..sites.len() {
        let site = sites[index];
        if is_new(choices[site as usize]) {
            list.push(site)?;
        }
    }
    Ok(())
}

/// What the cut of a stage showed: the open sites are at 0 or count as 1.
fn assign(choices: &mut Vec<Choice>, opened: &[u32], bits: &[bool])
    requires listed { AreOpenSites choices.old.items opened.now }
    requires bits { length bits.now ≡ open_count choices.old.items }
    ensures { AreAssigned choices.old.items bits.now choices.new.items }
{
    for index in 0..opened.len() {
        choices[opened[index] as usize] = choice_of(bits[index]);
    }
}

/// Adds a site to a list where it is open.
fn add_open(list: &mut Vec<u32>, site: u32, choice: Choice) -> Result<(), AllocError>
    ensures { OnOk result (list.new.items
        ≡ list.old.items ++ cond (is_open choice) (site ∷ []) []) }
{
    if choice.is_open() {
        list.push(site)?;
    }
    Ok(())
}

/// Whether one of the sites from one on, before another, is open.
fn has_open(choices: &[Choice], from: usize, to: usize) -> bool
    requires { to ≤ length choices.now }
    ensures { result ≡ false → (p : ℕ) → from ≤ p → p < to → open_at choices.now p ≡ false }
{
    let mut any = false;
    for site in from..to {
        if choices[site].is_open() {
            any = true;
        }
    }
    any
}

/// Adds the open ones of the sites from one on, before another, to the list of those before these.
fn list_block(
    opened: &mut Vec<u32>,
    choices: &[Choice],
    from: usize,
    to: usize,
) -> Result<(), AllocError>
    requires block { (from ≤ to) × (to ≤ length choices.now) }
    requires few { length choices.now ≤ site_limit }
    requires listed { IsListing (open_at choices.now) from opened.old.items }
    ensures { OnOk result (IsListing (open_at choices.now) to opened.new.items) }
{
    if !has_open(choices, from, to) {
        return Ok(());
    }
    for site in from..to {
        add_open(opened, site as u32, choices[site])?;
    }
    Ok(())
}

/// Lists the open sites, which lie in a window. They are few, so that most blocks of its sites are
/// passed over at once. No other site is looked at.
fn list_open(opened: &mut Vec<u32>, choices: &[Choice], window: Window) -> Result<(), AllocError>
    requires few { length choices.now ≤ site_limit }
    requires within { LieWithin window choices.now }
    ensures { OnOk result (AreOpenSites choices.now opened.new.items) }
{
    opened.clear();
    let end = choices.len().min(window.to as usize);
    let mut from = end.min(window.from as usize);
    while from < end {
        let to = end.min(from + BLOCK);
        list_block(opened, choices, from, to)?;
        from = to;
    }
    Ok(())
}

/// Opens the sites of a window beside a site that were not looked at, and lists them.
fn open_beside(
    pairs: &Pairs,
    ends: &Neighbours,
    choices: &mut Vec<Choice>,
    ring: &mut Vec<u32>,
    site: u32,
    window: Window,
) -> Result<(), AllocError>
    requires by_site { AreBySite pairs.now ends.now }
    requires sites { length choices.old.items ≡ pairs.now.sites }
    requires site { site < pairs.now.sites }
    requires inside { All (λ p. p < pairs.now.sites) ring.old.items }
    ensures opened { OnOk result (OpensWithin window choices.old.items choices.new.items) }
    ensures inside { OnOk result (All (λ p. p < pairs.now.sites) ring.new.items) }
    ensures more { OnOk result (length ring.old.items ≤ length ring.new.items) }
{
    for index in 0..ends_at(pairs, ends, site) {
        let other = other_end(pair_at(pairs, ends, site, index), site);
        if open_site(choices, other, window) {
            ring.push(other)?;
        }
    }
    Ok(())
}

/// Opens a ring: the sites beside those that are listed from a place on, of those of a window that
/// were not looked at. They are listed too.
fn open_ring(
    pairs: &Pairs,
    ends: &Neighbours,
    choices: &mut Vec<Choice>,
    ring: &mut Vec<u32>,
    from: usize,
    window: Window,
) -> Result<(), AllocError>
    requires by_site { AreBySite pairs.now ends.now }
    requires sites { length choices.old.items ≡ pairs.now.sites }
    requires inside { All (λ p. p < pairs.now.sites) ring.old.items }
    ensures opened { OnOk result (OpensWithin window choices.old.items choices.new.items) }
    ensures inside { OnOk result (All (λ p. p < pairs.now.sites) ring.new.items) }
{
    for index in from..ring.len() {
        let site = ring[index];
        open_beside(pairs, ends, choices, ring, site, window)?;
    }
    Ok(())
}

/// At most so many rings, until so many sites are listed.
#[derive(Clone, Copy)]
struct Rings {
    count: usize,
    most: usize,
}

/// Opens rings around the listed sites, at most so many and within a window, until so many sites
/// are listed.
fn open_rings(
    pairs: &Pairs,
    ends: &Neighbours,
    choices: &mut Vec<Choice>,
    ring: &mut Vec<u32>,
    rings: Rings,
    window: Window,
) -> Result<(), AllocError>
    requires by_site { AreBySite pairs.now ends.now }
    requires sites { length choices.old.items ≡ pairs.now.sites }
    requires inside { All (λ p. p < pairs.now.sites) ring.old.items }
    ensures opened { OnOk result (OpensWithin window choices.old.items choices.new.items) }
    ensures inside { OnOk result (All (λ p. p < pairs.now.sites) ring.new.items) }
{
    let mut from = 0;
    for _ in 0..rings.count {
        let to = ring.len();
        if to < rings.most {
            open_ring(pairs, ends, choices, ring, from, window)?;
        }
        from = to;
    }
    Ok(())
}

/// With the rings so many sites are listed, where so many lie at the front and so many are open
/// without the rings, by the share of these.
fn most_listed(front: usize, open: usize, share: usize) -> usize {
    open.saturating_mul(share)
        .saturating_add(front)
        .saturating_add(front)
        .saturating_add(RING_ROOM)
}

impl Stage {
    /// The choices of the first stage: sites that have the label are at 0, fresh sites and rings
    /// around them are open, and all others count as 1. `opened` lists the open ones.
    pub fn open_first(
        &mut self,
        choices: &mut Vec<Choice>,
        pairs: &Pairs,
        ends: &Neighbours,
        at: &[u8],
        alpha: u32,
    ) -> Result<(), AllocError>
        requires by_site { AreBySite pairs.now ends.now }
        requires sites { length at.now ≡ pairs.now.sites }
        requires inside { All (λ p. p < pairs.now.sites) self.old.fresh_sites.items }
        ensures count { OnOk result (length choices.new.items ≡ length at.now) }
        ensures zeros { OnOk result ((p : ℕ) → p < length at.now →
            (choice_at choices.new.items p ≡ Zero ↔ labelling at.now p ≡ alpha)) }
        ensures looked { OnOk result
            (All (λ p. WasLookedAt choices.new.items p) self.old.fresh_sites.items) }
        ensures opened { OnOk result (AreOpenSites choices.new.items self.new.opened.items) }
        ensures same { (self.new.fresh ≡ self.old.fresh)
            × (self.new.fresh_sites ≡ self.old.fresh_sites) }
    {
        choose_first(choices, at, alpha)?;
        let window = Window {
            from: 0,
            to: pairs.sites(),
        };
        self.open_fresh(choices, pairs, ends, window)
    }

    /// Opens the fresh sites that were not looked at, and rings around them, of those of a window.
    /// `opened` lists all that are open.
    pub fn open_fresh(
        &mut self,
        choices: &mut Vec<Choice>,
        pairs: &Pairs,
        ends: &Neighbours,
        window: Window,
    ) -> Result<(), AllocError>
        requires by_site { AreBySite pairs.now ends.now }
        requires sites { length choices.old.items ≡ pairs.now.sites }
        requires inside { All (λ p. p < pairs.now.sites) self.old.fresh_sites.items }
        ensures zeros { OnOk result (KeepsZeros choices.old.items choices.new.items) }
        ensures looked { OnOk result
            (AreLookedAt window self.old.fresh_sites.items choices.new.items) }
        ensures opened { OnOk result (AreOpenSites choices.new.items self.new.opened.items) }
        ensures same { (self.new.fresh ≡ self.old.fresh)
            × (self.new.fresh_sites ≡ self.old.fresh_sites) }
    {
        pairs.keeps();
        list_new(&mut self.front, choices, &self.fresh_sites)?;
        self.open_front(choices, pairs, ends, window)
    }

    /// Opens the sites of `front` that were not looked at, and rings around them, of those of a
    /// window. `opened` lists all that are open.
    pub fn open_front(
        &mut self,
        choices: &mut Vec<Choice>,
        pairs: &Pairs,
        ends: &Neighbours,
        window: Window,
    ) -> Result<(), AllocError>
        requires by_site { AreBySite pairs.now ends.now }
        requires sites { length choices.old.items ≡ pairs.now.sites }
        requires inside { All (λ p. p < pairs.now.sites) self.old.front.items }
        ensures zeros { OnOk result (KeepsZeros choices.old.items choices.new.items) }
        ensures looked { OnOk result
            ((p : ℕ) → WasLookedAt choices.old.items p → WasLookedAt choices.new.items p) }
        ensures front { OnOk result (AreLookedAt window self.old.front.items choices.new.items) }
        ensures opened { OnOk result (AreOpenSites choices.new.items self.new.opened.items) }
        ensures same { (self.new.fresh ≡ self.old.fresh)
            × (self.new.fresh_sites ≡ self.old.fresh_sites) }
    {
        pairs.keeps();
        open_all(choices, &self.front, window);
        let rings = Rings {
            count: FIRST_RINGS,
            most: most_listed(self.front.len(), self.front.len(), FIRST_SHARE),
        };
        open_rings(pairs, ends, choices, &mut self.front, rings, window)?;
        let all = Window {
            from: 0,
            to: pairs.sites(),
        };
        list_open(&mut self.opened, choices, all)
    }

    /// The choices of the next stage: what the cut showed to be 0 is 0 for good; the parts that
    /// hold a fresh site, `front` and rings around it are open as far as they are of a window, and
    /// all else counts as 1. `opened` lists the open ones. Sites beyond the window are not passed.
    pub fn reopen(
        &mut self,
        choices: &mut Vec<Choice>,
        pairs: &Pairs,
        ends: &Neighbours,
        bits: &[bool],
        window: Window,
    ) -> Result<(), AllocError>
        requires by_site { AreBySite pairs.now ends.now }
        requires sites { length choices.old.items ≡ pairs.now.sites }
        requires listed { AreOpenSites choices.old.items self.old.opened.items }
        requires bits { length bits.now ≡ open_count choices.old.items }
        requires taking { AreTaking pairs.now.sites self.old }
        ensures count { OnOk result (length choices.new.items ≡ length choices.old.items) }
        ensures zeros { OnOk result ((p : ℕ) → p < length choices.old.items →
            (choice_at choices.new.items p ≡ Zero
            ↔ value_of choices.old.items bits.now p ≡ false)) }
        ensures taking { OnOk result
            (AreLookedAt window self.old.taking.items choices.new.items) }
        ensures front { OnOk result (AreLookedAt window self.old.front.items choices.new.items) }
        ensures opened { OnOk result (AreOpenSites choices.new.items self.new.opened.items) }
        ensures same { (self.new.fresh ≡ self.old.fresh)
            × (self.new.fresh_sites ≡ self.old.fresh_sites) }
    {
        pairs.keeps();
        assign(choices, &self.opened, bits);
        open_all(choices, &self.taking, window);
        open_all(choices, &self.front, window);
        let rings = Rings {
            count: LATER_RINGS,
            most: most_listed(
                self.front.len(),
                self.taking.len() + self.front.len(),
                LATER_SHARE,
            ),
        };
        open_rings(pairs, ends, choices, &mut self.front, rings, window)?;
        list_open(&mut self.opened, choices, window)
    }
}
