//! The sites of each label, linked in rising order. A swap finds its sites by them, and looks at no
//! other.
ghost use Rattle.std.specs.Prelude.{◌≡◌, ◌≢◌, ◌+◌, ◌<◌, ◌≤◌, ℕ, Bool, true, false, All};
ghost use Rattle.std.specs.Prelude.{length, OnOk, IsTrue, replicate, slice_index};
ghost use Rattle.label_energies.specs.Energies.{labelling};
ghost use Rattle.label_energies.specs.declared.change.Move.TheVariants.{Swap};
ghost use Rattle.label_field.specs.Limits.{site_limit};
ghost use Rattle.move_energy.specs.BySite.{IsListing};
ghost use Rattle.site_bounds.specs.Linked.{AreLinked, AreLinkedAndListed, AreLinkedFrom};
ghost use Rattle.site_bounds.specs.Linked.{AreOthersLinked, is_either_label};
ghost use Rattle.site_bounds.specs.Swapped.{can_turn, has_either};

use std::alloc::{AllocError, Global};

/// There are at most so many labels.
const LABELS: usize = 256;

/// The sites of each label in rising order, as links: of each label its first site, and of each
/// site the next one of its label, or as many as there are sites where there is none. They are kept
/// from swap to swap, and take 5 bytes a site, and 4 for each site that the last swap could change.
#[derive(Drop)]
pub struct LabelSites {
    /// Whether the sites are linked by these labels.
    linked: bool,
    at: Vec<u8>,
    firsts: Vec<u32>,
    nexts: Vec<u32>,
    /// The sites that had a label of the last swap.
    own: Vec<u32>,
    alpha: u8,
    beta: u8,
    ghost links: { IsTrue linked
        → AreLinkedAndListed at.items firsts.items nexts.items own.items alpha beta },
}

/// Whether a label is one of two.
fn is_either(label: u8, one: u8, other: u8) -> bool
    ensures { result ≡ is_either_label one other label }
{
    label == one || label == other
}

/// Links a site before the later ones of its label.
fn link_site(firsts: &mut [u32], nexts: &mut [u32], at: &[u8], site: u32)
    requires sizes { (length firsts.old ≡ 256) × (length nexts.old ≡ length at.now) }
    requires site { site < length at.now }
    ensures sizes { (length firsts.new ≡ 256) × (length nexts.new ≡ length at.now) }
    ensures linked { (some : ℕ → Bool) → some (labelling at.now site) ≡ true →
        AreLinkedFrom some (site + 1) (length at.now) (labelling at.now) firsts.old nexts.old →
        AreLinkedFrom some site (length at.now) (labelling at.now) firsts.new nexts.new }
{
    let label = at[site as usize] as usize;
    nexts[site as usize] = firsts[label];
    firsts[label] = site;
}

/// Links all sites, of which none is linked.
fn link_each(firsts: &mut [u32], nexts: &mut [u32], at: &[u8])
    requires none { firsts.old ≡ replicate 256 (length at.now) }
    requires size { length nexts.old ≡ length at.now }
    requires small { length at.now ≤ site_limit }
    ensures { AreLinked at.now firsts.new nexts.new }
{
    let mut site = at.len();
    while site > 0 {
        site -= 1;
        link_site(firsts, nexts, at, site as u32);
    }
}

/// Links the sites of two labels, where those of all others are linked.
fn link_either(firsts: &mut [u32], nexts: &mut [u32], at: &[u8], sites: &[u32], one: u8, other: u8)
    requires sizes { (length firsts.old ≡ 256) × (length nexts.old ≡ length at.now) }
    requires small { length at.now ≤ site_limit }
    requires listed { IsListing (has_either one other (labelling at.now)) (length at.now)
        sites.now }
    requires others { AreOthersLinked (is_either_label one other) (length at.now)
        (labelling at.now) firsts.old nexts.old }
    ensures { AreLinked at.now firsts.new nexts.new }
{
    firsts[one as usize] = at.len() as u32;
    firsts[other as usize] = at.len() as u32;
    let mut left = sites.len();
    while left > 0 {
        left -= 1;
        link_site(firsts, nexts, at, sites[left]);
    }
}

/// Takes the labels of these sites over, and answers whether each is one of two.
fn take_labels(kept: &mut [u8], sites: &[u32], at: &[u8], one: u8, other: u8) -> bool
    requires size { length at.now ≡ length kept.old }
    requires sites { All (λ p. p < length at.now) sites.now }
    ensures others { (p : ℕ) →
        ((k : ℕ) → k < length sites.now → slice_index sites.now k ≢ p) →
        slice_index kept.new p ≡ slice_index kept.old p }
    ensures either { IsTrue result → (k : ℕ) → k < length sites.now →
        has_either one other (labelling at.now) (slice_index sites.now k) ≡ true }
{
    let mut all = true;
    for place in 0..sites.len() {
        let site = sites[place] as usize;
        let label = at[site];
        kept[site] = label;
        all = all & is_either(label, one, other);
    }
    all
}

/// Lists the sites that have one of two labels.
fn list_either(
    list: &mut Vec<u32>,
    at: &[u8],
    firsts: &[u32],
    nexts: &[u32],
    one: u8,
    other: u8,
) -> Result<(), AllocError>
    requires apart { one ≢ other }
    requires small { length at.now ≤ site_limit }
    requires linked { AreLinked at.now firsts.now nexts.now }
    ensures { OnOk result
        (IsListing (has_either one other (labelling at.now)) (length at.now) list.new.items) }
{
    list.clear();
    let mut first = firsts[one as usize];
    let mut second = firsts[other as usize];
    let mut site = first.min(second);
    while (site as usize) < at.len() {
        list.push(site)?;
        let next = nexts[site as usize];
        if site == first {
            first = next;
        } else {
            second = next;
        }
        site = first.min(second);
    }
    Ok(())
}

impl LabelSites {
    /// Of no sites. It takes no memory.
    pub fn empty(alloc: Global) -> LabelSites {
        LabelSites {
            linked: false,
            at: Vec::new(alloc),
            firsts: Vec::new(alloc),
            nexts: Vec::new(alloc),
            own: Vec::new(alloc),
            alpha: 0,
            beta: 0,
        }
    }

    /// Links all sites by these labels.
    fn link_all(&mut self, at: &[u8]) -> Result<(), AllocError>
        requires small { length at.now ≤ site_limit }
        requires none { self.old.linked ≡ false }
        ensures same { self.new.linked ≡ false }
        ensures linked { OnOk result (self.new.at.items ≡ at.now) }
        ensures links { OnOk result
            (AreLinked at.now self.new.firsts.items self.new.nexts.items) }
    {
        self.at.clear();
        self.at.extend_from_slice(at)?;
        self.firsts.clear();
        self.firsts.resize(LABELS, at.len() as u32)?;
        self.nexts.resize(at.len(), 0)?;
        link_each(&mut self.firsts, &mut self.nexts, at);
        Ok(())
    }

    /// Links the sites that the last swap could change by these labels, if no other site has
    /// another label since, and answers whether that is so.
    fn link_own(&mut self, at: &[u8]) -> bool
        requires small { length at.now ≤ site_limit }
        requires linked { AreLinkedAndListed self.old.at.items self.old.firsts.items
            self.old.nexts.items self.old.own.items self.old.alpha self.old.beta }
        requires none { self.old.linked ≡ false }
        ensures same { self.new.linked ≡ false }
        ensures at { IsTrue result → self.new.at.items ≡ at.now }
        ensures links { IsTrue result →
            AreLinked at.now self.new.firsts.items self.new.nexts.items }
    {
        if self.at.len() != at.len() {
            return false;
        }
        let among = take_labels(&mut self.at, &self.own, at, self.alpha, self.beta);
        if !among || self.at.as_slice() != at {
            return false;
        }
        link_either(
            &mut self.firsts,
            &mut self.nexts,
            at,
            &self.own,
            self.alpha,
            self.beta,
        );
        true
    }

    /// Links the sites by these labels: none anew where they are the last ones.
    fn link(&mut self, at: &[u8]) -> Result<(), AllocError>
        requires small { length at.now ≤ site_limit }
        ensures same { self.new.linked ≡ false }
        ensures at { OnOk result (self.new.at.items ≡ at.now) }
        ensures links { OnOk result
            (AreLinked at.now self.new.firsts.items self.new.nexts.items) }
    {
        let linked = self.linked;
        self.linked = false;
        if linked && (self.at.as_slice() == at || self.link_own(at)) {
            return Ok(());
        }
        self.link_all(at)
    }

    /// Lists the sites that a swap can change: none where its labels are one.
    pub(crate) fn list(
        &mut self,
        list: &mut Vec<u32>,
        at: &[u8],
        alpha: u8,
        beta: u8,
    ) -> Result<(), AllocError>
        requires { length at.now ≤ site_limit }
        ensures { OnOk result (IsListing
            (can_turn (Swap alpha beta) (labelling at.now)) (length at.now) list.new.items) }
    {
        if alpha == beta {
            list.clear();
            return Ok(());
        }
        self.link(at)?;
        list_either(list, at, &self.firsts, &self.nexts, alpha, beta)?;
        self.own.clear();
        self.own.extend_from_slice(list)?;
        self.alpha = alpha;
        self.beta = beta;
        self.linked = true;
        Ok(())
    }
}
