//! The sites that a move has left to look at, listed where they are few.
ghost use Rattle.std.specs.Prelude.{◌≡◌, ◌<◌, ◌≤◌, ◌+◌, ◌++◌, ◌∷◌, [], ℕ, cond};
ghost use Rattle.std.specs.Prelude.{false, length, OnOk, OnErr};
ghost use Rattle.label_energies.specs.Energies.{labelling};
ghost use Rattle.label_energies.specs.Moves.{IsSwap};
ghost use Rattle.label_field.specs.Limits.{site_limit};
ghost use Rattle.move_energy.specs.Choices.{open_count, is_open};
ghost use Rattle.site_bounds.specs.Listed.{can_become_other, changes, listed_share};
ghost use Rattle.site_bounds.specs.Listed.{CoversOpen};
ghost use Rattle.site_bounds.specs.Listed.{AreListed, AreListedBelow, AreListsEmpty, CoversRest};

use crate::kept::keep;
use label_energies::Move;
use move_energy::Choice;
use std::alloc::{AllocError, Global};

/// So many sites are looked over at once for one to list.
const BLOCK: usize = 32;

/// The sites of an expansion are listed where at most one in so many is open.
const LISTED_SHARE: usize = 8;

/// Those of a swap, which are listed among the sites that it can change.
const SWAPPED_SHARE: usize = 2;

/// How many sites are open, and where they are few (`listed`) the rising lists of the open ones and
/// of those whose labels can still change: the open ones, and those that were decided to get
/// another label than they have. Few are at most an eighth of all sites in an expansion, and half
/// in a swap. The lists keep their memory for the next move, at most 6 bytes a site.
#[derive(Drop)]
pub struct Lists {
    pub count: usize,
    pub listed: bool,
    pub opened: Vec<u32>,
    pub changing: Vec<u32>,
}

/// How many choices are open.
fn count_open(choices: &[Choice]) -> usize
    ensures count { result ≡ open_count choices.now }
    ensures few { result ≤ length choices.now }
{
    let mut count = 0usize;
    for site in 0..choices.len() {
        if choices[site].is_open() {
            count += 1;
        }
    }
    count
}

/// How many choices are open, where each open site is among these.
fn count_among(choices: &[Choice], sites: &[u32]) -> usize
    requires among { CoversOpen choices.now sites.now }
    ensures count { result ≡ open_count choices.now }
    ensures few { result ≤ length choices.now }
{
    let mut count = 0usize;
    for place in 0..sites.len() {
        if choices[sites[place] as usize].is_open() {
            count += 1;
        }
    }
    count
}

/// The sites of a move are listed where at most one in so many is open.
fn share_of(change: Move) -> usize
    ensures { result ≡ listed_share change }
{
    match change {
        Move::Expand(_) => LISTED_SHARE,
        Move::Swap(_, _) => SWAPPED_SHARE,
    }
}

/// Whether the label of a site can still become another.
fn can_change(choice: Choice, change: Move, label: u32) -> bool
    ensures { result ≡ can_become_other change label choice }
{
    choice.is_open() || change.label(label, choice.bit(false)) != label
}

/// Whether the label of a site of the block that begins at one can still become another.
fn has_change(at: &[u8], change: Move, choices: &[Choice], from: usize) -> bool
    requires { (from + 32 ≤ length at.now) × (length choices.now ≡ length at.now) }
    ensures { result ≡ false → (p : ℕ) → from ≤ p → p < from + 32 →
        changes change (labelling at.now) choices.now p ≡ false }
{
    let mut any = false;
    for site in from..from + BLOCK {
        if can_change(choices[site], change, u32::from(at[site])) {
            any = true;
        }
    }
    any
}

/// Adds a site to a list where it is chosen.
pub(crate) fn add_chosen(list: &mut Vec<u32>, site: u32, chosen: bool) -> Result<(), AllocError>
    ensures { OnOk result (list.new.items ≡ list.old.items ++ cond chosen (site ∷ []) []) }
{
    if chosen {
        list.push(site)?;
    }
    Ok(())
}

impl Lists {
    /// No list. It takes no memory.
    pub fn empty(alloc: Global) -> Lists
        ensures { AreListsEmpty result }
    {
        Lists {
            count: 0,
            listed: false,
            opened: Vec::new(alloc),
            changing: Vec::new(alloc),
        }
    }

    /// Adds a site to the lists that it belongs to.
    fn add_site(
        &mut self,
        site: u32,
        choice: Choice,
        change: Move,
        label: u32,
    ) -> Result<(), AllocError>
        ensures opened { OnOk result (self.new.opened.items ≡
            self.old.opened.items ++ cond (is_open choice) (site ∷ []) []) }
        ensures changing { OnOk result (self.new.changing.items ≡ self.old.changing.items
            ++ cond (can_become_other change label choice) (site ∷ []) []) }
        ensures same { (self.new.count ≡ self.old.count) × (self.new.listed ≡ self.old.listed) }
    {
        add_chosen(&mut self.opened, site, choice.is_open())?;
        add_chosen(&mut self.changing, site, can_change(choice, change, label))
    }

    /// Adds the sites from one on, before another, to the lists of those before these.
    fn list_part(
        &mut self,
        at: &[u8],
        change: Move,
        choices: &[Choice],
        from: usize,
        to: usize,
    ) -> Result<(), AllocError>
        requires sites { (length choices.now ≡ length at.now) × (length at.now ≤ site_limit) }
        requires part { (from ≤ to) × (to ≤ length at.now) }
        requires lists { AreListedBelow from change (labelling at.now) choices.now self.old }
        ensures lists { OnOk result
            (AreListedBelow to change (labelling at.now) choices.now self.new) }
        ensures same { (self.new.count ≡ self.old.count) × (self.new.listed ≡ self.old.listed) }
    {
        for site in from..to {
            self.add_site(site as u32, choices[site], change, u32::from(at[site]))?;
        }
        Ok(())
    }

    /// The same for the block that begins at one. A block of which no label can change is passed
    /// over at once.
    fn list_block(
        &mut self,
        at: &[u8],
        change: Move,
        choices: &[Choice],
        from: usize,
    ) -> Result<(), AllocError>
        requires sites { (length choices.now ≡ length at.now) × (length at.now ≤ site_limit) }
        requires block { from + 32 ≤ length at.now }
        requires lists { AreListedBelow from change (labelling at.now) choices.now self.old }
        ensures lists { OnOk result
            (AreListedBelow (from + 32) change (labelling at.now) choices.now self.new) }
        ensures same { (self.new.count ≡ self.old.count) × (self.new.listed ≡ self.old.listed) }
    {
        if !has_change(at, change, choices, from) {
            return Ok(());
        }
        let mut opened = [0u32; BLOCK];
        let mut changing = [0u32; BLOCK];
        let mut open = 0;
        let mut moved = 0;
        for place in 0..BLOCK {
            let site = from + place;
            let choice = choices[site];
            open = keep(&mut opened, open, site as u32, choice.is_open());
            let changes = can_change(choice, change, u32::from(at[site]));
            moved = keep(&mut changing, moved, site as u32, changes);
        }
        self.opened.extend_from_slice(&opened[..open])?;
        self.changing.extend_from_slice(&changing[..moved])
    }

    /// Lists the open sites, and those whose labels can still change. They are few, so that many
    /// blocks of sites are passed over at once.
    fn list(&mut self, at: &[u8], change: Move, choices: &[Choice]) -> Result<(), AllocError>
        requires sites { (length choices.now ≡ length at.now) × (length at.now ≤ site_limit) }
        ensures lists { OnOk result (AreListedBelow (length choices.now) change
            (labelling at.now) choices.now self.new) }
        ensures same { (self.new.count ≡ self.old.count) × (self.new.listed ≡ self.old.listed) }
    {
        self.opened.clear();
        self.opened.reserve(self.count)?;
        self.changing.clear();
        let mut from = 0;
        while from + BLOCK <= at.len() {
            self.list_block(at, change, choices, from)?;
            from += BLOCK;
        }
        self.list_part(at, change, choices, from, at.len())
    }

    /// Lists the same, where they are among these sites.
    fn list_among(
        &mut self,
        at: &[u8],
        change: Move,
        choices: &[Choice],
        sites: &[u32],
    ) -> Result<(), AllocError>
        requires count { length choices.now ≡ length at.now }
        requires among { CoversRest change at.now choices.now sites.now }
        ensures lists { OnOk result (AreListedBelow (length choices.now) change
            (labelling at.now) choices.now self.new) }
        ensures same { (self.new.count ≡ self.old.count) × (self.new.listed ≡ self.old.listed) }
    {
        self.opened.clear();
        self.opened.reserve(self.count)?;
        self.changing.clear();
        for place in 0..sites.len() {
            let site = sites[place];
            let label = u32::from(at[site as usize]);
            self.add_site(site, choices[site as usize], change, label)?;
        }
        Ok(())
    }

    /// Counts the open sites of a move that was decided, and lists them where they are few.
    /// `listed` is written once they are.
    pub fn fill(&mut self, at: &[u8], change: Move, choices: &[Choice]) -> Result<(), AllocError>
        requires sites { (length choices.now ≡ length at.now) × (length at.now ≤ site_limit) }
        ensures lists { OnOk result (AreListed change (labelling at.now) choices.now self.new) }
        ensures refused { OnErr result (self.new.listed ≡ self.old.listed) }
    {
        self.count = count_open(choices);
        let few = self.count * share_of(change) <= choices.len();
        if few {
            self.list(at, change, choices)?;
        }
        self.listed = few;
        Ok(())
    }

    /// The same. Of a swap, each site that it could change is among these: then no other is looked
    /// at.
    pub(crate) fn fill_rest(
        &mut self,
        at: &[u8],
        change: Move,
        choices: &[Choice],
        swapped: &[u32],
    ) -> Result<(), AllocError>
        requires sites { (length choices.now ≡ length at.now) × (length at.now ≤ site_limit) }
        requires among { IsSwap change → CoversRest change at.now choices.now swapped.now }
        ensures lists { OnOk result (AreListed change (labelling at.now) choices.now self.new) }
        ensures refused { OnErr result (self.new.listed ≡ self.old.listed) }
    {
        let Move::Swap(_, _) = change else {
            return self.fill(at, change, choices);
        };
        self.count = count_among(choices, swapped);
        let few = self.count * share_of(change) <= choices.len();
        if few {
            self.list_among(at, change, choices, swapped)?;
        }
        self.listed = few;
        Ok(())
    }
}
