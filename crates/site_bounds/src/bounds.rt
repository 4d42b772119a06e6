//! What is known of each site while sites are decided.
ghost use Rattle.std.specs.Prelude.{◌≡◌, ◌↔◌, ◌<◌, ℤ, ◌+ℤ◌, IsTrue, length, slice_set, OnOk};
ghost use Rattle.site_bounds.specs.Working.{bound_at, CanDecide, CallsUp, AreOfNoSites};
ghost use Rattle.site_bounds.specs.Working.{HasBounds, HasRoomFor, RaisesBounds};

use move_energy::Choice;
use std::alloc::{AllocError, Global};

/// Of each site what is known of its value, and of each open one that was summed by how much the
/// energy rises where its value turns from 0 to 1: at least, with every other undecided site at 1,
/// and at most, with every other at 0. Then the sites that wait: those whose bounds tell their
/// value. It takes 21 bytes a site at most.
#[derive(Drop)]
pub struct Bounds {
    pub choices: Vec<Choice>,
    /// A number of each site, which means something while the site is summed and open. What the
    /// numbers are once the sites are decided, no clause says.
    pub least: Vec<i64>,
    /// The same. Once the sites are decided, those of the open ones are their weights in the
    /// energy.
    pub greatest: Vec<i64>,
    /// The sites before this one are summed or closed.
    pub(crate) summed: usize,
    pub(crate) waiting: Vec<u32>,
}

/// Adds to a number of a list.
fn add_at(numbers: &mut Vec<i64>, place: usize, by: i64)
    requires place { place < length numbers.old.items }
    requires room { HasRoomFor (bound_at numbers.old.items place) by }
    ensures { numbers.new.items
        ≡ slice_set numbers.old.items place (bound_at numbers.old.items place +ℤ by) }
{
    numbers[place] += by;
}

impl Bounds {
    /// No sites. It takes no memory.
    pub fn new(alloc: Global) -> Bounds
        ensures { AreOfNoSites result }
    {
        Bounds {
            choices: Vec::new(alloc),
            least: Vec::new(alloc),
            greatest: Vec::new(alloc),
            summed: 0,
            waiting: Vec::new(alloc),
        }
    }

    /// Adds to the two bounds of a site.
    pub(crate) fn raise(&mut self, site: usize, least: i64, greatest: i64)
        requires site { HasBounds site self.old }
        requires least { HasRoomFor (bound_at self.old.least.items site) least }
        requires greatest { HasRoomFor (bound_at self.old.greatest.items site) greatest }
        ensures { RaisesBounds site least greatest self.old self.new }
    {
        add_at(&mut self.least, site, least);
        add_at(&mut self.greatest, site, greatest);
    }

    /// Whether the bounds of a site tell its value: 0 where turning never lowers the energy, and 1
    /// where it always does.
    pub(crate) fn can_decide(&self, site: usize) -> bool
        requires { HasBounds site self.now }
        ensures { IsTrue result ↔ CanDecide self.now site }
    {
        self.least[site] >= 0 || self.greatest[site] < 0
    }

    /// Lets a site wait if its bounds tell its value.
    pub(crate) fn call_up(&mut self, site: u32) -> Result<(), AllocError>
        requires { HasBounds site self.old }
        ensures same { (self.new.choices ≡ self.old.choices) × (self.new.least ≡ self.old.least)
            × (self.new.greatest ≡ self.old.greatest) × (self.new.summed ≡ self.old.summed) }
        ensures calls { OnOk result (CallsUp site self.old self.new) }
    {
        if self.can_decide(site as usize) {
            self.waiting.push(site)?;
        }
        Ok(())
    }
}
