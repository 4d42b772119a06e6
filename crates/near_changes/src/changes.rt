//! What a run remembers of its moves.
ghost use Rattle.std.specs.Prelude.{◌≡◌, ◌↔◌, ◌+◌, ◌<◌, ℕ, Bool, true, false, cond, [], replicate};
ghost use Rattle.std.specs.Prelude.{length, slice_index, slice_set, IfOk, IsTrue, IsFalse};
ghost use Rattle.std.specs.List.{Contains};
ghost use Rattle.move_energy.specs.Choices.{bit_of, choice_at};
ghost use Rattle.near_changes.specs.Changes.{made_of, IsForgotten, IsNotedMove};

use move_energy::Choice;
use std::alloc::{AllocError, Global};

/// Of each site the number of the move that last changed it, and of each place the number of the
/// last move there, in a run whose moves are numbered from 1; 0 where there is none. The place of
/// an expansion is its label, and two labels have one for their swap. Where `made` is empty,
/// nothing is remembered. It takes 4 bytes a site and a place.
#[derive(Drop)]
pub struct Changes {
    pub stamps: Vec<u32>,
    pub made: Vec<u32>,
    pub count: u32,
}

impl Changes {
    /// Of a run that remembers nothing. It takes no memory.
    pub fn none(alloc: Global) -> Changes
        ensures { result.made.items ≡ [] }
    {
        Changes {
            stamps: Vec::new(alloc),
            made: Vec::new(alloc),
            count: 0,
        }
    }

    /// Of a run that begins: no move was made yet at so many places.
    pub fn new(alloc: Global, sites: u32, places: u32) -> Result<Changes, AllocError>
        ensures stamps { IfOk result (λ c. c.stamps.items ≡ replicate sites 0) }
        ensures made { IfOk result (λ c. (c.made.items ≡ replicate places 0) × (c.count ≡ 0)) }
    {
        Ok(Changes {
            stamps: vec![in alloc; 0u32; sites as usize]?,
            made: vec![in alloc; 0u32; places as usize]?,
            count: 0,
        })
    }

    /// Forgets every move, and remembers none from then on.
    pub fn forget(&mut self)
        ensures { self.new.made.items ≡ [] }
    {
        self.made.clear();
    }

    /// The number of the last move at a place, 0 where none is remembered.
    pub fn last(&self, place: u32) -> u32
        ensures { result ≡ made_of self.now place }
    {
        if (place as usize) < self.made.len() {
            self.made[place as usize]
        } else {
            0
        }
    }

    /// Gives a move at a place the next number. It answers no, and forgets all, where the place is
    /// not one of those that are remembered, or the numbers are at their end.
    fn begin(&mut self, place: u32) -> bool
        ensures begun { IsTrue result → (place < length self.old.made.items)
            × (self.new.count ≡ self.old.count + 1)
            × (self.new.made.items ≡ slice_set self.old.made.items place self.new.count) }
        ensures forgotten { IsFalse result → IsForgotten place self.old self.new }
        ensures same { self.new.stamps.items ≡ self.old.stamps.items }
    {
        if place as usize >= self.made.len() || self.count == u32::MAX {
            self.made.clear();
            return false;
        }
        self.count += 1;
        self.made[place as usize] = self.count;
        true
    }

    /// Notes a move at a place that changed the sites whose value is 1.
    pub fn note_values(&mut self, place: u32, choices: &[Choice])
        ensures { IsNotedMove place (λ p. bit_of (choice_at choices.now p) false)
            self.old self.new }
    {
        if self.begin(place) {
            stamp_values(&mut self.stamps, self.count, choices);
        }
    }

    /// Notes a move at a place that changed the listed sites.
    pub fn note_sites(&mut self, place: u32, sites: &[u32])
        ensures { (took : ℕ → Bool) → (place < length self.old.made.items → (p : ℕ) →
            p < length self.old.stamps.items → (took p ≡ true) ↔ Contains sites.now p) →
            IsNotedMove place took self.old self.new }
    {
        if self.begin(place) {
            stamp_sites(&mut self.stamps, self.count, sites);
        }
    }
}

/// The number of a move where a site's value is 1, and else what its stamp was. It is a sum of
/// products, by which a loop takes many sites at once.
#[inline]
fn stamp_of(value: bool, number: u32, stamp: u32) -> u32
    ensures { result ≡ cond value number stamp }
{
    let one = u32::from(value);
    number * one + stamp * (1 - one)
}

/// Gives the sites whose value is 1 the number of a move.
fn stamp_values(stamps: &mut [u32], number: u32, choices: &[Choice])
    ensures { (p : ℕ) → p < length stamps.old → slice_index stamps.new p
        ≡ cond (bit_of (choice_at choices.now p) false) number (slice_index stamps.old p) }
{
    let sites = stamps.len().min(choices.len());
    for site in 0..sites {
        stamps[site] = stamp_of(choices[site].bit(false), number, stamps[site]);
    }
}

/// Gives the listed sites the number of a move.
fn stamp_sites(stamps: &mut [u32], number: u32, sites: &[u32])
    ensures listed { (p : ℕ) → p < length stamps.old → Contains sites.now p →
        slice_index stamps.new p ≡ number }
    ensures others { (p : ℕ) → (Contains sites.now p → ⊥) →
        slice_index stamps.new p ≡ slice_index stamps.old p }
{
    for index in 0..sites.len() {
        let site = sites[index] as usize;
        if site < stamps.len() {
            stamps[site] = number;
        }
    }
}
