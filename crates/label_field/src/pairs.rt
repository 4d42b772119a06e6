//! A list of weighted pairs of sites.
ghost use Rattle.std.specs.Prelude.{◌≡◌, ◌<◌, ◌≤◌, ◌++◌, [], ◌∷◌, ◌↔◌, IsTrue, IfErr, IfSome};
ghost use Rattle.std.specs.Prelude.{OnOk, OnErr, SomeIff, Some, length, unsigned_abs, slice_set};
ghost use Rattle.std.specs.Prelude.{true, false};
ghost use Rattle.std.specs.List.{All, slice_get};
ghost use Rattle.label_field.specs.Limits.{site_limit, pair_limit, weight_limit};
ghost use Rattle.label_field.specs.PairLists.{IsPair, IsWeightedPair, IsPairList, IsWeight};
ghost use Rattle.label_field.specs.PairLists.{IsPairAccepted, IsPairRefusal, IsWeightIn};
ghost use Rattle.label_field.specs.PairLists.{number_pairs};

use crate::{LabelFieldError, Pair, SITE_LIMIT};
use std::alloc::Global;
use std::marker::Model;

/// The greatest number of pairs of a list; the least is 0. It is four for each of `SITE_LIMIT`
/// sites.
pub const PAIR_LIMIT: usize = 4_194_304;

/// The greatest weight of a pair; the least is 0. A weight is the factor of the pair's term in the
/// energy, in no unit of its own.
pub const WEIGHT_LIMIT: u32 = 1000;

/// A list of weighted pairs of two unequal sites, in the order in which they were added: the
/// neighbours of an energy of labels (Boykov, Veksler, Zabih 2001, section 1). A pair may stand in
/// it more than once, and then counts as often. There are 0 to `SITE_LIMIT` sites, numbered from 0,
/// and 0 to `PAIR_LIMIT` pairs. `number` gives each pair a number in place of its weight: then each
/// pair has costs of its own.
#[derive(Drop)]
pub struct Pairs {
    sites: u32,
    list: Vec<Pair>,
    numbered: bool,
}

impl Model for Pairs {
    ghost use Rattle.label_field.specs.PairLists.{PairList, IsPairList};

    ghost Value = { PairList };

    ghost view = { λ p. record {
      sites = p.sites;
      list = p.list.items;
      numbered = p.numbered;
    } };

    ghost invariant = { λ p. IsPairList (record {
      sites = p.sites;
      list = p.list.items;
      numbered = p.numbered;
    }) };
}

impl Pairs {
    /// That it is a list of pairs, told to a proof: at most `SITE_LIMIT` sites and `PAIR_LIMIT`
    /// pairs, each of two unequal sites, and of a weight up to `WEIGHT_LIMIT` or a number below how
    /// many there are. It does nothing.
    pub fn keeps(&self)
        ensures { IsPairList self.now }
    {
        let _read = self.sites;
    }

    /// Whether a list may be of this many sites: 0 to `SITE_LIMIT`.
    pub fn fits(sites: u32) -> bool
        ensures { IsTrue result ↔ (sites ≤ site_limit) }
    {
        sites <= SITE_LIMIT
    }

    /// No pairs yet, of this many sites. `Pairs::fits` tells whether there may be so many. It takes
    /// no memory.
    pub fn new(alloc: Global, sites: u32) -> Pairs
        requires { sites ≤ site_limit }
        ensures { result ≡ record { sites = sites; list = []; numbered = false } }
    {
        Pairs::of_list(sites, Vec::new(alloc))
    }

    /// The list of these pairs.
    pub(crate) fn of_list(sites: u32, list: Vec<Pair>) -> Pairs
        requires sites { sites ≤ site_limit }
        requires count { length list.items ≤ pair_limit }
        requires pairs { All (IsWeightedPair sites) list.items }
        ensures { result ≡ record { sites = sites; list = list.items; numbered = false } }
    {
        Pairs {
            sites,
            list,
            numbered: false,
        }
    }

    /// Adds a pair at the end of the list. Refused, the first that holds, and nothing is changed:
    /// `NoSuchSite` where one of the two is not below the number of sites, `SamePair` where they
    /// are one, `TooManyPairs` where there are `PAIR_LIMIT` pairs already, `WeightRange` where the
    /// weight is not from 0 to `WEIGHT_LIMIT`, and `OutOfMemory` where the list has to grow and
    /// cannot.
    pub fn add(&mut self, first: u32, second: u32, weight: i64) -> Result<(), LabelFieldError>
        requires { self.old.numbered ≡ false }
        ensures accepted { OnOk result (IsPairAccepted self.old first second weight) }
        ensures added { OnOk result (self.new ≡ record self.old {
          list = self.old.list
              ++ record { first = first; second = second; weight = unsigned_abs weight } ∷ [];
        }) }

        ensures refused { IfErr result (IsPairRefusal self.old first second weight) }
        ensures unchanged { OnErr result (self.new ≡ self.old) }
    {
        if first >= self.sites || second >= self.sites {
            return Err(LabelFieldError::NoSuchSite);
        }
        if first == second {
            return Err(LabelFieldError::SamePair);
        }
        if self.list.len() >= PAIR_LIMIT {
            return Err(LabelFieldError::TooManyPairs);
        }
        let Some(weight) = weight_of(weight) else {
            return Err(LabelFieldError::WeightRange);
        };
        let pair = Pair {
            first,
            second,
            weight,
        };
        self.list.push(pair)?;
        Ok(())
    }

    /// How many sites there are to pair, from 0 to `SITE_LIMIT`.
    pub fn sites(&self) -> u32
        ensures value { result ≡ self.now.sites }
        ensures limit { result ≤ site_limit }
    {
        self.sites
    }

    /// How many pairs are in the list, from 0 to `PAIR_LIMIT`, each as often as it stands there.
    pub fn len(&self) -> usize
        ensures value { result ≡ length self.now.list }
        ensures limit { result ≤ pair_limit }
    {
        self.list.len()
    }

    /// Whether there is no pair.
    pub fn is_empty(&self) -> bool
        ensures { IsTrue result ↔ (self.now.list ≡ []) }
    {
        self.list.is_empty()
    }

    /// Whether each pair has a number in place of a weight, by which it has costs of its own.
    pub fn are_numbered(&self) -> bool
        ensures { result ≡ self.now.numbered }
    {
        self.numbered
    }

    /// Gives each pair a number in place of its weight: its place in the list, counted from 0. It
    /// takes no memory.
    pub fn number(&mut self)
        ensures { self.new ≡ record {
          sites = self.old.sites;
          list = number_pairs 0 self.old.list;
          numbered = true;
        } }
    {
        number_all(&mut self.list);
        self.numbered = true;
    }

    /// The pairs in their order.
    pub fn as_slice(&self) -> &[Pair]
        ensures value { result.now ≡ self.now.list }
        ensures pairs { All (IsPair self.now.sites) result.now }
        ensures weights { All (λ pair. IsWeightIn self.now pair.weight) result.now }
        ensures limit { length result.now ≤ pair_limit }
    {
        &self.list
    }

    /// The pair at an index of the list, counted from 0.
    pub fn get(&self, index: usize) -> Pair
        requires { index < length self.now.list }
        ensures value { slice_get self.now.list index ≡ Some result }
        ensures pair { IsPair self.now.sites result }
        ensures weight { IsWeightIn self.now result.weight }
    {
        self.as_slice()[index]
    }

    /// Gives the pair at an index another weight, and leaves its sites and every other pair as they
    /// are. It takes no memory.
    pub fn set_weight(&mut self, index: usize, weight: u32)
        requires in_list { index < length self.old.list }
        requires in_limit { weight ≤ weight_limit }
        requires weighted { self.old.numbered ≡ false }
        ensures { IfSome (slice_get self.old.list index) (λ pair. self.new
            ≡ record self.old {
              list =
                  slice_set self.old.list index (record pair { weight = weight });
            }) }
    {
        let pair = &mut self.list[index];
        pair.weight = weight;
    }
}

// Gives each pair its place as its number.
fn number_all(list: &mut Vec<Pair>)
    requires { length list.old.items ≤ pair_limit }
    ensures { list.new.items ≡ number_pairs 0 list.old.items }
{
    for index in 0..list.len() {
        list[index].weight = index as u32;
    }
}

// The weight as it is kept, where it is in its range.
fn weight_of(weight: i64) -> Option<u32>
    ensures { SomeIff result (IsWeight weight) (unsigned_abs weight) }
{
    if weight < 0 {
        return None;
    }
    let size = weight.unsigned_abs();
    if size > u64::from(WEIGHT_LIMIT) {
        return None;
    }
    Some(size as u32)
}
