//! The pairs of a call.
ghost use Rattle.std.specs.Prelude.{◌≡◌, ◌≤◌, ◌++◌, [], ◌∷◌, IfOk, IfErr, OnOk};
ghost use Rattle.std.specs.Prelude.{false};
ghost use Rattle.label_field.specs.Limits.{site_limit};
ghost use Rattle.label_field.specs.PairLists.{IsPairList};
ghost use Rattle.gco_arrays.specs.Calls.{list_given, pair_from_c};
ghost use Rattle.gco_arrays.specs.Refusals.{IsListRefusal, IsPairTold, pair_refusal};

use crate::refusal::Refusal;
use label_field::{LabelFieldError, Pairs};
use std::alloc::Global;

/// Two sites, and the weight of their term in the energy, as C hands them over.
#[repr(C)]
#[derive(Clone, Copy)]
pub struct GcoPair {
    pub first: u32,
    pub second: u32,
    pub weight: u32,
}

/// The list of the pairs that were given.
pub(crate) fn pairs_of(alloc: Global, sites: u32, given: &[GcoPair]) -> Result<Pairs, Refusal>
    requires { sites ≤ site_limit }
    ensures list { IfOk result (λ pairs. pairs ≡ list_given sites given.now) }
    ensures ok { IfOk result (λ pairs. IsPairList (list_given sites given.now)) }
    ensures refused { IfErr result (IsListRefusal sites given.now) }
{
    let mut pairs = Pairs::new(alloc, sites);
    for (place, pair) in given.iter().enumerate() {
        add_pair(&mut pairs, place, *pair)?;
    }
    pairs.keeps();
    Ok(pairs)
}

/// Adds the pair that was given at a place.
fn add_pair(pairs: &mut Pairs, place: usize, given: GcoPair) -> Result<(), Refusal>
    requires { pairs.old.numbered ≡ false }
    ensures added { OnOk result (pairs.new
        ≡ record pairs.old { list = pairs.old.list ++ pair_from_c given ∷ [] }) }
    ensures known { IfErr result (λ refusal. IsPairList pairs.old) }
    ensures refused { IfErr result (IsPairTold pairs.old given place) }
{
    pairs.keeps();
    match pairs.add(given.first, given.second, i64::from(given.weight)) {
        Ok(()) => Ok(()),
        Err(error) => Err(refusal_of(place, error)),
    }
}

/// The refusal of a call whose pair at a place was refused.
fn refusal_of(place: usize, error: LabelFieldError) -> Refusal
    ensures { result ≡ pair_refusal place error }
{
    match error {
        LabelFieldError::NoSuchSite => Refusal::NoSuchSite(place),
        LabelFieldError::SamePair => Refusal::SameSite(place),
        LabelFieldError::TooManyPairs => Refusal::TooManyPairs,
        LabelFieldError::WeightRange => Refusal::WeightRange(place),
        LabelFieldError::NoSuchLabel | LabelFieldError::OutOfMemory(_) => Refusal::OutOfMemory,
    }
}
