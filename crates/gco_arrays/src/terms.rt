//! The terms of a call over yes-no variables.
ghost use Rattle.std.specs.Prelude.{◌≡◌, ◌≤◌, ◌++◌, pos, map, IfOk, IfErr, OnOk};
ghost use Rattle.pseudo_bool.specs.Limits.{variable_limit};
ghost use Rattle.pseudo_bool.specs.Energies.{IsEnergy, IsValue};
ghost use Rattle.pseudo_bool.specs.Refusals.{IsAdded, IsTermRefusal};
ghost use Rattle.pseudo_bool.specs.declared.term.Term.{Term};
ghost use Rattle.gco_arrays.specs.Energies.{energy_given, one_of, three_numbers, three_of};
ghost use Rattle.gco_arrays.specs.Energies.{two_numbers};
ghost use Rattle.gco_arrays.specs.Energies.{two_of};
ghost use Rattle.gco_arrays.specs.TermRefusals.{AreTermsRefused, IsTermTold, IsTermsRefusal};
ghost use Rattle.gco_arrays.specs.TermRefusals.{term_refusal};

use crate::refusal::Refusal;
use pseudo_bool::{Energy, EnergyError};
use std::alloc::Global;

/// A term of one variable, as C hands it over: its numbers where the variable is 0 and where it is
/// 1.
#[repr(C)]
#[derive(Clone, Copy)]
pub struct GcoOne {
    pub variable: u32,
    pub spare: u32,
    pub at0: i64,
    pub at1: i64,
}

/// A term of two variables, as C hands it over: its numbers at 00, 01, 10 and 11.
#[repr(C)]
#[derive(Clone, Copy)]
pub struct GcoTwo {
    pub first: u32,
    pub second: u32,
    pub at00: i64,
    pub at01: i64,
    pub at10: i64,
    pub at11: i64,
}

/// A term of three variables, as C hands it over: its numbers at 000, 001, 010, 011, 100, 101, 110
/// and 111.
#[repr(C)]
#[derive(Clone, Copy)]
pub struct GcoThree {
    pub first: u32,
    pub second: u32,
    pub third: u32,
    pub spare: u32,
    pub at000: i64,
    pub at001: i64,
    pub at010: i64,
    pub at011: i64,
    pub at100: i64,
    pub at101: i64,
    pub at110: i64,
    pub at111: i64,
}

/// The energy of so many variables, the constant and the terms that were given: those of one
/// variable, then those of two, then those of three.
pub fn energy_of(
    alloc: Global,
    variables: u32,
    constant: i64,
    ones: &[GcoOne],
    twos: &[GcoTwo],
    threes: &[GcoThree],
) -> Result<Energy, Refusal>
    requires { variables ≤ variable_limit }
    ensures energy { IfOk result (λ energy. energy
        ≡ energy_given variables constant ones.now twos.now threes.now) }
    ensures ok { IfOk result (λ energy.
        IsEnergy (energy_given variables constant ones.now twos.now threes.now)) }
    ensures refused { IfErr result (IsTermsRefusal
        (energy_given variables constant ones.now twos.now threes.now)) }
{
    let mut energy = Energy::new(alloc);
    energy.clear(variables);
    add_constant(&mut energy, constant)?;
    add_terms(&mut energy, ones)?;
    add_terms(&mut energy, twos)?;
    add_terms(&mut energy, threes)?;
    let _constant = energy.constant();
    Ok(energy)
}

/// Sets the constant of an energy that has none yet.
fn add_constant(energy: &mut Energy, constant: i64) -> Result<(), Refusal>
    requires { energy.old.constant ≡ pos 0 }
    ensures added { OnOk result (energy.new ≡ record energy.old { constant = constant }) }
    ensures ok { OnOk result (IsValue constant) }
    ensures refused { IfErr result
        (λ refusal. (refusal ≡ Refusal.ConstantRange) × ¬ IsValue constant) }
{
    match energy.add_constant(constant) {
        Ok(()) => Ok(()),
        Err(_) => Err(Refusal::ConstantRange),
    }
}

/// A term as C hands it over.
trait TermGiven {
    /// The term that it is.
    ghost term: { Self → Term };

    /// Adds it at the end of the list of an energy.
    fn add_to(&self, energy: &mut Energy) -> Result<(), EnergyError>
        ensures added { OnOk result (IsAdded energy.old energy.new (term self.now)) }
        ensures refused { IfErr result (IsTermRefusal energy.old (term self.now)) };
}

impl TermGiven for GcoOne {
    ghost term = { one_of };

    fn add_to(&self, energy: &mut Energy) -> Result<(), EnergyError> {
        energy.add_term1(self.variable, [self.at0, self.at1])
    }
}

impl TermGiven for GcoTwo {
    ghost term = { two_of };

    fn add_to(&self, energy: &mut Energy) -> Result<(), EnergyError> {
        let table = two_table(self);
        energy.add_term2(self.first, self.second, table)
    }
}

impl TermGiven for GcoThree {
    ghost term = { three_of };

    fn add_to(&self, energy: &mut Energy) -> Result<(), EnergyError> {
        let table = three_table(self);
        energy.add_term3(self.first, self.second, self.third, table)
    }
}

/// Adds the terms that were given, in their order.
fn add_terms<T: TermGiven>(energy: &mut Energy, given: &[T]) -> Result<(), Refusal>
    ensures added { OnOk result (energy.new
        ≡ record energy.old { terms = energy.old.terms ++ map T.term given.now }) }
    ensures refused { IfErr result (AreTermsRefused energy.old (map T.term given.now)) }
{
    for term in given {
        add_term(energy, term)?;
    }
    Ok(())
}

fn add_term<T: TermGiven>(energy: &mut Energy, given: &T) -> Result<(), Refusal>
    ensures added { OnOk result (IsAdded energy.old energy.new (T.term given.now)) }
    ensures refused { IfErr result (IsTermTold energy.old (T.term given.now)) }
{
    let place = energy.term_count();
    match given.add_to(energy) {
        Ok(()) => Ok(()),
        Err(error) => Err(refusal_of(place, error)),
    }
}

/// The table of a term of two variables.
fn two_table(two: &GcoTwo) -> [i64; 4]
    ensures { result ≡ two_numbers two.now }
{
    [two.at00, two.at01, two.at10, two.at11]
}

/// The table of a term of three variables.
fn three_table(three: &GcoThree) -> [i64; 8]
    ensures { result ≡ three_numbers three.now }
{
    [
        three.at000,
        three.at001,
        three.at010,
        three.at011,
        three.at100,
        three.at101,
        three.at110,
        three.at111,
    ]
}

/// The refusal of a call whose term at a place was refused.
fn refusal_of(place: usize, error: EnergyError) -> Refusal
    ensures { result ≡ term_refusal place error }
{
    match error {
        EnergyError::NoSuchVariable => Refusal::NoSuchSite(place),
        EnergyError::SameVariable => Refusal::SameSite(place),
        EnergyError::ValueRange => Refusal::WeightRange(place),
        EnergyError::TooManyTerms => Refusal::TooManyPairs,
        EnergyError::OutOfMemory => Refusal::OutOfMemory,
    }
}
