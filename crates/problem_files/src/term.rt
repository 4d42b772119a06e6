//! The terms of a table.
ghost use Rattle.std.specs.Prelude.{◌≡◌, ◌<◌, ◌≤◌, ℕ, [], ◌∷◌, false, length, unsigned_abs};
ghost use Rattle.std.specs.Prelude.{pos, IfOk, IfErr, OnOk};
ghost use Rattle.toml.specs.View.{view};
ghost use Rattle.pseudo_bool.specs.Limits.{term_limit, variable_limit};
ghost use Rattle.pseudo_bool.specs.declared.term.Term.TheVariants.{One, Two, Three};
ghost use Rattle.problem_files.specs.declared.energy_fault.EnergyFault.TheVariants.{NoSuchVariable};
ghost use Rattle.problem_files.specs.declared.energy_fault.EnergyFault.TheVariants.{OutOfMemory};
ghost use Rattle.problem_files.specs.Added.{Gains, IsFirstOf};
ghost use Rattle.problem_files.specs.Problem.{term_or_fault, is_variable, term_at, term_from};
ghost use Rattle.problem_files.specs.Refusal.{refusal_of};

use crate::fields::integers_at;
use crate::{EnergyFault, EnergyKey};
use pseudo_bool::{Energy, EnergyError};
use toml::Value;

/// Adds the term that the item at a place of the list names.
pub fn add_term(energy: &mut Energy, place: usize, item: &Value) -> Result<(), EnergyFault>
    requires variables { energy.old.variables ≤ variable_limit }
    requires room { length energy.old.terms < term_limit }
    ensures ok { OnOk result (Gains energy.old energy.new (term_at energy.old.variables place (view
        item.now))) }
    ensures refused { IfErr result
        (IsFirstOf (term_at energy.old.variables place (view item.now))) }
{
    let shape = EnergyFault::BadElement(EnergyKey::Terms, place);
    let Some(on) = integers_at::<3>(item, "on") else {
        return Err(shape);
    };
    let Some(values) = integers_at::<8>(item, "values") else {
        return Err(shape);
    };
    add_listed(energy, place, &on, &values)
}

/// Adds the term over the listed variables with the listed numbers.
fn add_listed(
    energy: &mut Energy,
    place: usize,
    on: &[i64],
    values: &[i64],
) -> Result<(), EnergyFault>
    requires variables { energy.old.variables ≤ variable_limit }
    requires room { length energy.old.terms < term_limit }
    ensures ok { OnOk result (Gains energy.old energy.new
        (term_from energy.old.variables place on.now
        values.now)) }
    ensures refused { IfErr result
        (IsFirstOf (term_from energy.old.variables place on.now values.now)) }
{
    let shape = EnergyFault::BadElement(EnergyKey::Terms, place);
    match on {
        [first] => match <[i64; 2]>::try_from(values) {
            Ok(table) => add_one(energy, place, *first, table),
            Err(_) => Err(shape),
        },
        [first, second] => match <[i64; 4]>::try_from(values) {
            Ok(table) => add_two(energy, place, *first, *second, table),
            Err(_) => Err(shape),
        },
        [first, second, third] => match <[i64; 8]>::try_from(values) {
            Ok(table) => add_three(energy, place, *first, *second, *third, table),
            Err(_) => Err(shape),
        },
        _ => Err(shape),
    }
}

/// Adds a term of one variable, whose number may be any integer.
fn add_one(energy: &mut Energy, place: usize, on: i64, table: [i64; 2]) -> Result<(), EnergyFault>
    requires variables { energy.old.variables ≤ variable_limit }
    requires room { length energy.old.terms < term_limit }
    ensures ok { OnOk result (Gains energy.old energy.new
        (term_or_fault energy.old.variables place (on ∷ [])
        table (One (unsigned_abs on) table))) }
    ensures refused { IfErr result
        (IsFirstOf (term_or_fault energy.old.variables place (on ∷ []) table (One
        (unsigned_abs on) table))) }
{
    let first = variable_of(place, on)?;
    match energy.add_term1(first, table) {
        Ok(()) => Ok(()),
        Err(error) => Err(refusal_of(place, error)),
    }
}

/// Adds a term of two variables, whose numbers may be any integers.
fn add_two(
    energy: &mut Energy,
    place: usize,
    on: i64,
    and: i64,
    table: [i64; 4],
) -> Result<(), EnergyFault>
    requires variables { energy.old.variables ≤ variable_limit }
    requires room { length energy.old.terms < term_limit }
    ensures ok { OnOk result (Gains energy.old energy.new
        (term_or_fault energy.old.variables place (on ∷ and ∷
        []) table (Two (unsigned_abs on) (unsigned_abs and) table))) }
    ensures refused { IfErr result
        (IsFirstOf (term_or_fault energy.old.variables place (on ∷ and ∷ []) table
        (Two (unsigned_abs on) (unsigned_abs and) table))) }
{
    let first = variable_of(place, on)?;
    let second = variable_of(place, and)?;
    match energy.add_term2(first, second, table) {
        Ok(()) => Ok(()),
        Err(error) => Err(refusal_of(place, error)),
    }
}

/// Adds a term of three variables, whose numbers may be any integers.
fn add_three(
    energy: &mut Energy,
    place: usize,
    on: i64,
    and: i64,
    also: i64,
    table: [i64; 8],
) -> Result<(), EnergyFault>
    requires variables { energy.old.variables ≤ variable_limit }
    requires room { length energy.old.terms < term_limit }
    ensures ok { OnOk result (Gains energy.old energy.new
        (term_or_fault energy.old.variables place (on ∷ and ∷
        also ∷ []) table (Three (unsigned_abs on) (unsigned_abs and) (unsigned_abs also) table))) }
    ensures refused { IfErr result
        (IsFirstOf (term_or_fault energy.old.variables place (on ∷ and ∷ also ∷ [])
        table (Three (unsigned_abs on) (unsigned_abs and) (unsigned_abs also) table))) }
{
    let x = variable_of(place, on)?;
    let y = variable_of(place, and)?;
    let z = variable_of(place, also)?;
    match energy.add_term3(x, y, z, table) {
        Ok(()) => Ok(()),
        Err(error) => Err(refusal_of(place, error)),
    }
}

/// The number of a variable.
fn variable_of(place: usize, number: i64) -> Result<u32, EnergyFault>
    ensures ok { IfOk result (λ variable. number ≡ pos variable) }
    ensures refused { IfErr result (λ fault. (fault ≡ NoSuchVariable place) × ((n : ℕ) → n ≤
        variable_limit → is_variable n number ≡ false)) }
{
    match u32::try_from(number) {
        Ok(variable) => Ok(variable),
        Err(_) => Err(EnergyFault::NoSuchVariable(place)),
    }
}

/// The fault of the term at a place that an energy refuses.
fn refusal_of(place: usize, error: EnergyError) -> EnergyFault
    ensures { result ≡ refusal_of place error }
{
    match error {
        EnergyError::NoSuchVariable => EnergyFault::NoSuchVariable(place),
        EnergyError::SameVariable => EnergyFault::SameVariable(place),
        EnergyError::ValueRange => EnergyFault::ValueRange(place),
        EnergyError::TooManyTerms => EnergyFault::TooManyTerms,
        EnergyError::OutOfMemory => EnergyFault::OutOfMemory,
    }
}
