//! The energy that a text or a table names.
ghost use Rattle.std.specs.Prelude.{◌≡◌, ◌≤◌, [], Ok, Err, IfOk, IfErr, OnOk, vec_len};
ghost use Rattle.toml.specs.View.{array_view, table_view};
ghost use Rattle.pseudo_bool.specs.Limits.{term_limit, value_limit, variable_limit};
ghost use Rattle.pseudo_bool.specs.Energies.{IsWithin};
ghost use Rattle.problem_files.specs.Added.{GainsAll, IsFirstOf};
ghost use Rattle.problem_files.specs.Problem.{energy_of_table, terms_from, terms_in};
ghost use Rattle.problem_files.specs.Stated.{States};
ghost use Rattle.problem_files.specs.Text.{HasFault, NamesEnergy, TextStates};

use crate::fields::{constant_of, member, variables_of};
use crate::table::read_table;
use crate::term::add_term;
use crate::{EnergyFault, EnergyKey};
use pseudo_bool::{Energy, TERM_LIMIT};
use std::alloc::Global;
use toml::{Table, Value};

/// The energy that the bytes of a TOML text name, or its first fault.
pub fn read_energy(alloc: Global, bytes: &[u8]) -> Result<Energy, EnergyFault>
    ensures ok { IfOk result (NamesEnergy bytes.now) }
    ensures stated { IfOk result (TextStates bytes.now) }
    ensures refused { IfErr result (HasFault bytes.now) }
{
    let table = read_table(alloc, bytes)?;
    energy_of(alloc, &table)
}

/// The energy that a table names, or its first fault. The fields are read in the order `variables`,
/// `constant`, `terms`, and each term whole before the next; other fields are ignored.
pub fn energy_of(alloc: Global, table: &Table) -> Result<Energy, EnergyFault>
    ensures ok { IfOk result (λ energy. energy_of_table (table_view table.now) ≡ Ok energy) }
    ensures stated { IfOk result (States (table_view table.now)) }
    ensures refused { IfErr result (IsFirstOf (energy_of_table (table_view table.now))) }
{
    let variables = variables_of(table)?;
    let constant = constant_of(table)?;
    let mut energy = without_terms(alloc, variables, constant);
    add_terms(&mut energy, table)?;
    Ok(energy)
}

/// The energy of so many variables that is the constant everywhere.
fn without_terms(alloc: Global, variables: u32, constant: i64) -> Energy
    requires variables { variables ≤ variable_limit }
    requires constant { IsWithin value_limit constant }
    ensures { result ≡ record { constant = constant; variables = variables; terms = [] } }
{
    let mut energy = Energy::new(alloc);
    let _ = energy.add_constant(constant);
    for _ in 0..variables {
        let _ = energy.add_variable();
    }
    energy
}

/// Adds the terms that a table names to an energy that has none.
fn add_terms(energy: &mut Energy, table: &Table) -> Result<(), EnergyFault>
    requires variables { energy.old.variables ≤ variable_limit }
    requires empty { energy.old.terms ≡ [] }
    ensures ok { OnOk result (GainsAll energy.old energy.new
        (terms_in energy.old.variables (table_view
        table.now))) }
    ensures refused { IfErr result
        (IsFirstOf (terms_in energy.old.variables (table_view table.now))) }
{
    let Some(value) = member(table, EnergyKey::Terms.name()) else {
        return Ok(());
    };
    let Some(items) = value.as_array() else {
        return Err(EnergyFault::BadField(EnergyKey::Terms));
    };
    if items.len() > TERM_LIMIT {
        return Err(EnergyFault::TooManyTerms);
    }
    add_items(energy, items)
}

/// Adds the terms that the items name to an energy that has none.
fn add_items(energy: &mut Energy, items: &Vec<Value>) -> Result<(), EnergyFault>
    requires variables { energy.old.variables ≤ variable_limit }
    requires empty { energy.old.terms ≡ [] }
    requires room { vec_len items.now ≤ term_limit }
    ensures ok { OnOk result (GainsAll energy.old energy.new (terms_from energy.old.variables 0
        (array_view items.now))) }
    ensures refused { IfErr result
        (IsFirstOf (terms_from energy.old.variables 0 (array_view items.now))) }
{
    for (place, item) in items.iter().enumerate() {
        add_term(energy, place, item)?;
    }
    Ok(())
}
