//! Energies, term by term.
ghost use Rattle.std.specs.Prelude.{◌≡◌, ◌+◌, ◌<◌, ◌≤◌, ◌↔◌, ℕ, Bool, not, [], All, length, pos};
ghost use Rattle.std.specs.Prelude.{◌+ℤ◌, slice_get, IsTrue, IsOk, IfOk, IfErr, OnOk, OnErr};
ghost use Rattle.std.specs.List.{list_all, list_any};
ghost use Rattle.sums.specs.IntegerSums.{int_counted};
ghost use Rattle.pseudo_bool.specs.Limits.{variable_limit, constant_limit};
ghost use Rattle.pseudo_bool.specs.Energies.{IsEnergy, IsTerm, IsWithin, IsValue, value_at};
ghost use Rattle.pseudo_bool.specs.Energies.{assignment};
ghost use Rattle.pseudo_bool.specs.Refusals.{IsTermAccepted, IsAdded, IsTermRefusal};
ghost use Rattle.pseudo_bool.specs.Rows.{term_of, triple_term, IsKept};
ghost use Rattle.pseudo_bool.specs.Hidden.{IsLeastOver, tied_terms, unless_all_terms, if_any_terms};
ghost use Rattle.pseudo_bool.specs.Hidden.{with_terms, IsTieCost, IsTieable, IsTieRefusal};
ghost use Rattle.pseudo_bool.specs.Hidden.{IsTieFault};

use crate::row::{Row, Triple, narrow, push_tied, shorten};
use crate::{CONSTANT_LIMIT, EnergyError, TERM_LIMIT, Term, VALUE_LIMIT, VARIABLE_LIMIT};
use std::alloc::Global;
use std::marker::Model;

/// An energy of yes-no variables: a constant, how many variables there are, and a list of terms.
/// Contracts see these three, and that they keep the limits. An addition that is refused changes
/// nothing.
#[derive(Drop)]
pub struct Energy {
    constant: i64,
    variables: u32,
    rows: Vec<Row>,
    triples: Vec<Triple>,
}

impl Model for Energy {
    ghost use Rattle.pseudo_bool.specs.Energies as meaning;
    ghost use Rattle.pseudo_bool.specs.Energies.{IsEnergy};
    ghost use Rattle.pseudo_bool.specs.Rows.{terms_of, AreKept};

    ghost Value = { meaning.Energy };

    ghost view = { λ e. record {
      constant = e.constant;
      variables = e.variables;
      terms = terms_of e.triples.items e.rows.items;
    } };

    ghost invariant = { λ e. IsEnergy (record {
      constant = e.constant;
      variables = e.variables;
      terms = terms_of e.triples.items e.rows.items;
    }) ×
        AreKept e.triples.items e.rows.items };
}

impl Energy {
    /// The energy 0, of no variables.
    pub fn new(alloc: Global) -> Energy
        ensures { result ≡ record { constant = pos 0; variables = 0; terms = [] } }
    {
        Energy {
            constant: 0,
            variables: 0,
            rows: Vec::new(alloc),
            triples: Vec::new(alloc),
        }
    }

    /// Whether an energy may have this many variables: at most `VARIABLE_LIMIT`.
    pub fn fits(variables: u32) -> bool
        ensures { IsTrue result ↔ (variables ≤ variable_limit) }
    {
        variables <= VARIABLE_LIMIT
    }

    /// Makes it the energy 0 of this many variables, with no terms. It keeps the room of its lists
    /// for the terms to come, so that an energy that is cleared and filled again seldom grows. It
    /// takes no memory.
    pub fn clear(&mut self, variables: u32)
        requires { variables ≤ variable_limit }
        ensures { self.new ≡ record { constant = pos 0; variables = variables; terms = [] } }
    {
        self.constant = 0;
        self.variables = variables;
        self.rows.clear();
        self.triples.clear();
    }

    /// The sum of the constants that were added, from `-CONSTANT_LIMIT` to `CONSTANT_LIMIT`.
    pub fn constant(&self) -> i64
        ensures value { result ≡ self.now.constant }
        ensures limits { IsEnergy self.now }
    {
        self.constant
    }

    /// How many variables there are, at most `VARIABLE_LIMIT`. They are numbered from 0.
    pub fn variables(&self) -> u32
        ensures value { result ≡ self.now.variables }
        ensures limits { IsEnergy self.now }
    {
        self.variables
    }

    /// How many terms there are, at most `TERM_LIMIT`.
    pub fn term_count(&self) -> usize
        ensures value { result ≡ length self.now.terms }
        ensures limits { IsEnergy self.now }
    {
        self.rows.len()
    }

    /// The term at a place of the list, counted from 0.
    pub fn term(&self, index: usize) -> Term
        requires { index < length self.now.terms }
        ensures value { slice_get self.now.terms index ≡ Some result }
        ensures within { IsTerm self.now.variables result }
        ensures limits { IsEnergy self.now }
    {
        self.rows[index].term(self.triples.as_slice())
    }

    /// A further variable, which answers its number: 0 for the first. `NoSuchVariable` where there
    /// are `VARIABLE_LIMIT` variables already. It takes no memory.
    pub fn add_variable(&mut self) -> Result<u32, EnergyError>
        ensures accepted { IsOk result ↔ (self.old.variables < variable_limit) }
        ensures number { IfOk result (λ number. number ≡ self.old.variables) }
        ensures added { OnOk result
            (self.new ≡ record self.old { variables = self.old.variables + 1 }) }
        ensures refused { IfErr result (λ e. e ≡ EnergyError.NoSuchVariable) }
        ensures unchanged { OnErr result (self.new ≡ self.old) }
    {
        if self.variables >= VARIABLE_LIMIT {
            return Err(EnergyError::NoSuchVariable);
        }
        let number = self.variables;
        self.variables = number + 1;
        Ok(number)
    }

    /// Adds a number to the constant: both the number, from `-VALUE_LIMIT` to `VALUE_LIMIT`, and
    /// the sum of all of them, from `-CONSTANT_LIMIT` to `CONSTANT_LIMIT`. Refused is `ValueRange`
    /// alone.
    pub fn add_constant(&mut self, constant: i64) -> Result<(), EnergyError>
        ensures accepted { IsOk result
            ↔ (IsValue constant × IsWithin constant_limit (self.old.constant +ℤ constant)) }
        ensures added { OnOk result (self.new
            ≡ record self.old { constant = self.old.constant +ℤ constant }) }
        ensures refused { IfErr result (λ e. e ≡ EnergyError.ValueRange) }
        ensures unchanged { OnErr result (self.new ≡ self.old) }
    {
        if !is_within(constant, VALUE_LIMIT) {
            return Err(EnergyError::ValueRange);
        }
        let sum = self.constant + constant;
        if !is_within(sum, CONSTANT_LIMIT) {
            return Err(EnergyError::ValueRange);
        }
        self.constant = sum;
        Ok(())
    }

    /// Adds a term of one variable at the end of the list: its numbers where the variable is 0 and
    /// where it is 1 (Kolmogorov and Zabih, PAMI 2004, section 2). Refused, the first that holds:
    /// `NoSuchVariable` where the variable is not one of the energy's, `ValueRange` where a number
    /// is not from `-VALUE_LIMIT` to `VALUE_LIMIT`, `TooManyTerms` where the list is full,
    /// `OutOfMemory` where a growth was refused.
    pub fn add_term1(&mut self, first: u32, table: [i64; 2]) -> Result<(), EnergyError>
        ensures accepted { OnOk result (IsTermAccepted self.old (Term.One first table)) }
        ensures added { OnOk result (IsAdded self.old self.new (Term.One first table)) }
        ensures refused { IfErr result (IsTermRefusal self.old (Term.One first table)) }
        ensures unchanged { OnErr result (self.new ≡ self.old) }
    {
        if first >= self.variables {
            return Err(EnergyError::NoSuchVariable);
        }
        if !are_values(&table) {
            return Err(EnergyError::ValueRange);
        }
        self.add_row(Row::One(shorten(first), narrow(&table)))
    }

    /// Adds a term of two variables at the end of the list: its numbers at 00, 01, 10 and 11, where
    /// the first variable is the first digit. Refused, the first that holds: `NoSuchVariable`,
    /// `SameVariable` where the two are one, `ValueRange`, `TooManyTerms`, `OutOfMemory`, as by
    /// `add_term1`.
    pub fn add_term2(&mut self, first: u32, second: u32, table: [i64; 4]) -> Result<(), EnergyError>
        ensures accepted { OnOk result (IsTermAccepted self.old (Term.Two first second table)) }
        ensures added { OnOk result (IsAdded self.old self.new (Term.Two first second table)) }
        ensures refused { IfErr result (IsTermRefusal self.old (Term.Two first second table)) }
        ensures unchanged { OnErr result (self.new ≡ self.old) }
    {
        if first >= self.variables || second >= self.variables {
            return Err(EnergyError::NoSuchVariable);
        }
        if first == second {
            return Err(EnergyError::SameVariable);
        }
        if !are_values(&table) {
            return Err(EnergyError::ValueRange);
        }
        self.add_row(Row::Two(shorten(first), shorten(second), narrow(&table)))
    }

    /// Adds a term of three variables at the end of the list: its numbers at 000, 001, 010, 011,
    /// 100, 101, 110 and 111, where the first variable is the first digit. Refused, the first that
    /// holds: `NoSuchVariable`, `SameVariable` where two of the three are one, `ValueRange`,
    /// `TooManyTerms`, `OutOfMemory`, as by `add_term1`.
    pub fn add_term3(
        &mut self,
        first: u32,
        second: u32,
        third: u32,
        table: [i64; 8],
    ) -> Result<(), EnergyError>
        ensures accepted { OnOk result
            (IsTermAccepted self.old (Term.Three first second third table)) }
        ensures added { OnOk result
            (IsAdded self.old self.new (Term.Three first second third table)) }
        ensures refused { IfErr result
            (IsTermRefusal self.old (Term.Three first second third table)) }
        ensures unchanged { OnErr result (self.new ≡ self.old) }
    {
        if first >= self.variables || second >= self.variables || third >= self.variables {
            return Err(EnergyError::NoSuchVariable);
        }
        if first == second || first == third || second == third {
            return Err(EnergyError::SameVariable);
        }
        if !are_values(&table) {
            return Err(EnergyError::ValueRange);
        }
        self.add_triple(Triple {
            first,
            second,
            third,
            table: narrow(&table),
        })
    }

    /// Adds a row of one or two variables, if there is room for one more.
    fn add_row(&mut self, row: Row) -> Result<(), EnergyError>
        requires term { IsTerm self.old.variables (term_of [] row) }
        requires kept { IsKept 0 row }
        ensures accepted { OnOk result (IsTermAccepted self.old (term_of [] row)) }
        ensures added { OnOk result (IsAdded self.old self.new (term_of [] row)) }
        ensures refused { IfErr result (IsTermRefusal self.old (term_of [] row)) }
        ensures unchanged { OnErr result (self.new ≡ self.old) }
    {
        if self.rows.len() >= TERM_LIMIT {
            return Err(EnergyError::TooManyTerms);
        }
        self.rows.push(row)?;
        Ok(())
    }

    /// Adds a triple, if there is room for one more term.
    fn add_triple(&mut self, triple: Triple) -> Result<(), EnergyError>
        requires { IsTerm self.old.variables (triple_term triple) }
        ensures accepted { OnOk result (IsTermAccepted self.old (triple_term triple)) }
        ensures added { OnOk result (IsAdded self.old self.new (triple_term triple)) }
        ensures refused { IfErr result (IsTermRefusal self.old (triple_term triple)) }
        ensures unchanged { OnErr result (self.new ≡ self.old) }
    {
        if TERM_LIMIT <= self.rows.len() {
            return Err(EnergyError::TooManyTerms);
        }
        let place = self.triples.len() as u32;
        self.triples.reserve(1)?;
        self.rows.push(Row::Three(place))?;
        self.triples.push(triple)?;
        Ok(())
    }

    /// Adds a cost that is paid unless each named variable is 1, by a further variable, which
    /// answers its number: the least value over that variable is the old value and the cost, or the
    /// old value where all named ones are 1. No name counts as all. It adds a term of the new
    /// variable, and one of each name and it, at the end of the list. Refused, the first that
    /// holds: `NoSuchVariable` where a name is not one of the energy's, or there are
    /// `VARIABLE_LIMIT` variables already; `ValueRange` where the cost is not from 0 to
    /// `VALUE_LIMIT`; `TooManyTerms` where the list has no room for all these terms; `OutOfMemory`
    /// where a growth was refused.
    pub fn add_unless_all(&mut self, names: &[u32], cost: i64) -> Result<u32, EnergyError>
        ensures accepted { OnOk result (IsTieable self.old names.now cost) }
        ensures number { IfOk result (λ number. number ≡ self.old.variables) }
        ensures added { OnOk result (self.new
            ≡ with_terms self.old (unless_all_terms names.now self.old.variables cost)) }
        ensures least { OnOk result ((x : ℕ → Bool) → IsLeastOver self.new self.old.variables x
            (value_at self.old x +ℤ int_counted (not (list_all x names.now)) cost)) }
        ensures refused { IfErr result (IsTieRefusal self.old names.now cost) }
        ensures unchanged { OnErr result (self.new ≡ self.old) }
    {
        self.test_tie(names, cost)?;
        self.add_tied(names, cost, &[cost, 0], &[0, cost, 0, 0])
    }

    /// Adds a cost that is paid if any of the named variables is 1, by a further variable, which
    /// answers its number: the least value over that variable is the old value, or the old value
    /// and the cost where a named one is 1. No name counts as none. It adds the terms that
    /// `add_unless_all` adds, and refuses as it does.
    pub fn add_if_any(&mut self, names: &[u32], cost: i64) -> Result<u32, EnergyError>
        ensures accepted { OnOk result (IsTieable self.old names.now cost) }
        ensures number { IfOk result (λ number. number ≡ self.old.variables) }
        ensures added { OnOk result (self.new
            ≡ with_terms self.old (if_any_terms names.now self.old.variables cost)) }
        ensures least { OnOk result ((x : ℕ → Bool) → IsLeastOver self.new self.old.variables x
            (value_at self.old x +ℤ int_counted (list_any x names.now) cost)) }
        ensures refused { IfErr result (IsTieRefusal self.old names.now cost) }
        ensures unchanged { OnErr result (self.new ≡ self.old) }
    {
        self.test_tie(names, cost)?;
        self.add_tied(names, cost, &[0, cost], &[0, 0, cost, 0])
    }

    /// Whether a cost over named variables may be added; memory is not asked.
    fn test_tie(&self, names: &[u32], cost: i64) -> Result<(), EnergyError>
        ensures accepted { OnOk result (IsTieable self.now names.now cost) }
        ensures refused { IfErr result (IsTieFault self.now names.now cost) }
    {
        if self.variables >= VARIABLE_LIMIT || !are_below(names, self.variables) {
            return Err(EnergyError::NoSuchVariable);
        }
        if !is_cost(cost) {
            return Err(EnergyError::ValueRange);
        }
        if names.len() >= TERM_LIMIT - self.rows.len() {
            return Err(EnergyError::TooManyTerms);
        }
        Ok(())
    }

    /// Adds a variable, a term of it alone and a term of each named variable and it, if there is
    /// memory.
    fn add_tied(
        &mut self,
        names: &[u32],
        cost: i64,
        alone: &[i64; 2],
        beside: &[i64; 4],
    ) -> Result<u32, EnergyError>
        requires tie { IsTieable self.old names.now cost }
        requires alone { All IsValue alone.now }
        requires beside { All IsValue beside.now }
        ensures number { IfOk result (λ number. number ≡ self.old.variables) }
        ensures added { OnOk result (self.new
            ≡ with_terms self.old (tied_terms names.now self.old.variables alone.now beside.now)) }
        ensures limits { IsEnergy self.old }
        ensures refused { IfErr result (λ e. e ≡ EnergyError.OutOfMemory) }
        ensures unchanged { OnErr result (self.new ≡ self.old) }
    {
        self.rows.reserve(names.len() + 1)?;
        let hidden = self.variables;
        push_tied(&mut self.rows, names, hidden, alone, beside);
        self.variables = hidden + 1;
        Ok(hidden)
    }

    /// The value at an assignment, one bit for each variable in their order: the constant plus what
    /// each term's table has there (Kolmogorov and Zabih, PAMI 2004, section 2). Its size is at
    /// most `CONSTANT_LIMIT + TERM_LIMIT * VALUE_LIMIT`. It takes no memory.
    pub fn value(&self, bits: &[bool]) -> i64
        requires { length bits.now ≡ self.now.variables }
        ensures { result ≡ value_at self.now (assignment bits.now) }
    {
        let triples = self.triples.as_slice();
        let mut total = self.constant;
        for row in &self.rows {
            total += row.value(triples, bits);
        }
        total
    }
}

/// Whether a number without its sign is at most the limit.
fn is_within(value: i64, limit: u64) -> bool
    ensures { IsTrue result ↔ IsWithin limit value }
{
    value.unsigned_abs() <= limit
}

/// Whether each number of a table is in its range.
fn are_values(table: &[i64]) -> bool
    ensures { IsTrue result ↔ All IsValue table.now }
{
    table.iter().all(|value| is_within(*value, VALUE_LIMIT))
}

/// Whether each variable is below a number.
fn are_below(names: &[u32], variables: u32) -> bool
    ensures { IsTrue result ↔ All (λ name. name < variables) names.now }
{
    names.iter().all(|name| *name < variables)
}

/// Whether a number is a cost.
fn is_cost(cost: i64) -> bool
    ensures { IsTrue result ↔ IsTieCost cost }
{
    cost >= 0 && is_within(cost, VALUE_LIMIT)
}
