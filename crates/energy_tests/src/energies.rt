//! Energies as they are put in. The values were worked by hand.
use crate::rows::{expect, hold};
use pseudo_bool::{Energy, EnergyError, Term};
use std::process::Abort;

/// Adds a term.
pub fn add_term(energy: &mut Energy, term: Term) -> Result<(), EnergyError> {
    match term {
        Term::One(first, table) => energy.add_term1(first, table),
        Term::Two(first, second, table) => energy.add_term2(first, second, table),
        Term::Three(first, second, third, table) => energy.add_term3(first, second, third, table),
    }
}

const LEAST: i64 = -1_000_000_000;

const GREATEST: i64 = 1_000_000_000;

/// Terms over three variables.
const TERMS: &[Term] = &[
    Term::One(0, [5, 2]),
    Term::Two(0, 1, [0, 3, 4, 0]),
    Term::Three(2, 0, 1, [10, 20, 30, 40, 50, 60, 70, 80]),
    Term::One(2, [LEAST, GREATEST]),
    Term::Two(1, 2, [GREATEST, LEAST, 7, -7]),
    Term::Three(0, 1, 2, [LEAST, 100, 0, 0, 0, 0, -1, GREATEST]),
];

/// The values of the terms and the constant -9 at 000, 001, and so on.
pub const VALUES: &[i64] = &[
    -999_999_994,
    146,
    -999_999_974,
    1_000_000_052,
    27,
    67,
    -999_999_961,
    2_000_000_066,
];

/// Adds all terms. Whether none was refused.
pub fn add_terms(energy: &mut Energy) -> bool {
    for term in TERMS {
        if add_term(energy, *term).is_err() {
            return false;
        }
    }
    true
}

/// Adds five variables. Whether they got their numbers.
fn add_variables(energy: &mut Energy) -> bool {
    for number in 0..5 {
        if energy.add_variable() != Ok(number) {
            return false;
        }
    }
    true
}

/// Adds five variables, a constant and terms. Whether none was refused.
fn fill(energy: &mut Energy) -> bool {
    add_variables(energy)
        && energy.add_constant(GREATEST).is_ok()
        && add_terms(energy)
        && energy.add_term3(4, 3, 1, [1; 8]).is_ok()
}

/// Whether an energy has this constant, three variables, and so many terms.
fn holds(energy: &Energy, constant: i64, terms: usize) -> bool {
    energy.constant() == constant && energy.variables() == 3 && energy.term_count() == terms
}

/// Whether an energy that is cleared keeps nothing old.
fn is_cleared(energy: &mut Energy) -> bool {
    energy.clear(3);
    holds(energy, 0, 0) && energy.value(&[true, true, true]) == 0
}

/// Whether it then takes the constant -9 and the terms.
fn is_filled_again(energy: &mut Energy) -> bool {
    energy.add_constant(-9).is_ok() && add_terms(energy) && holds(energy, -9, 6)
}

/// The terms stand in their order.
fn expect_terms(rt: &impl Abort, energy: &Energy) {
    for (place, term) in TERMS.iter().enumerate() {
        let is_held = place < energy.term_count() && energy.term(place) == *term;
        expect(rt, place, is_held);
    }
}

/// The values at all bits.
fn expect_values(rt: &impl Abort, energy: &Energy) {
    for (place, value) in VALUES.iter().enumerate() {
        let bits = [place & 4 != 0, place & 2 != 0, place & 1 != 0];
        let is_value = energy.variables() == 3 && energy.value(&bits) == *value;
        expect(rt, place, is_value);
    }
}

#[test]
fn energies_hold_what_was_put_in(rt: HostRuntime) {
    let mut energy = Energy::new(rt.alloc());
    hold(&rt, Energy::fits(5) && fill(&mut energy));
    hold(&rt, is_cleared(&mut energy));
    hold(&rt, is_filled_again(&mut energy));
    expect_terms(&rt, &energy);
    expect_values(&rt, &energy);
}
