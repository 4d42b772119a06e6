//! Costs over named variables, each paid by a further variable that an energy is least over. Worked
//! by hand.
use crate::energies::{VALUES, add_terms};
use crate::rows::expect;
use pseudo_bool::{Energy, EnergyError, Term};
use regular::is_regular_table;

/// Named variables, a cost, whether it is paid unless all of them are 1, else if any is, and at
/// 000, 001 and so on whether it is paid: 1 says yes.
type Tied = (&'static [u32], i64, bool, &'static [u8; 8]);

const TIED: &[Tied] = &[
    // No name counts as all, and as none.
    (&[], 5, true, b"00000000"),
    (&[], 5, false, b"00000000"),
    (&[0], 5, true, b"11110000"),
    (&[0], 5, false, b"00001111"),
    (&[2, 1], 7, true, b"11101110"),
    (&[2, 1], 7, false, b"01110111"),
    // A variable that is named twice.
    (&[1, 1], 3, true, b"11001100"),
    (&[1, 1], 3, false, b"00110011"),
    (&[0, 1, 2], 1_000_000_000, true, b"11111110"),
    (&[0, 1, 2], 1_000_000_000, false, b"01111111"),
    (&[0, 1, 2], 0, true, b"00000000"),
    (&[0, 1, 2], 0, false, b"00000000"),
];

/// Adds a cost.
fn tie(
    energy: &mut Energy,
    names: &[u32],
    cost: i64,
    unless_all: bool,
) -> Result<u32, EnergyError> {
    if unless_all {
        energy.add_unless_all(names, cost)
    } else {
        energy.add_if_any(names, cost)
    }
}

/// Whether a term is of this variable and the fourth, and a regular one.
fn is_pair_with(term: Term, name: u32) -> bool {
    match term {
        Term::Two(first, 3, table) => {
            first == name
                && table
                    .iter()
                    .all(|value| value.unsigned_abs() <= 1_000_000_000)
                && is_regular_table(&table)
        }
        _ => false,
    }
}

/// Whether the terms from the seventh on are one of variable 3 alone, and of each named variable
/// and it a regular one.
fn are_terms(energy: &Energy, names: &[u32]) -> bool {
    if energy.term_count() != 7 + names.len() || !matches!(energy.term(6), Term::One(3, _)) {
        return false;
    }
    for (place, name) in names.iter().enumerate() {
        if !is_pair_with(energy.term(7 + place), *name) {
            return false;
        }
    }
    true
}

/// The least value of an energy of four variables over the last one, where the digits of a number
/// say what the first three are.
fn least_at(energy: &Energy, place: usize) -> Option<i64> {
    if energy.variables() != 4 {
        return None;
    }
    let first = place & 4 != 0;
    let second = place & 2 != 0;
    let third = place & 1 != 0;
    let at_0 = energy.value(&[first, second, third, false]);
    let at_1 = energy.value(&[first, second, third, true]);
    Some(at_0.min(at_1))
}

/// Whether at each assignment the least value over variable 3 is the old one, and the cost where it
/// is paid.
fn are_least(energy: &Energy, cost: i64, paid: &[u8; 8]) -> bool {
    for (place, value) in VALUES.iter().enumerate() {
        let wanted = if paid[place] == b'1' {
            value.saturating_add(cost)
        } else {
            *value
        };
        if least_at(energy, place) != Some(wanted) {
            return false;
        }
    }
    true
}

/// The energy of three variables to which a cost is added. Whether nothing was refused.
fn fill(energy: &mut Energy) -> bool {
    energy.clear(3);
    energy.add_constant(-9).is_ok() && add_terms(energy)
}

/// Whether a cost is paid where it is to be.
fn is_paid(energy: &mut Energy, tied: &Tied) -> bool {
    fill(energy)
        && tie(energy, tied.0, tied.1, tied.2) == Ok(3)
        && energy.variables() == 4
        && are_terms(energy, tied.0)
        && are_least(energy, tied.1, tied.3)
}

#[test]
fn tied_costs_are_paid(rt: HostRuntime) {
    let mut energy = Energy::new(rt.alloc());
    for (place, tied) in TIED.iter().enumerate() {
        expect(&rt, place, is_paid(&mut energy, tied));
    }
}
