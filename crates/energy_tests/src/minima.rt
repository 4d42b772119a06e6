//! Cuts that show values, and minima of small energies. The values were worked by hand.
ghost use Rattle.std.specs.Prelude.{◌≡◌, vec_len, IfOk};
ghost use Rattle.pseudo_bool.specs.Limits.{term_limit};
ghost use Rattle.compile_cut.specs.Quadratics.{IsQuadraticBounded};

use crate::rows::{expect, hold};
use compile_cut::{Net, Quadratic, compile, net_of};
use flow_network::cut_capacity;
use minimum::minimise;
use pseudo_bool::Energy;
use regular::check;
use std::alloc::{AllocError, Global};
use std::process::Abort;

/// Tables over x0, over x1 and over both, the values at 00, 01, 10 and 11, the least and where it
/// stands.
type Case = ([i64; 2], [i64; 2], [i64; 4], [i64; 4], i64, [bool; 2]);

const CASES: &[Case] = &[
    (
        [5, 2],
        [1, 6],
        [0, 3, 4, 0],
        [6, 14, 7, 8],
        6,
        [false, false],
    ),
    (
        [0, 0],
        [0, 0],
        [0, 0, 0, -5],
        [0, 0, 0, -5],
        -5,
        [true, true],
    ),
    (
        [-3, 4],
        [2, -7],
        [1, 1, 1, 1],
        [0, -9, 7, -2],
        -9,
        [false, true],
    ),
    (
        [1_000_000_000, -1_000_000_000],
        [0, 0],
        [-1_000_000_000, 1_000_000_000, 1_000_000_000, -1_000_000_000],
        [0, 2_000_000_000, 0, -2_000_000_000],
        -2_000_000_000,
        [true, true],
    ),
];

/// The capacities of the cuts that show 00, 01, 10 and 11 in a net of two nodes, each with the
/// constant added.
fn cut_values(rt: &impl Abort, net: &Net, constant: i64) -> [i64; 4] {
    let mut values = [constant; 4];
    for (place, value) in values.iter_mut().enumerate() {
        let side = [place / 2 == 1, place % 2 == 1];
        assert!(rt; net.nodes() == side.len());
        let capacity = i64::try_from(cut_capacity(net, &side)).expect(rt, "small");
        *value = value.wrapping_add(capacity);
    }
    values
}

/// The energy of the tables of a case. Whether no table was refused.
fn put(energy: &mut Energy, case: &Case) -> bool {
    energy.clear(2);
    energy.add_term1(0, case.0).is_ok()
        && energy.add_term1(1, case.1).is_ok()
        && energy.add_term2(0, 1, case.2).is_ok()
}

/// Whether the cuts of an energy show these values.
fn shows(rt: &impl Abort, alloc: Global, energy: &Energy, values: &[i64; 4]) -> bool {
    let Ok(regular) = check(energy) else {
        return false;
    };
    match compile(alloc, regular) {
        Ok(compiled) => cut_values(rt, &compiled.net, compiled.constant) == *values,
        Err(_) => false,
    }
}

/// Whether this is the minimum of an energy, and stands at this assignment.
fn has_minimum(alloc: Global, energy: &Energy, value: i64, assignment: &[bool]) -> bool {
    let Ok(regular) = check(energy) else {
        return false;
    };
    match minimise(alloc, regular) {
        Ok(minimum) => minimum.value == value && minimum.assignment.as_slice() == assignment,
        Err(_) => false,
    }
}

/// Whether the cuts show the values of a case, and the minimum is its least.
fn is_right(rt: &impl Abort, alloc: Global, energy: &mut Energy, case: &Case) -> bool {
    put(energy, case)
        && shows(rt, alloc, energy, &case.3)
        && has_minimum(alloc, energy, case.4, &case.5)
}

/// The form of the first case, its terms added one after another.
fn first_form(alloc: Global) -> Result<Quadratic, AllocError>
    ensures bounded { IfOk result (IsQuadraticBounded term_limit) }
    ensures nodes { IfOk result (λ form. vec_len form.weights ≡ 2) }
{
    let mut form = Quadratic::zero(alloc, 2)?;
    form.add_one(0, &[5, 2]);
    form.add_one(1, &[1, 6]);
    form.add_pair(0, 1, &[0, 3, 4, 0])?;
    Ok(form)
}

#[test]
fn cuts_show_values_and_minima(rt: HostRuntime) {
    let mut energy = Energy::new(rt.alloc());
    for (place, case) in CASES.iter().enumerate() {
        expect(&rt, place, is_right(&rt, rt.alloc(), &mut energy, case));
    }
}

/// Whether the cuts of the first case's form show its values.
fn shows_first_form(rt: &impl Abort, alloc: Global) -> bool {
    let Ok(form) = first_form(alloc) else {
        return false;
    };
    match net_of(alloc, form) {
        Ok(compiled) => cut_values(rt, &compiled.net, compiled.constant) == CASES[0].3,
        Err(_) => false,
    }
}

#[test]
fn cuts_show_a_form(rt: HostRuntime) {
    hold(&rt, shows_first_form(&rt, rt.alloc()));
}

/// The constants of energies without terms, and their least assignments with the fewest ones. The
/// least value is the constant, and the least cut has the value 0.
const BARE: &[(i64, &[bool])] = &[(7, &[]), (-2, &[false; 3])];

/// Whether an energy without terms has this constant as its minimum, at this assignment.
fn is_bare(alloc: Global, energy: &mut Energy, constant: i64, assignment: &[bool]) -> bool {
    energy.clear(0);
    for _ in assignment {
        if energy.add_variable().is_err() {
            return false;
        }
    }
    energy.add_constant(constant).is_ok() && has_minimum(alloc, energy, constant, assignment)
}

#[test]
fn energies_without_terms(rt: HostRuntime) {
    let mut energy = Energy::new(rt.alloc());
    for (place, row) in BARE.iter().enumerate() {
        expect(&rt, place, is_bare(rt.alloc(), &mut energy, row.0, row.1));
    }
}
