//! The first term that is not regular.
use crate::energies::add_term;
use crate::rows::{expect, hold};
use pseudo_bool::{Energy, Term};
use regular::{Fixed, NotRegular, check, is_regular_table};

/// A first term and a second, and the place of the first that is not regular with what was fixed
/// there.
type Tried = (Term, Term, Option<(usize, Option<(usize, bool)>)>);

const TRIED: &[Tried] = &[
    (
        Term::Two(0, 1, [1, 0, 0, 1]),
        Term::Two(0, 1, [0, 5, 5, 0]),
        Some((0, None)),
    ),
    (
        Term::Two(0, 1, [0, 5, 5, 0]),
        Term::Two(1, 2, [1, 0, 0, 1]),
        Some((1, None)),
    ),
    (
        Term::Two(0, 1, [0, 3, 4, 0]),
        Term::Two(0, 1, [1, 2, 3, 4]),
        None,
    ),
    (Term::One(0, [7, -7]), Term::Two(0, 1, [0, 0, 0, -5]), None),
    (
        Term::One(0, [0, 0]),
        Term::Three(2, 0, 1, [0, 0, 0, -1, 0, -1, 0, -1]),
        Some((1, Some((2, true)))),
    ),
    (
        Term::One(0, [0, 0]),
        Term::Three(2, 0, 1, [0, 0, 0, 1, 0, 0, 0, 0]),
        Some((1, Some((0, false)))),
    ),
    (
        Term::One(0, [0, 0]),
        Term::Three(2, 0, 1, [0, 0, 0, 0, 0, 1, 0, 0]),
        Some((1, Some((1, false)))),
    ),
    (
        Term::One(0, [0, 0]),
        Term::Three(2, 0, 1, [0, 0, 0, 0, 0, 0, 0, 1]),
        Some((1, Some((0, true)))),
    ),
    (
        Term::One(0, [0, 0]),
        Term::Three(2, 0, 1, [-1, 0, 0, 0, 0, 0, 0, 0]),
        None,
    ),
    (
        Term::One(0, [0, 0]),
        Term::Three(2, 0, 1, [0, 0, 0, 0, 0, 0, 0, -4]),
        None,
    ),
    (
        Term::Two(0, 1, [2, 0, 0, 2]),
        Term::Three(2, 0, 1, [0, 0, 0, 1, 0, 0, 0, 0]),
        Some((0, None)),
    ),
];

fn not_regular(expected: Option<(usize, Option<(usize, bool)>)>) -> Option<NotRegular> {
    let (term, fixed) = expected?;
    Some(NotRegular {
        term,
        fixed: match fixed {
            Some((position, value)) => Some(Fixed { position, value }),
            None => None,
        },
    })
}

/// Whether of an energy of three variables and two terms the first that is not regular is told.
fn is_told(energy: &mut Energy, tried: &Tried) -> bool {
    let (first, second, expected) = tried;
    energy.clear(3);
    add_term(energy, *first) == Ok(())
        && add_term(energy, *second) == Ok(())
        && check(energy).err() == not_regular(*expected)
}

/// Whether tables of large numbers are told to be regular, or not.
fn are_large_told() -> bool {
    let large = 1_000_000_000_000_000_000;
    is_regular_table(&[large, large, large, large])
        && !is_regular_table(&[large, -large, large, large])
}

#[test]
fn the_first_failing_term_is_named(rt: HostRuntime) {
    let mut energy = Energy::new(rt.alloc());
    hold(&rt, are_large_told());
    for (place, tried) in TRIED.iter().enumerate() {
        expect(&rt, place, is_told(&mut energy, tried));
    }
}
