//! The minimum of every table of three variables over -1, 0 and 1, against a search over all
//! assignments.
use crate::rows::{expect, hold};
use crate::small_answers::ANSWERS;
use minimum::minimise;
use pseudo_bool::Energy;
use regular::{Fixed, NotRegular, Regular, check};
use std::alloc::Global;
use std::process::Abort;

/// The table whose numbers are the ternary digits of a number, less 1.
fn table_of(number: usize) -> [i64; 8] {
    let mut table = [0; 8];
    let mut rest = number;
    for entry in table.iter_mut() {
        *entry = (rest % 3) as i64 - 1;
        rest /= 3;
    }
    table.reverse();
    table
}

/// The digit of a projection, by the order in which projections are looked at.
fn digit_of(fixed: Fixed) -> u8 {
    match (fixed.position, fixed.value) {
        (0, false) => b'0',
        (0, true) => b'1',
        (1, false) => b'2',
        (1, true) => b'3',
        (2, false) => b'4',
        _ => b'5',
    }
}

/// The letter of an assignment of three variables: a for 000, b for 001, and so on.
fn letter_of(bits: &[bool]) -> u8 {
    match bits {
        [first, second, third] => b'a'
            + u8::from(*first) * 4
            + u8::from(*second) * 2
            + u8::from(*third),
        _ => b'?',
    }
}

/// The least entry of a table.
fn least_of(table: &[i64; 8]) -> i64 {
    let mut least = table[0];
    for entry in table {
        least = least.min(*entry);
    }
    least
}

/// Whether this letter is that of the least assignment, and the minimum the least entry.
fn is_least(alloc: Global, regular: Regular, table: &[i64; 8], answer: u8) -> bool {
    match minimise(alloc, regular) {
        Ok(minimum) => {
            letter_of(minimum.assignment.as_slice()) == answer && minimum.value == least_of(table)
        }
        Err(_) => false,
    }
}

/// Whether this digit is that of the projection that fails.
fn is_failing(failing: NotRegular, answer: u8) -> bool {
    match failing.fixed {
        Some(fixed) => failing.term == 0 && digit_of(fixed) == answer,
        None => false,
    }
}

/// Whether a table has this answer.
fn is_answered(alloc: Global, energy: &mut Energy, table: &[i64; 8], answer: u8) -> bool {
    energy.clear(3);
    if energy.add_term3(0, 1, 2, *table).is_err() {
        return false;
    }
    match check(energy) {
        Ok(regular) => is_least(alloc, regular, table, answer),
        Err(failing) => is_failing(failing, answer),
    }
}

/// The answers of 81 tables, the first of which has this number.
fn expect_answers(
    rt: &impl Abort,
    alloc: Global,
    energy: &mut Energy,
    first: usize,
    answers: &[u8],
) {
    hold(rt, answers.len() == 81);
    for (place, answer) in answers.iter().enumerate() {
        let number = first.wrapping_add(place);
        let is_right = is_answered(alloc, energy, &table_of(number), *answer);
        expect(rt, number, is_right);
    }
}

#[test]
fn every_small_table_of_three(rt: HostRuntime) {
    let mut energy = Energy::new(rt.alloc());
    for place in 0..ANSWERS.len() {
        let answers = ANSWERS[place].as_bytes();
        expect_answers(&rt, rt.alloc(), &mut energy, 81 * place, answers);
    }
}
