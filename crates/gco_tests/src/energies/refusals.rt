//! Inputs that are refused, and the lines of faults.
use crate::energies::is_minimised;
use crate::rows::{expect, hold, take_ok};
use crate::streams::{SlowReader, ends};
use byte_streams::{INPUT_LIMIT, WatchedReader, WriteFailed, read_input};
use gco_cli::{Fault, line_of};
use problem_files::{EnergyFault, EnergyKey};
use regular::{Fixed, NotRegular};
use std::alloc::{AllocError, Global};
use std::process::Abort;
use std::sync::Wait;
use std::thread::Threads;

/// The terms of an energy of two variables, and the line that refuses it.
const TERMS: &[(&str, &str)] = &[
    // Each term is tested by itself: the sum of these two is regular.
    (
        "{ on = [0,1], values = [1,0,0,1] }, { on = [0,1], values = [0,5,5,0] }",
        "refused 20 term 0\n",
    ),
    (
        "{ on = [0], values = [1,0] }, { on = [1,0], values = [0,0,-1,0] }",
        "refused 20 term 1\n",
    ),
    ("{ on = [5], values = [0,0] }", "refused 16 term 0\n"),
    ("{ on = [-1], values = [0,0] }", "refused 16 term 0\n"),
    (
        "{ on = [4294967296], values = [0,0] }",
        "refused 16 term 0\n",
    ),
    (
        "{ on = [0,4294967296], values = [0,0,0,0] }",
        "refused 16 term 0\n",
    ),
    (
        "{ on = [-1,-1], values = [0,0,0,0] }",
        "refused 16 term 0\n",
    ),
    ("{ on = [5,5], values = [0,0,0,0] }", "refused 16 term 0\n"),
    (
        "{ on = [5], values = [1000000001,0] }",
        "refused 16 term 0\n",
    ),
    (
        "{ on = [0,1,2], values = [0,0,0,0,0,0,0,0] }",
        "refused 16 term 0\n",
    ),
    (
        "{ on = [0,0,2], values = [0,0,0,0,0,0,0,0] }",
        "refused 16 term 0\n",
    ),
    ("{ on = [0,0], values = [0,0,0,0] }", "refused 17 term 0\n"),
    (
        "{ on = [1,1], values = [0,0,0,2000000000] }",
        "refused 17 term 0\n",
    ),
    (
        "{ on = [0,1,0], values = [0,0,0,0,0,0,0,1000000001] }",
        "refused 17 term 0\n",
    ),
    (
        "{ on = [0,1,1], values = [0,0,0,0,0,0,0,0] }",
        "refused 17 term 0\n",
    ),
    (
        "{ on = [0], values = [1000000001,0] }",
        "refused 18 term 0\n",
    ),
    (
        "{ on = [0], values = [0,-4294967297] }",
        "refused 18 term 0\n",
    ),
    (
        "{ on = [1,0], values = [0,0,0,-1000000001] }",
        "refused 18 term 0\n",
    ),
    (
        "{ on = [1,0], values = [0,0,0,9223372036854775807] }",
        "refused 18 term 0\n",
    ),
    ("7", "refused 29 terms 0\n"),
    ("{ values = [1,2] }", "refused 29 terms 0\n"),
    ("{ on = 0, values = [1,2] }", "refused 29 terms 0\n"),
    ("{ on = [], values = [1] }", "refused 29 terms 0\n"),
    ("{ on = [true], values = [1,2] }", "refused 29 terms 0\n"),
    ("{ on = [0.0], values = [0,0] }", "refused 29 terms 0\n"),
    ("{ on = [0], values = [1] }", "refused 29 terms 0\n"),
    ("{ on = [0], values = [1,2.0] }", "refused 29 terms 0\n"),
    ("{ on = [5], values = [0,0,0] }", "refused 29 terms 0\n"),
    ("{ on = [9], values = [1,2,3,4] }", "refused 29 terms 0\n"),
    (
        "{ on = [0,1], values = [0,0,0,1e9] }",
        "refused 29 terms 0\n",
    ),
    (
        "{ on = [0,1,0], values = [0,0,0,0] }",
        "refused 29 terms 0\n",
    ),
    (
        "{ on = [0,1,2,3], values = [0,0,0,0,0,0,0,0] }",
        "refused 29 terms 0\n",
    ),
    (
        "{ on = [0,1,2], values = [0,0,0,0,0,0,0,0,0] }",
        "refused 29 terms 0\n",
    ),
    // Each term is taken whole before the next, and the test of regularity comes last.
    (
        "{ on = [0,1], values = [1,0,0,1] }, { on = [2], values = [0,0] }, 7",
        "refused 16 term 1\n",
    ),
    (
        "{ on = [0,1], values = [1,0,0,1] }, { on = [1], values = [0,0] }, 7",
        "refused 29 terms 2\n",
    ),
];

/// Whether an energy of these terms is refused by this line.
fn are_refused(
    rt: &(impl AllocGlobal + Abort + Threads + Wait + Sync),
    terms: &str,
    said: &str,
) -> bool {
    let file = take_ok(
        rt,
        format!(in rt.alloc(); "variables = 2\nterms = [{terms}]"),
    );
    is_minimised(rt, file.as_bytes(), 1, "", said)
}

#[test]
fn terms(rt: HostRuntime) {
    for (place, row) in TERMS.iter().enumerate() {
        expect(&rt, place, are_refused(&rt, row.0, row.1));
    }
}

/// Inputs, and the lines that refuse them.
const INPUTS: &[(&[u8], &str)] = &[
    (b"", "refused 29 variables\n"),
    (b"variables = -1", "refused 29 variables\n"),
    (b"variables = 2097153", "refused 29 variables\n"),
    (b"variables = 4294967296", "refused 29 variables\n"),
    (b"variables = 1.5", "refused 29 variables\n"),
    (b"variables = \"2\"", "refused 29 variables\n"),
    (
        b"constant = 1000000001\nterms = 3\nvariables = true",
        "refused 29 variables\n",
    ),
    (
        b"variables = 2097152\nconstant = 1e9",
        "refused 29 constant\n",
    ),
    (
        b"variables = 1\nterms = 3\nconstant = '7'",
        "refused 29 constant\n",
    ),
    (
        b"variables = 1\nterms = 3\nconstant = 1000000001",
        "refused 18 constant\n",
    ),
    (
        b"variables = 1\nconstant = -1000000001",
        "refused 18 constant\n",
    ),
    (b"variables = 1\nterms = 3", "refused 29 terms\n"),
    (
        b"variables = 1\n[terms]\non = [0]\nvalues = [0,0]",
        "refused 29 terms\n",
    ),
    // Of a term of three the first projection that is not regular is told.
    (
        b"variables = 3\nterms = [{ on = [0,1,2], values = [0,0,0,-1,0,-1,0,-1] }]",
        "refused 20 term 0 fixed 2 at 1\n",
    ),
    (
        b"variables = 3\nterms = [{ on = [0,1,2], values = [1,0,0,1,0,0,0,0] }]",
        "refused 20 term 0 fixed 0 at 0\n",
    ),
    (
        b"variables = 3\nterms = [{ on = [0,1,2], values = [0,0,0,0,1,0,0,1] }]",
        "refused 20 term 0 fixed 0 at 1\n",
    ),
    (b"variables = 1\nvariables = 1", "refused 28\n"),
    (b"variables = 9223372036854775808", "refused 28\n"),
    (b"variables = ", "refused 28\n"),
    // The bytes are no text in UTF-8, or nested too deep.
    (b"\xff", "refused 28\n"),
    (b"variables = 1 # \xc3", "refused 28\n"),
];

/// Arrays in one another, 10,002 deep.
fn deep_input(alloc: Global) -> Result<Vec<u8>, AllocError> {
    let mut deep = vec![in alloc; b'['; 10_004]?;
    deep[0] = b'a';
    deep[1] = b'=';
    Ok(deep)
}

#[test]
fn inputs(rt: HostRuntime) {
    for (place, row) in INPUTS.iter().enumerate() {
        expect(&rt, place, is_minimised(&rt, row.0, 1, "", row.1));
    }
    let deep = take_ok(&rt, deep_input(rt.alloc()));
    hold(
        &rt,
        is_minimised(&rt, deep.as_slice(), 1, "", "refused 28\n"),
    );
}

/// A reader of so many bytes in large pieces.
fn long_reader(more: usize, is_broken: bool) -> SlowReader<'static> {
    SlowReader {
        bytes: b"",
        more,
        step: INPUT_LIMIT,
        is_broken,
    }
}

/// Lengths of inputs that fail at their end, and the lines that refuse them.
const LENGTHS: &[(usize, &str)] = &[
    (0, "refused 31\n"),
    (5000, "refused 31\n"),
    (INPUT_LIMIT + 1, "refused 32\n"),
];

/// Whether an input of the greatest length is read whole.
fn is_read_whole(rt: &(impl AllocGlobal + Abort)) -> bool {
    let mut reader = long_reader(INPUT_LIMIT, false);
    let mut source = WatchedReader::new(&mut reader);
    let input = take_ok(rt, read_input(rt.alloc(), &mut source));
    input.len() == INPUT_LIMIT && source.failures() == 0
}

/// Whether an input of so many bytes that fails at its end is refused by this line.
fn is_refused_at(rt: &(impl AllocGlobal + Threads + Wait + Sync), more: usize, said: &str) -> bool {
    let mut reader = long_reader(more, true);
    ends(rt, &["gco", "energy"], &mut reader, 1, b"", said)
}

/// An input of the greatest length is read whole, and one byte more is refused before a fault
/// behind it is met.
#[test]
fn inputs_end_at_the_limit(rt: HostRuntime) {
    for (place, row) in LENGTHS.iter().enumerate() {
        expect(&rt, place, is_refused_at(&rt, row.0, row.1));
    }
    hold(&rt, is_read_whole(&rt));
}

const LINES: &[(Fault, &str)] = &[
    (Fault::OutOfMemory, "refused 0\n"),
    (
        Fault::Write(WriteFailed { count: 4 }),
        "refused 9 after 4\n",
    ),
    (
        Fault::EnergyFile(EnergyFault::NoSuchVariable(0)),
        "refused 16 term 0\n",
    ),
    (
        Fault::EnergyFile(EnergyFault::SameVariable(7)),
        "refused 17 term 7\n",
    ),
    (
        Fault::EnergyFile(EnergyFault::ValueRange(8_388_607)),
        "refused 18 term 8388607\n",
    ),
    (
        Fault::EnergyFile(EnergyFault::ConstantRange),
        "refused 18 constant\n",
    ),
    (Fault::EnergyFile(EnergyFault::TooManyTerms), "refused 19\n"),
    (
        Fault::TermNotRegular(NotRegular {
            term: 0,
            fixed: None,
        }),
        "refused 20 term 0\n",
    ),
    (
        Fault::TermNotRegular(NotRegular {
            term: 10,
            fixed: Some(Fixed {
                position: 2,
                value: true,
            }),
        }),
        "refused 20 term 10 fixed 2 at 1\n",
    ),
    (Fault::EnergyFile(EnergyFault::BadToml), "refused 28\n"),
    (
        Fault::EnergyFile(EnergyFault::BadField(EnergyKey::Variables)),
        "refused 29 variables\n",
    ),
    (
        Fault::EnergyFile(EnergyFault::BadElement(EnergyKey::Terms, 3)),
        "refused 29 terms 3\n",
    ),
    (Fault::ReadFailed, "refused 31\n"),
    (Fault::InputTooLong, "refused 32\n"),
];

#[test]
fn lines(rt: HostRuntime) {
    for (place, row) in LINES.iter().enumerate() {
        expect(&rt, place, line_of(row.0).as_str() == row.1);
    }
}
