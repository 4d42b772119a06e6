//! Energies and their answers. The values of the small ones were worked by hand.
use crate::energies::is_minimised;
use crate::energies::picture::PICTURE;
use crate::rows::{expect, hold, take_ok};
use crate::streams::{CutWriter, ROOM, SlowReader, run};
use problem_files::{EnergyFault, energy_of, read_table};
use pseudo_bool::{Energy, Term};
use std::alloc::{AllocError, Global};

/// Files, and what is written for each.
const MINIMA: &[(&str, &str)] = &[
    // The values at 00, 01, 10 and 11 are 6, 14, 7 and 8.
    (
        "variables = 2\nterms = [{ on = [0], values = [5,2] }, { on = [1], values = [1,6] }, \
         { on = [0,1], values = [0,3,4,0] }]",
        "minimum 6\nassignment 00\n",
    ),
    (
        "variables = 2\nterms = [{ on = [0,1], values = [0,0,0,-5] }]",
        "minimum -5\nassignment 11\n",
    ),
    ("variables = 0\nconstant = 7", "minimum 7\nassignment\n"),
    ("variables = 3", "minimum 0\nassignment 000\n"),
    (
        "variables = 3\nconstant = -1000000000\n[[terms]]\non = [1]\nvalues = [0, -1000000000]",
        "minimum -2000000000\nassignment 010\n",
    ),
    // The two ends disagree, and the cheapest place to change is between x1 and x2.
    (
        "variables = 4\nterms = [{ on = [0], values = [9,0] }, { on = [3], values = [0,9] }, \
         { on = [0,1], values = [0,3,3,0] }, { on = [1,2], values = [0,2,2,0] }, \
         { on = [2,3], values = [0,4,4,0] }]",
        "minimum 2\nassignment 1100\n",
    ),
    // Terms of three variables, of both kinds: the sum of the entries with an even number of ones
    // less the others is at least 0, and below 0.
    (
        "variables = 3\nterms = [{ on = [0], values = [0,1] }, { on = [1], values = [0,1] }, \
         { on = [2], values = [0,1] }, { on = [0,1,2], values = [0,0,0,0,0,0,0,-4] }]",
        "minimum -1\nassignment 111\n",
    ),
    // 000 and 111 are both 0: of those that are equally low, the one with the fewest ones is
    // printed.
    (
        "variables = 3\nterms = [{ on = [0], values = [0,1] }, { on = [1], values = [0,1] }, \
         { on = [2], values = [0,1] }, { on = [0,1,2], values = [0,0,0,0,0,0,0,-3] }]",
        "minimum 0\nassignment 000\n",
    ),
    (
        "variables = 3\nterms = [{ on = [0], values = [0,1] }, { on = [1], values = [0,1] }, \
         { on = [2], values = [0,1] }, { on = [0,1,2], values = [-1,0,0,0,0,0,0,0] }]",
        "minimum -1\nassignment 000\n",
    ),
    // Every assignment whose first variable is 1 is 0.
    (
        "variables = 3\nterms = [{ on = [0,1,2], values = [-1,0,0,0,0,0,0,0] }, \
         { on = [0], values = [3,0] }]",
        "minimum 0\nassignment 100\n",
    ),
    (
        "variables = 2\nterms = [{ on = [0,1], values = [0,1,1,0] }]",
        "minimum 0\nassignment 00\n",
    ),
    // 10 and 11 are both 0.
    (
        "variables = 2\nterms = [{ on = [0], values = [3,0] }, { on = [0,1], values = [0,5,0,0] }]",
        "minimum 0\nassignment 10\n",
    ),
    // 100 and 110 are both 12.
    (
        "variables = 3\nconstant = 10\nterms = [{ on = [0], values = [6,0] }, \
         { on = [2], values = [0,3] }, { on = [0,1], values = [0,2,2,0] }, \
         { on = [1,2], values = [0,2,2,0] }]",
        "minimum 12\nassignment 100\n",
    ),
    // What a problem file need not have, and what is passed over in it.
    (
        "variables = 1\nconstant = 0\nterms = []",
        "minimum 0\nassignment 0\n",
    ),
    (
        "terms = [{ values = [0, 0], on = [0], note = \"free\" }]\nvariables = 1",
        "minimum 0\nassignment 0\n",
    ),
    (
        "\u{feff}variables = 0b1 # one\r\nname = \"small\"\r\n[picture]\r\nwidth = 1\r\n",
        "minimum 0\nassignment 0\n",
    ),
    (
        "variables = 1\n[[terms]]\non = [\n  0, # x0\n]\nvalues = [+0, -0]",
        "minimum 0\nassignment 0\n",
    ),
];

#[test]
fn minima(rt: HostRuntime) {
    for (place, row) in MINIMA.iter().enumerate() {
        expect(
            &rt,
            place,
            is_minimised(&rt, row.0.as_bytes(), 0, row.1, ""),
        );
    }
}

// The most variables, the last of them, and the extremes of the values.
const TABLE: &[u8] = b"constant = -1000000000
variables = 2097152
[[terms]]
values = [-1000000000, 1000000000]
on = [2097151]
[[terms]]
values = [0, 3, 4, 0]
on = [0, 1]
[more]
terms = 7
";

/// Whether an energy is that of the table.
fn is_of_table(energy: &Energy) -> bool {
    energy.constant() == -1_000_000_000
        && energy.variables() == 2_097_152
        && energy.term_count() == 2
        && energy.term(0) == Term::One(2_097_151, [-1_000_000_000, 1_000_000_000])
        && energy.term(1) == Term::Two(0, 1, [0, 3, 4, 0])
}

/// Whether the table makes its energy.
fn is_made(alloc: Global) -> Result<bool, EnergyFault> {
    let table = read_table(alloc, TABLE)?;
    let energy = energy_of(alloc, &table)?;
    Ok(is_of_table(&energy))
}

#[test]
fn the_energy_of_a_table(rt: HostRuntime) {
    hold(&rt, take_ok(&rt, is_made(rt.alloc())));
}

/// Whether what is written tells the minimum, and how many pixels are light.
fn is_parted(written: &[u8]) -> bool {
    let Some(digits) = written.strip_prefix(b"minimum 123892\nassignment ") else {
        return false;
    };
    let mut ones = 0u32;
    for digit in digits {
        ones = ones.saturating_add(u32::from(*digit == b'1'));
    }
    digits.len() == 4096 + 1 && ones == 2_753
}

// A photograph in two parts, dark and light: the minimum, and how many pixels are light, come from
// an independent program, which is checked against public libraries of maximum flows.
#[test]
fn a_picture_in_two_parts(rt: HostRuntime) {
    let file = take_ok(&rt, picture_energy(rt.alloc()));
    let mut reader = SlowReader::new(file.as_bytes(), ROOM, false);
    let mut writer = CutWriter::ample();
    let mut faults = CutWriter::ample();
    let ended = run(
        &rt,
        &["gco", "energy"],
        &mut reader,
        &mut writer,
        &mut faults,
    );
    hold(&rt, ended == 0 && faults.held.is_empty());
    hold(&rt, is_parted(writer.held.as_slice()));
}

// A pixel costs its difference from 60 where it is dark and from 170 where it is light, and two
// neighbours of unlike labels cost 20 where they differ by at most 5, else 5.
fn picture_energy(alloc: Global) -> Result<String, AllocError> {
    let mut file = String::from_str(alloc, "variables = 4096\nterms = [\n")?;
    for (place, pixel) in PICTURE.iter().enumerate() {
        push_pixel(alloc, &mut file, place, *pixel)?;
    }
    file.push_str("]\n")?;
    Ok(file)
}

// The term of a pixel, and those of it and its neighbours to the right and below.
fn push_pixel(alloc: Global, file: &mut String, place: usize, pixel: u8) -> Result<(), AllocError> {
    let dark = pixel.abs_diff(60);
    let light = pixel.abs_diff(170);
    let term = format!(in alloc; "{{ on = [{place}], values = [{dark}, {light}] }},\n")?;
    file.push_str(term.as_str())?;
    if place % 64 < 63 {
        push_pair(alloc, file, place, 1)?;
    }
    push_pair(alloc, file, place, 64)
}

// The term of a pixel and the one that comes so many places later, if there is one.
fn push_pair(
    alloc: Global,
    file: &mut String,
    place: usize,
    later: usize,
) -> Result<(), AllocError> {
    let next = place.saturating_add(later);
    let (Some(pixel), Some(other)) = (PICTURE.get(place), PICTURE.get(next)) else {
        return Ok(());
    };
    let cost = if pixel.abs_diff(*other) <= 5 { 20 } else { 5 };
    let term = format!(in alloc;
        "{{ on = [{place}, {next}], values = [0, {cost}, {cost}, 0] }},\n"
    )?;
    file.push_str(term.as_str())
}
