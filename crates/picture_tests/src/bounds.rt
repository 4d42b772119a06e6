//! What labels cost by themselves, and how near a picture is to the least energy.
use crate::pictures::{LINEAR, ONE, ROW, SHIFTS, SQUARED, SWAPS, ZEROS};
use crate::rows::expect;
use crate::tasks::{RESTORE, Task, gives, plain};
use moves::Bound;
use run_options::{RestoreOptions, StereoOptions};
use std::process::Abort;
use vision::Report;

/// Two unequal labels cost the same.
const EQUAL: Option<Bound> = Some(Bound { vmin: 1, vmax: 1 });

/// The costs of two unequal labels are 1 and 2.
const TWICE: Option<Bound> = Some(Bound { vmin: 1, vmax: 2 });

const ASKED: RestoreOptions = RestoreOptions {
    bound: true,
    ..RESTORE
};

const COSTLY: RestoreOptions = RestoreOptions {
    label_cost: Some(1),
    ..RESTORE
};

/// Options of a restoring, the picture of three pixels that it makes of `ROW`, what its labels cost
/// the pixels, the pairs and by themselves, and the bound that is told.
type Row = (
    RestoreOptions,
    &'static [u8],
    (i64, i64),
    i64,
    Option<Bound>,
);

const ROWS: &[Row] = &[
    // The row as it is costs as much, and a move that lowers nothing changes nothing.
    (COSTLY, ZEROS, (3, 0), 1, None),
    (
        RestoreOptions {
            label_cost: Some(2),
            ..RESTORE
        },
        ZEROS,
        (3, 0),
        2,
        None,
    ),
    (
        RestoreOptions {
            label_cost: Some(0),
            ..RESTORE
        },
        ROW,
        (0, 2),
        0,
        None,
    ),
    (ASKED, ROW, (0, 2), 0, EQUAL),
    (
        RestoreOptions {
            label_cost: Some(0),
            ..ASKED
        },
        ROW,
        (0, 2),
        0,
        EQUAL,
    ),
    (
        RestoreOptions {
            bound: true,
            ..COSTLY
        },
        ZEROS,
        (3, 0),
        1,
        None,
    ),
    // The last cycle that is allowed changes something, or there is none.
    (
        RestoreOptions { cycles: 0, ..ASKED },
        ZEROS,
        (3, 0),
        0,
        None,
    ),
    (RestoreOptions { cycles: 1, ..ASKED }, ROW, (0, 2), 0, None),
    (RestoreOptions { cycles: 2, ..ASKED }, ROW, (0, 2), 0, EQUAL),
    (
        RestoreOptions {
            bound: true,
            ..LINEAR
        },
        ZEROS,
        (3, 0),
        0,
        TWICE,
    ),
    // No metric.
    (
        RestoreOptions {
            bound: true,
            ..SQUARED
        },
        ZEROS,
        (3, 0),
        0,
        None,
    ),
    (
        RestoreOptions {
            bound: true,
            ..SWAPS
        },
        ROW,
        (0, 2),
        0,
        None,
    ),
    (
        RestoreOptions {
            label_cost: Some(0),
            ..SWAPS
        },
        ROW,
        (0, 2),
        0,
        None,
    ),
    // A label that no pixel has costs nothing.
    (
        RestoreOptions {
            label_cost: Some(1),
            weight: 0,
            ..RESTORE
        },
        ROW,
        (0, 0),
        2,
        None,
    ),
];

/// Whether the picture of a row is made of `ROW`, and the report told.
fn is_restored(rt: &(impl Abort + AllocGlobal), row: &Row) -> bool {
    let (options, written, parts, label, bound) = *row;
    let told = plain(parts);
    let wanted = Report {
        energy: told.energy.saturating_add(label),
        label_part: label,
        bound,
        ..told
    };
    gives(rt, &Task::Restore(options), ROW, written, wanted)
}

#[test]
fn labels_cost(rt: HostRuntime) {
    for (place, row) in ROWS.iter().enumerate() {
        expect(&rt, place, is_restored(&rt, row));
    }
}

/// Options of a matching, its two pictures, the picture that it makes of them, and what its labels
/// cost the pixels. Its pairs cost nothing.
type Matching = (StereoOptions, &'static [u8], &'static [u8], i64);

const MATCHINGS: &[Matching] = &[
    (
        StereoOptions {
            bound: true,
            ..SHIFTS
        },
        b"P5\n4 1\n9\n\x00\x09\x00\x00P5\n4 1\n9\n\x09\x00\x00\x00",
        b"P5\n4 1\n1\n\x01\x01\x01\x01",
        9,
    ),
    // One label alone.
    (
        StereoOptions { bound: true, ..ONE },
        b"P5\n2 1\n9\n\x03\x04P5\n2 1\n9\n\x03\x01",
        b"P5\n2 1\n1\n\x00\x00",
        3,
    ),
];

/// Whether the picture of a matching is made, and unequal labels are told to cost the same.
fn is_matched(rt: &(impl Abort + AllocGlobal), row: &Matching) -> bool {
    let wanted = Report {
        bound: EQUAL,
        ..plain((row.3, 0))
    };
    gives(rt, &Task::Stereo(row.0), row.1, row.2, wanted)
}

#[test]
fn shifts_are_near(rt: HostRuntime) {
    for (place, row) in MATCHINGS.iter().enumerate() {
        expect(&rt, place, is_matched(&rt, row));
    }
}
