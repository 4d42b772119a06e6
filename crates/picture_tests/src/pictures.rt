//! Pictures and their answers.
use crate::by_workers::stripes;
use crate::rows::{expect, hold, take_ok};
use crate::tasks::{RESTORE, SEGMENT, STEREO, Task, gives, plain};
use label_energies::Moves;
use run_options::{Neighbours, RestoreOptions, SegmentOptions, Shape, StereoOptions};

pub const ROW: &[u8] = b"P5\n3 1\n3\n\x00\x03\x00";

pub const ZEROS: &[u8] = b"P5\n3 1\n3\n\x00\x00\x00";

const SQUARE: &[u8] = b"P5\n2 2\n3\n\x00\x03\x03\x00";

const RAMP: &[u8] = b"P5\n5 1\n4\n\x00\x01\x04\x03\x04";

const HEAVY: RestoreOptions = RestoreOptions {
    weight: 2,
    ..RESTORE
};

pub const LINEAR: RestoreOptions = RestoreOptions {
    smooth: Shape::Linear,
    trunc: 2,
    ..RESTORE
};

pub const SQUARED: RestoreOptions = RestoreOptions {
    smooth: Shape::Quadratic,
    trunc: 4,
    ..RESTORE
};

const TOUCHING: RestoreOptions = RestoreOptions {
    neighbours: Neighbours::Eight,
    ..RESTORE
};

pub const SWAPS: RestoreOptions = RestoreOptions {
    moves: Moves::Swap,
    ..RESTORE
};

pub const SHIFTS: StereoOptions = StereoOptions {
    labels: 2,
    cap: 9,
    ..STEREO
};

pub const ONE: StereoOptions = StereoOptions {
    labels: 1,
    ..STEREO
};

const NEAR: SegmentOptions = SegmentOptions {
    low: 10,
    high: 16,
    strong: 3,
    weak: 0,
    ..SEGMENT
};

const CORNERS: SegmentOptions = SegmentOptions {
    low: 0,
    high: 9,
    strong: 2,
    weak: 1,
    edge: 0,
    neighbours: Neighbours::Eight,
    cycles: 100,
};

/// A command, its input, the picture that it writes, and the two parts of the energy.
type Row = (Task, &'static [u8], &'static [u8], (i64, i64));

const ROWS: &[Row] = &[
    (Task::Restore(RESTORE), ROW, ROW, (0, 2)),
    (Task::Restore(HEAVY), ROW, ZEROS, (3, 0)),
    // What follows the image is not looked at.
    (
        Task::Restore(RESTORE),
        b"P5\n3 1\n3\n\x00\x03\x00P5 xx",
        ROW,
        (0, 2),
    ),
    (
        Task::Restore(RestoreOptions {
            cycles: 0,
            ..RESTORE
        }),
        ROW,
        ZEROS,
        (3, 0),
    ),
    (Task::Restore(LINEAR), ROW, ZEROS, (3, 0)),
    (Task::Restore(SQUARED), ROW, ZEROS, (3, 0)),
    (Task::Restore(SWAPS), ROW, ROW, (0, 2)),
    (
        Task::Restore(RESTORE),
        b"P5\n1 1\n255\n\x07",
        b"P5\n1 1\n255\n\x07",
        (0, 0),
    ),
    (Task::Restore(RESTORE), SQUARE, SQUARE, (0, 4)),
    (Task::Restore(TOUCHING), SQUARE, SQUARE, (0, 4)),
    (
        Task::Restore(RestoreOptions {
            weight: 2,
            ..TOUCHING
        }),
        b"P5\n2 2\n3\n\x00\x03\x03\x01",
        b"P5\n2 2\n3\n\x01\x01\x01\x01",
        (5, 0),
    ),
    (
        Task::Restore(LINEAR),
        RAMP,
        b"P5\n5 1\n4\n\x00\x01\x04\x04\x04",
        (1, 3),
    ),
    (
        Task::Restore(RestoreOptions {
            moves: Moves::Swap,
            ..LINEAR
        }),
        RAMP,
        b"P5\n5 1\n4\n\x00\x01\x04\x04\x04",
        (1, 3),
    ),
    (
        Task::Stereo(SHIFTS),
        b"P5\n4 1\n9\n\x00\x09\x00\x00P5\n4 1\n9\n\x09\x00\x00\x00",
        b"P5\n4 1\n1\n\x01\x01\x01\x01",
        (9, 0),
    ),
    (
        Task::Stereo(StereoOptions {
            labels: 3,
            cap: 4,
            ..STEREO
        }),
        b"P5\n3 2\n9\n\x05\x07\x09\x01\x05\x07 \t\r\nP5\n3 2\n255\n\x07\x09\x09\x05\x07\x07",
        b"P5\n3 2\n2\n\x00\x01\x01\x00\x01\x01",
        (6, 2),
    ),
    // One label: the maxval of its picture is 1.
    (
        Task::Stereo(ONE),
        b"P5\n2 1\n9\n\x03\x04P5\n2 1\n9\n\x03\x01",
        b"P5\n2 1\n1\n\x00\x00",
        (3, 0),
    ),
    // Two columns and sixteen labels. Label 0 costs 0 3, label 1 the cap and 1, and the others the
    // cap twice.
    (
        Task::Stereo(STEREO),
        b"P5\n2 1\n9\n\x03\x04P5\n2 1\n9\n\x03\x01",
        b"P5\n2 1\n15\n\x00\x01",
        (1, 1),
    ),
    // One pixel, whose samples have two bytes: 256 and 255.
    (
        Task::Stereo(STEREO),
        b"P5\n1 1\n256\n\x01\x00P5\n1 1\n65535\n\x00\xff",
        b"P5\n1 1\n15\n\x00",
        (1, 0),
    ),
    // 256 and no seed.
    (
        Task::Segment(SEGMENT),
        b"P5\n1 1\n65535\n\x01\x00P5\n1 1\n256\n\x00\x00",
        b"P5\n1 1\n1\n\x01",
        (56, 0),
    ),
    (
        Task::Segment(SEGMENT),
        b"P5\n3 1\n255\n\x0a\x0c\xc8P5\n3 1\n2\n\x01\x00\x02",
        b"P5\n3 1\n1\n\x00\x00\x01",
        (1, 5),
    ),
    (
        Task::Segment(SEGMENT),
        b"P2 3 1 255 10 12 200\nP5 3 1 2\n\x01\x00\x02",
        b"P5\n3 1\n1\n\x00\x00\x01",
        (1, 5),
    ),
    // Two samples that differ by as much as the edge, and by one more.
    (
        Task::Segment(NEAR),
        b"P5\n2 1\n255\n\x0a\x0fP5\n2 1\n2\n\x00\x00",
        b"P5\n2 1\n1\n\x00\x01",
        (1, 3),
    ),
    (
        Task::Segment(NEAR),
        b"P5\n2 1\n255\n\x0a\x10P5\n2 1\n2\n\x00\x00",
        b"P5\n2 1\n1\n\x00\x01",
        (0, 0),
    ),
    (
        Task::Segment(CORNERS),
        b"P5\n2 2\n9\n\x00\x09\x09\x00P5\n2 2\n2\n\x01\x02\x00\x00",
        b"P5\n2 2\n1\n\x00\x01\x01\x00",
        (0, 4),
    ),
];

#[test]
fn pictures_are_written(rt: HostRuntime) {
    for (place, row) in ROWS.iter().enumerate() {
        expect(&rt, place, gives(&rt, &row.0, row.1, row.2, plain(row.3)));
    }
}

/// 64 by 64 pixels, 3 in each fourth column, else 0: the picture is its own answer.
#[test]
fn stripes_are_kept(rt: HostRuntime) {
    let picture = take_ok(&rt, stripes(rt.alloc()));
    let picture = picture.as_slice();
    let wanted = plain((0, 2_048));
    hold(
        &rt,
        gives(&rt, &Task::Restore(RESTORE), picture, picture, wanted),
    );
}
