//! Pictures, and what the image commands make of them. The small ones were worked by hand.
use crate::rows::{expect, take_ok};
use crate::streams::{ROOM, SlowReader, ends, ends_alike};
use std::alloc::{AllocError, Global};
use std::sync::Wait;
use std::thread::Threads;

const RESTORED: &[u8] = b"P5\n3 1\n3\n\x00\x03\x00";

const BLACK: &[u8] = b"P5\n3 1\n3\n\x00\x00\x00";

const PARTED: &[u8] = b"P5\n3 1\n255\n\x0a\x0c\xc8P5\n3 1\n2\n\x01\x00\x02";

const LONE: &[u8] = b"P5\n1 1\n255\n\x07";

/// A picture whose width has a thousand digits.
const VAST: &[u8] = b"P5 \
    9999999999999999999999999999999999999999999999999999999999999999999999999999999999999999999999999999\
    9999999999999999999999999999999999999999999999999999999999999999999999999999999999999999999999999999\
    9999999999999999999999999999999999999999999999999999999999999999999999999999999999999999999999999999\
    9999999999999999999999999999999999999999999999999999999999999999999999999999999999999999999999999999\
    9999999999999999999999999999999999999999999999999999999999999999999999999999999999999999999999999999\
    9999999999999999999999999999999999999999999999999999999999999999999999999999999999999999999999999999\
    9999999999999999999999999999999999999999999999999999999999999999999999999999999999999999999999999999\
    9999999999999999999999999999999999999999999999999999999999999999999999999999999999999999999999999999\
    9999999999999999999999999999999999999999999999999999999999999999999999999999999999999999999999999999\
    9999999999999999999999999999999999999999999999999999999999999999999999999999999999999999999999999999\
    \x201 255\n\x07";

/// Words, the input, the exit status, what is written and what is said.
type Row = (
    &'static [&'static str],
    &'static [u8],
    u8,
    &'static [u8],
    &'static str,
);

const ROWS: &[Row] = &[
    // Expanding 2 reaches 3 at best, a tie; expanding 3 reaches 2.
    (
        &["gco", "restore", "--weight", "1"],
        RESTORED,
        0,
        RESTORED,
        "energy 2 data 0 smooth 2\n",
    ),
    (
        &["gco", "restore", "--weight=2"],
        RESTORED,
        0,
        BLACK,
        "energy 3 data 3 smooth 0\n",
    ),
    // What follows the picture is not looked at.
    (
        &["gco", "restore", "--weight", "1"],
        b"P5\n3 1\n3\n\x00\x03\x00P5\n\x00#",
        0,
        RESTORED,
        "energy 2 data 0 smooth 2\n",
    ),
    // A level costs 1 by itself: three black pixels cost 3 and their level 1, the picture as it is
    // 2 and its two levels 2.
    (
        &["gco", "restore", "--label-cost", "1"],
        RESTORED,
        0,
        BLACK,
        "energy 4 data 3 smooth 0 label 1\n",
    ),
    (
        &["gco", "restore", "--label-cost", "0"],
        RESTORED,
        0,
        RESTORED,
        "energy 2 data 0 smooth 2 label 0\n",
    ),
    // Swaps are made only where no label costs anything by itself.
    (
        &["gco", "restore", "--label-cost", "1", "--moves", "swap"],
        RESTORED,
        1,
        b"",
        "refused 27\n",
    ),
    (
        &[
            "gco",
            "restore",
            "--label-cost",
            "1",
            "--moves",
            "swap",
            "--cycles",
            "0",
        ],
        RESTORED,
        1,
        b"",
        "refused 27\n",
    ),
    (
        &["gco", "restore", "--label-cost", "0", "--moves", "swap"],
        RESTORED,
        0,
        RESTORED,
        "energy 2 data 0 smooth 2 label 0\n",
    ),
    // The bound of a run that its second cycle did not change, and that of none that is cut off
    // before.
    (
        &["gco", "restore", "--bound"],
        RESTORED,
        0,
        RESTORED,
        "energy 2 data 0 smooth 2\nbound 1 2\n",
    ),
    (
        &["gco", "restore", "--bound", "--cycles", "1"],
        RESTORED,
        0,
        RESTORED,
        "energy 2 data 0 smooth 2\nbound none\n",
    ),
    (
        &["gco", "restore", "--bound", "--cycles", "2"],
        RESTORED,
        0,
        RESTORED,
        "energy 2 data 0 smooth 2\nbound 1 2\n",
    ),
    (
        &[
            "gco", "restore", "--bound", "--smooth", "linear", "--trunc", "2",
        ],
        RESTORED,
        0,
        BLACK,
        "energy 3 data 3 smooth 0\nbound 1 4\n",
    ),
    // The square of a distance is no metric.
    (
        &[
            "gco",
            "restore",
            "--bound",
            "--smooth",
            "quadratic",
            "--trunc",
            "4",
        ],
        RESTORED,
        0,
        BLACK,
        "energy 3 data 3 smooth 0\nbound none\n",
    ),
    (
        &["gco", "restore", "--bound", "--label-cost", "1"],
        RESTORED,
        0,
        BLACK,
        "energy 4 data 3 smooth 0 label 1\nbound none\n",
    ),
    (
        &["gco", "restore", "--bound", "--label-cost", "0"],
        RESTORED,
        0,
        RESTORED,
        "energy 2 data 0 smooth 2 label 0\nbound 1 2\n",
    ),
    (
        &["gco", "restore", "--bound", "--moves", "swap"],
        RESTORED,
        0,
        RESTORED,
        "energy 2 data 0 smooth 2\nbound none\n",
    ),
    // Label 0 costs 9 9 0 0, label 1 costs 9 0 0 0.
    (
        &[
            "gco", "stereo", "--labels", "2", "--cap", "9", "--weight", "1",
        ],
        b"P5\n4 1\n9\n\x00\x09\x00\x00P5\n4 1\n9\n\x09\x00\x00\x00",
        0,
        b"P5\n4 1\n1\n\x01\x01\x01\x01",
        "energy 9 data 9 smooth 0\n",
    ),
    (
        &["gco", "stereo", "--bound", "--labels", "2", "--cap", "9"],
        b"P5\n4 1\n9\n\x00\x09\x00\x00P5\n4 1\n9\n\x09\x00\x00\x00",
        0,
        b"P5\n4 1\n1\n\x01\x01\x01\x01",
        "energy 9 data 9 smooth 0\nbound 1 2\n",
    ),
    (
        &["gco", "segment", "--low", "11", "--high", "200"],
        PARTED,
        0,
        b"P5\n3 1\n1\n\x00\x00\x01",
        "energy 6 data 1 smooth 5\n",
    ),
    (
        &["gco", "segment", "--low", "11", "--high", "200"],
        b"P5\n3 1\n255\n\x0a\x0c\xc8P5\n3 1\n3\n\x01\x03\x02",
        1,
        b"",
        "refused 26 sample 1\n",
    ),
    (
        &["gco", "segment", "--low", "11", "--high", "200"],
        b"P5\n3 1\n255\n\x0a\x0c\xc8P5\n2 1\n2\n\x01\x00",
        1,
        b"",
        "refused 25\n",
    ),
    (
        &["gco", "restore"],
        b"P5\n1 1\n256\n\x01\x00",
        1,
        b"",
        "refused 30\n",
    ),
    // The names are looked at in the order smooth, neighbours, moves, before the input is read.
    (
        &["gco", "restore", "--moves", "jump", "--smooth", "cubic"],
        b"",
        1,
        b"",
        "refused 29 smooth\n",
    ),
    (
        &["gco", "restore", "--smooth", "cubic"],
        RESTORED,
        1,
        b"",
        "refused 29 smooth\n",
    ),
    (
        &["gco", "stereo", "--moves", "jump", "--neighbours", "5"],
        b"",
        1,
        b"",
        "refused 29 neighbours\n",
    ),
    (
        &["gco", "restore", "--moves", "Swap"],
        b"",
        1,
        b"",
        "refused 29 moves\n",
    ),
    // The picture, cut to each length.
    (&["gco", "restore"], b"", 1, b"", "refused 1\n"),
    (&["gco", "restore"], b"P", 1, b"", "refused 1\n"),
    (&["gco", "restore"], b"P5", 1, b"", "refused 2 at 2\n"),
    (&["gco", "restore"], b"P5\n", 1, b"", "refused 2 at 3\n"),
    (&["gco", "restore"], b"P5\n3", 1, b"", "refused 2 at 4\n"),
    (&["gco", "restore"], b"P5\n3 ", 1, b"", "refused 2 at 5\n"),
    (&["gco", "restore"], b"P5\n3 1", 1, b"", "refused 2 at 6\n"),
    (
        &["gco", "restore"],
        b"P5\n3 1\n",
        1,
        b"",
        "refused 2 at 7\n",
    ),
    (
        &["gco", "restore"],
        b"P5\n3 1\n3",
        1,
        b"",
        "refused 2 at 8\n",
    ),
    (&["gco", "restore"], b"P5\n3 1\n3\n", 1, b"", "refused 6\n"),
    (
        &["gco", "restore"],
        b"P5\n3 1\n3\n\x00",
        1,
        b"",
        "refused 6\n",
    ),
    (
        &["gco", "restore"],
        b"P5\n3 1\n3\n\x00\x03",
        1,
        b"",
        "refused 6\n",
    ),
    // A comment that is not ended, and one in the place of white space.
    (&["gco", "restore"], b"P5 # x", 1, b"", "refused 2 at 6\n"),
    (&["gco", "restore"], b"P5#", 1, b"", "refused 2 at 2\n"),
    // Numbers of many digits.
    (&["gco", "restore"], VAST, 1, b"", "refused 4\n"),
    (
        &["gco", "restore"],
        b"P5 00000001 1 255\n\x07",
        0,
        LONE,
        "energy 0 data 0 smooth 0\n",
    ),
    // One pixel: no pairs, and blocks with no pixel.
    (
        &["gco", "restore", "--blocks", "16"],
        LONE,
        0,
        LONE,
        "energy 0 data 0 smooth 0\n",
    ),
    (
        &["gco", "restore", "--blocks", "256"],
        LONE,
        0,
        LONE,
        "energy 0 data 0 smooth 0\n",
    ),
];

#[test]
fn pictures(rt: HostRuntime) {
    for (place, row) in ROWS.iter().enumerate() {
        let is_right = ends_alike(&rt, row.0, row.1, row.2, row.3, row.4);
        expect(&rt, place, is_right);
    }
}

/// How the striped picture is restored.
const SHARED: &[&[&str]] = &[
    &["gco", "restore"],
    &["gco", "restore", "--threads", "1"],
    &["gco", "restore", "--threads", "8"],
    &["gco", "restore", "--ring", "1", "--threads", "2"],
    &["gco", "restore", "--blocks", "256", "--threads", "2"],
    &["gco", "restore", "--turns", "16", "--threads", "8"],
    &["gco", "restore", "--rounds", "0", "--threads", "1"],
    &["gco", "restore", "--turns", "0", "--threads", "3"],
];

/// A picture of 64 by 64 samples, 3 in each fourth column and else 0.
pub fn stripes(alloc: Global) -> Result<Vec<u8>, AllocError> {
    let mut picture = Vec::from_slice(alloc, b"P5\n64 64\n3\n")?;
    for _ in 0..1024 {
        picture.extend_from_slice(&[0, 3, 0, 0])?;
    }
    Ok(picture)
}

/// Whether a run of these words writes the striped picture. In each row a stripe costs 2, its two
/// borders, and would cost 3 if it were black.
fn is_restored(
    rt: &(impl AllocGlobal + Threads + Wait + Sync),
    words: &[&str],
    picture: &[u8],
) -> bool {
    let mut reader = SlowReader::new(picture, ROOM, false);
    let said = "energy 2048 data 0 smooth 2048\n";
    ends(rt, words, &mut reader, 0, picture, said)
}

#[test]
fn stripes_are_restored(rt: HostRuntime) {
    let picture = take_ok(&rt, stripes(rt.alloc()));
    for (place, words) in SHARED.iter().enumerate() {
        expect(&rt, place, is_restored(&rt, words, picture.as_slice()));
    }
}
