//! Each command with all of its options.
use crate::rows::{expect, take_ok};
use crate::streams::{ROOM, SlowReader, ends, join_words};
use std::process::Abort;
use std::sync::Wait;
use std::thread::Threads;

/// Words of a command, its input, what is written and what is said.
type Command = (
    &'static [&'static str],
    &'static [u8],
    &'static [u8],
    &'static str,
);

/// The options of each command. None of them changes an answer.
const WORKERS: &[&str] = &[
    "--threads",
    "2",
    "--blocks",
    "3",
    "--ring",
    "5",
    "--turns",
    "7",
    "--rounds",
    "9",
];

const COMMANDS: &[Command] = &[
    // The values at 00, 01, 10 and 11 are 6, 14, 7 and 8.
    (
        &["gco", "energy"],
        b"variables = 2\nterms = [{ on = [0], values = [5,2] }, { on = [1], values = [1,6] }, \
          { on = [0,1], values = [0,3,4,0] }]",
        b"minimum 6\nassignment 00\n",
        "",
    ),
    // Two sites that each want their own of two labels.
    (
        &["gco", "label", "--bound"],
        b"sites = 2\nlabels = 2\ndata = [0,3,3,0]\npairs = [[0,1],[0,1]]",
        b"energy 2 data 0 smooth 2\nlabels 0 1\nbound 1 2\n",
        "",
    ),
    // Two neighbours cost 2 where one is 0 and the other 3: to keep the picture costs 4, and to
    // make it black 3.
    (
        &[
            "gco",
            "restore",
            "--smooth",
            "linear",
            "--trunc",
            "2",
            "--weight",
            "1",
            "--neighbours",
            "8",
            "--moves",
            "expansion",
            "--cycles",
            "9",
            "--label-cost",
            "0",
            "--bound",
        ],
        b"P5\n3 1\n3\n\x00\x03\x00",
        b"P5\n3 1\n3\n\x00\x00\x00",
        "energy 3 data 3 smooth 0 label 0\nbound 1 4\n",
    ),
    // Label 0 costs 9 9 0 0, label 1 costs 9 0 0 0.
    (
        &[
            "gco",
            "stereo",
            "--smooth",
            "linear",
            "--trunc",
            "2",
            "--weight",
            "1",
            "--neighbours",
            "8",
            "--moves",
            "expansion",
            "--cycles",
            "9",
            "--labels",
            "2",
            "--cap",
            "9",
            "--bound",
        ],
        b"P5\n4 1\n9\n\x00\x09\x00\x00P5\n4 1\n9\n\x09\x00\x00\x00",
        b"P5\n4 1\n1\n\x01\x01\x01\x01",
        "energy 9 data 9 smooth 0\nbound 1 2\n",
    ),
    // The pixel between two seeds costs 1 with the label of the first, and its border with the
    // second 5.
    (
        &[
            "gco",
            "segment",
            "--low",
            "11",
            "--high",
            "200",
            "--strong",
            "20",
            "--weak",
            "5",
            "--edge",
            "5",
            "--neighbours",
            "8",
            "--cycles",
            "9",
        ],
        b"P5\n3 1\n255\n\x0a\x0c\xc8P5\n3 1\n2\n\x01\x00\x02",
        b"P5\n3 1\n1\n\x00\x00\x01",
        "energy 6 data 1 smooth 5\n",
    ),
];

/// Whether a command answers as its row tells, whatever options for workers it is given.
fn is_answered(rt: &(impl AllocGlobal + Abort + Threads + Wait + Sync), command: &Command) -> bool {
    let words = take_ok(rt, join_words(rt.alloc(), command.0, WORKERS));
    let mut reader = SlowReader::new(command.1, ROOM, false);
    ends(rt, words.as_slice(), &mut reader, 0, command.2, command.3)
}

#[test]
fn commands_take_all_options(rt: HostRuntime) {
    for (place, command) in COMMANDS.iter().enumerate() {
        expect(&rt, place, is_answered(&rt, command));
    }
}
