//! Words that are refused, help, and words that could not be read.
use crate::rows::{expect, hold};
use crate::streams::{CutWriter, ROOM, SlowReader, run};
use crate::words::helps::{
    ENERGY_HELP, GCO_HELP, LABEL_HELP, RESTORE_HELP, SEGMENT_HELP, STEREO_HELP,
};
use byte_streams::Watched;
use gco_cli::refuse_unread;
use std::io::ErrorKind;
use std::sync::Wait;
use std::thread::Threads;

mod helps;
mod options;

/// Words, the exit status, and how the text begins.
type Row = (&'static [&'static str], u8, &'static str);

const ROWS: &[Row] = &[
    (&["gco"], 2, "error: 'gco' requires a subcommand"),
    (
        &["gco", "paint"],
        2,
        "error: unrecognized subcommand 'paint'",
    ),
    (
        &["gco", "restore", "--weight", "1001"],
        2,
        "error: invalid value '1001' for '--weight <N>': 1001 is not in 0..=1000",
    ),
    (
        &["gco", "energy", "more"],
        2,
        "error: unexpected argument 'more'",
    ),
    (
        &["gco", "energy", "--threads", "65"],
        2,
        "error: invalid value '65' for '--threads <N>': 65 is not in 1..=64",
    ),
    (
        &["gco", "restore", "--threads", "0"],
        2,
        "error: invalid value '0' for '--threads <N>': 0 is not in 1..=64",
    ),
    (
        &["gco", "stereo", "--blocks", "257"],
        2,
        "error: invalid value '257' for '--blocks <N>': 257 is not in 1..=256",
    ),
    (
        &["gco", "segment", "--ring", "0"],
        2,
        "error: invalid value '0' for '--ring <N>': 0 is not in 1..=65536",
    ),
    (
        &["gco", "label", "--turns", "1000001"],
        2,
        "error: invalid value '1000001' for '--turns <N>': 1000001 is not in 0..=1000000",
    ),
    (
        &["gco", "label", "--rounds", "10001"],
        2,
        "error: invalid value '10001' for '--rounds <N>': 10001 is not in 0..=10000",
    ),
    (
        &["gco", "restore", "--label-cost", "10000001"],
        2,
        "error: invalid value '10000001' for '--label-cost <N>': 10000001 is not in 0..=10000000",
    ),
    (
        &["gco", "stereo", "--label-cost", "1"],
        2,
        "error: unexpected argument '--label-cost'",
    ),
    (
        &["gco", "restore", "--bound=1"],
        2,
        "error: unexpected value '1' for '--bound'",
    ),
    (
        &["gco", "energy", "--bound"],
        2,
        "error: unexpected argument '--bound'",
    ),
    (
        &["gco", "--version"],
        2,
        "error: unexpected argument '--version'",
    ),
    (&["gco", "--help"], 0, GCO_HELP),
    (&["gco", "help"], 0, GCO_HELP),
    (&["gco", "energy", "-h"], 0, ENERGY_HELP),
    (&["gco", "help", "energy"], 0, ENERGY_HELP),
    (&["gco", "label", "--help"], 0, LABEL_HELP),
    (&["gco", "restore", "--help"], 0, RESTORE_HELP),
    (&["gco", "stereo", "-h"], 0, STEREO_HELP),
    (&["gco", "help", "segment"], 0, SEGMENT_HELP),
    (
        &["gco", "segment", "--low", "1"],
        2,
        "error: the following required arguments were not provided:\n  --high <N>",
    ),
    (
        &["gco", "segment", "--bound"],
        2,
        "error: unexpected argument '--bound'",
    ),
    (
        &["gco", "restore", "--trunc", "0"],
        2,
        "error: invalid value '0'",
    ),
    (
        &["gco", "restore", "--smooth", "cubic", "--cycles", "1001"],
        2,
        "error: invalid value '1001'",
    ),
];

/// Whether the text begins as the row tells; help is the whole text.
fn is_text(text: &[u8], row: &Row) -> bool {
    text.starts_with(row.2.as_bytes()) && (row.1 != 0 || text.len() == row.2.len())
}

/// Whether nothing is read, and the text is written for help and said else.
fn is_told(rt: &(impl AllocGlobal + Threads + Wait + Sync), row: &Row) -> bool {
    let mut reader = SlowReader::new(b"variables = 1", ROOM, false);
    let mut writer = CutWriter::ample();
    let mut faults = CutWriter::ample();
    let ended = run(rt, row.0, &mut reader, &mut writer, &mut faults);
    let (text, other) = if row.1 == 0 {
        (&writer, &faults)
    } else {
        (&faults, &writer)
    };
    ended == row.1
        && reader.bytes.len() == 13
        && other.held.is_empty()
        && is_text(text.held.as_slice(), row)
}

#[test]
fn words(rt: HostRuntime) {
    for (place, row) in ROWS.iter().enumerate() {
        expect(&rt, place, is_told(&rt, row));
    }
}

const UNREAD: &[u8] = b"refused 0\nerror: an argument is not text\n";

#[test]
fn words_that_were_not_read(rt: HostRuntime) {
    let mut writer = CutWriter::ample();
    let mut faults = Watched::new(&mut writer);
    hold(&rt, refuse_unread(ErrorKind::OutOfMemory, &mut faults) == 1);
    hold(&rt, refuse_unread(ErrorKind::InvalidData, &mut faults) == 2);
    hold(&rt, writer.held.as_slice() == UNREAD);
}
