//! The options of each command, their ranges and their defaults: what the tables of docs/IMAGES.md
//! and docs/LABEL.md say.
use crate::rows::{expect, expect_at, take_ok};
use crate::streams::{CutWriter, ROOM, SlowReader, join_words, run};
use std::alloc::{AllocError, Global};
use std::process::Abort;
use std::str;
use std::sync::Wait;
use std::thread::Threads;

/// An option with a number: its name, the number before the least, the least, the most, the one
/// after it, the range in the words of help, and the default, if it has one.
type Row = (
    &'static str,
    &'static str,
    &'static str,
    &'static str,
    &'static str,
    &'static str,
    &'static str,
);

const RESTORE: &[Row] = &[
    ("trunc", "0", "1", "10000", "10001", "1 to 10000", "1"),
    ("weight", "-1", "0", "1000", "1001", "0 to 1000", "1"),
    ("neighbours", "3", "4", "8", "9", "4 (by an edge) or 8", "4"),
    ("cycles", "-1", "0", "1000", "1001", "0 to 1000", "100"),
    (
        "label-cost",
        "-1",
        "0",
        "10000000",
        "10000001",
        "0 to 10000000",
        "",
    ),
];

const STEREO: &[Row] = &[
    ("trunc", "0", "1", "10000", "10001", "1 to 10000", "1"),
    ("weight", "-1", "0", "1000", "1001", "0 to 1000", "1"),
    ("neighbours", "3", "4", "8", "9", "4 (by an edge) or 8", "4"),
    ("cycles", "-1", "0", "1000", "1001", "0 to 1000", "100"),
    ("labels", "0", "1", "256", "257", "1 to 256", "16"),
    (
        "cap",
        "-1",
        "0",
        "10000000",
        "10000001",
        "0 to 10000000",
        "20",
    ),
];

const SEGMENT: &[Row] = &[
    ("strong", "-1", "0", "1000", "1001", "0 to 1000", "20"),
    ("weak", "-1", "0", "1000", "1001", "0 to 1000", "5"),
    ("edge", "-1", "0", "65535", "65536", "0 to 65535", "5"),
    ("neighbours", "3", "4", "8", "9", "4 (by an edge) or 8", "4"),
    ("cycles", "-1", "0", "1000", "1001", "0 to 1000", "100"),
];

const LOW: &[Row] = &[("low", "-1", "0", "65535", "65536", "0 to 65535", "")];

const HIGH: &[Row] = &[("high", "-1", "0", "65535", "65536", "0 to 65535", "")];

const WORKERS: &[Row] = &[
    ("threads", "0", "1", "64", "65", "1 to 64", ""),
    ("blocks", "0", "1", "256", "257", "1 to 256", "16"),
    ("ring", "0", "1", "65536", "65537", "1 to 65536", "64"),
    (
        "turns",
        "-1",
        "0",
        "1000000",
        "1000001",
        "0 to 1000000",
        "4096",
    ),
    ("rounds", "-1", "0", "10000", "10001", "0 to 10000", "64"),
];

/// Words of a command, what it says of no input, and options that it takes.
type Group = (&'static [&'static str], &'static str, &'static [Row]);

const GROUPS: &[Group] = &[
    (&["gco", "restore"], "refused 1\n", RESTORE),
    (&["gco", "stereo"], "refused 1\n", STEREO),
    (
        &["gco", "segment", "--low=1", "--high=2"],
        "refused 1\n",
        SEGMENT,
    ),
    (&["gco", "segment", "--high=2"], "refused 1\n", LOW),
    (&["gco", "segment", "--low=1"], "refused 1\n", HIGH),
    (&["gco", "restore"], "refused 1\n", WORKERS),
    (&["gco", "stereo"], "refused 1\n", WORKERS),
    (
        &["gco", "segment", "--low=1", "--high=2"],
        "refused 1\n",
        WORKERS,
    ),
    (&["gco", "energy"], "refused 29 variables\n", WORKERS),
    (&["gco", "label"], "refused 29 sites\n", WORKERS),
];

/// Whether a run of these words with the option at this value, over no input, ends with this status
/// and says this first.
fn is_told(
    rt: &(impl AllocGlobal + Threads + Wait + Sync),
    words: &[&str],
    name: &str,
    value: &str,
    status: u8,
    said: &str,
) -> Result<bool, AllocError> {
    let option = format!(in rt.alloc(); "--{name}={value}")?;
    let words = join_words(rt.alloc(), words, &[option.as_str()])?;
    let mut reader = SlowReader::new(b"", ROOM, false);
    let mut writer = CutWriter::ample();
    let mut faults = CutWriter::ample();
    let ended = run(rt, words.as_slice(), &mut reader, &mut writer, &mut faults);
    let is_said = faults.held.as_slice().starts_with(said.as_bytes());
    Ok(ended == status && writer.held.is_empty() && is_said)
}

/// Whether the option is taken at this value of its row.
fn is_within(
    rt: &(impl AllocGlobal + Abort + Threads + Wait + Sync),
    group: &Group,
    row: &Row,
    value: &str,
) -> bool {
    take_ok(rt, is_told(rt, group.0, row.0, value, 1, group.1))
}

/// Whether the option is refused at this value, with the range that its row tells.
fn is_beyond(
    rt: &(impl AllocGlobal + Abort + Threads + Wait + Sync),
    words: &[&str],
    row: &Row,
    value: &str,
) -> bool {
    let (name, least, most) = (row.0, row.2, row.3);
    let said = format!(in rt.alloc();
        "error: invalid value '{value}' for '--{name} <N>': {value} is not in {least}..={most}"
    );
    let said = take_ok(rt, said);
    take_ok(rt, is_told(rt, words, name, value, 2, said.as_str()))
}

/// Whether the option takes the ends of its range, and no number next to them.
fn is_ranged(
    rt: &(impl AllocGlobal + Abort + Threads + Wait + Sync),
    group: &Group,
    row: &Row,
) -> bool {
    is_within(rt, group, row, row.2)
        && is_within(rt, group, row, row.3)
        && is_beyond(rt, group.0, row, row.1)
        && is_beyond(rt, group.0, row, row.4)
}

/// Whether a line of help tells the range and the default of its option.
fn is_line(alloc: Global, line: &str, row: &Row) -> Result<bool, AllocError> {
    let default = row.6;
    let end = format!(in alloc; " [default: {default}]")?;
    let is_due = if default.is_empty() {
        !line.ends_with("]")
    } else {
        line.ends_with(end.as_str())
    };
    Ok(is_due && line.contains(row.5))
}

/// Whether the line of help for the option tells its range and its default.
fn is_helped(alloc: Global, help: &str, row: &Row) -> Result<bool, AllocError> {
    let name = row.0;
    let front = format!(in alloc; "      --{name} <N>")?;
    for line in help.lines() {
        if line.starts_with(front.as_str()) {
            return is_line(alloc, line, row);
        }
    }
    Ok(false)
}

/// Whether help has a line for each option of some rows.
fn are_helped(rt: &(impl AllocGlobal + Abort), help: &str, rows: &[Row]) -> bool {
    for row in rows {
        if !take_ok(rt, is_helped(rt.alloc(), help, row)) {
            return false;
        }
    }
    true
}

/// Whether help of the command has a line for each option of the group.
fn is_group_helped(rt: &(impl AllocGlobal + Abort + Threads + Wait + Sync), group: &Group) -> bool {
    let words = take_ok(rt, join_words(rt.alloc(), group.0, &["--help"]));
    let mut reader = SlowReader::new(b"", ROOM, false);
    let mut writer = CutWriter::ample();
    let mut faults = CutWriter::ample();
    let ended = run(rt, words.as_slice(), &mut reader, &mut writer, &mut faults);
    match str::from_utf8(writer.held.as_slice()) {
        Ok(help) => ended == 0 && are_helped(rt, help, group.2),
        Err(_) => false,
    }
}

/// Each option of a group is ranged.
fn expect_ranged(
    rt: &(impl AllocGlobal + Abort + Threads + Wait + Sync),
    place: usize,
    group: &Group,
) {
    for row in group.2 {
        expect_at(rt, row.0, place, is_ranged(rt, group, row));
    }
}

#[test]
fn options_are_ranged(rt: HostRuntime) {
    for (place, group) in GROUPS.iter().enumerate() {
        expect_ranged(&rt, place, group);
    }
}

#[test]
fn help_tells_ranges_and_defaults(rt: HostRuntime) {
    for (place, group) in GROUPS.iter().enumerate() {
        expect(&rt, place, is_group_helped(&rt, group));
    }
}
