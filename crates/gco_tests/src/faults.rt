//! Writers that stop and readers that fail, at each byte, of each command.
use crate::images::stripes;
use crate::rows::{expect, expect_at, hold, take_ok};
use crate::streams::{CutWriter, ROOM, SlowReader, ends, run};
use byte_streams::{Watched, WatchedReader};
use std::process::Abort;
use std::sync::Wait;
use std::thread::Threads;

/// Words, an input, what is written and what is said.
type Command<'a> = (&'static [&'static str], &'a [u8], &'a [u8], &'static str);

const FILE: &[u8] = b"variables = 2
terms = [
  { on = [0], values = [5,2] },
  { on = [1], values = [1,6] },
  { on = [0,1], values = [0,3,4,0] },
]
";

const ANSWER: &[u8] = b"minimum 6\nassignment 00\n";

const COMMANDS: &[Command<'static>] = &[
    (&["gco", "energy"], FILE, ANSWER, ""),
    // Two sites that each want their own of two labels.
    (
        &["gco", "label", "--bound"],
        b"sites = 2\nlabels = 2\ndata = [0,3,3,0]\npairs = [[0,1],[0,1]]",
        b"energy 2 data 0 smooth 2\nlabels 0 1\nbound 1 2\n",
        "",
    ),
    // Expanding 2 reaches 3 at best, a tie; expanding 3 reaches 2.
    (
        &["gco", "restore", "--bound"],
        b"P5\n3 1\n3\n\x00\x03\x00",
        b"P5\n3 1\n3\n\x00\x03\x00",
        "energy 2 data 0 smooth 2\nbound 1 2\n",
    ),
    // Label 0 costs 9 9 0 0, label 1 costs 9 0 0 0.
    (
        &["gco", "stereo", "--labels", "2", "--cap", "9"],
        b"P5\n4 1\n9\n\x00\x09\x00\x00P5\n4 1\n9\n\x09\x00\x00\x00",
        b"P5\n4 1\n1\n\x01\x01\x01\x01",
        "energy 9 data 9 smooth 0\n",
    ),
    (
        &["gco", "segment", "--low", "11", "--high", "200"],
        b"P5\n3 1\n255\n\x0a\x0c\xc8P5\n3 1\n2\n\x01\x00\x02",
        b"P5\n3 1\n1\n\x00\x00\x01",
        "energy 6 data 1 smooth 5\n",
    ),
];

/// Whether a run of a command whose writer and fault writer stop after so many bytes, of so many a
/// call, ends with this status, and writes and says this.
fn is_held(
    rt: &(impl AllocGlobal + Threads + Wait + Sync),
    command: &Command<'_>,
    writer: &mut CutWriter,
    faults: &mut CutWriter,
    status: u8,
    written: &[u8],
    said: &[u8],
) -> bool {
    let mut reader = SlowReader::new(command.1, ROOM, false);
    run(rt, command.0, &mut reader, writer, faults) == status
        && writer.held.as_slice() == written
        && faults.held.as_slice() == said
}

/// How a writer stops, the bytes that it takes a call, and whether it ends by a fault.
type Stop = (&'static str, usize, bool);

const STOPS: &[Stop] = &[
    ("a byte a call, then a fault", 1, true),
    ("a byte a call, then none", 1, false),
    ("three bytes a call, then a fault", 3, true),
    ("at once, then a fault", ROOM, true),
    ("at once, then none", ROOM, false),
];

/// Whether a run whose writer stops here tells so.
fn is_cut(
    rt: &(impl AllocGlobal + Threads + Wait + Sync),
    command: &Command<'_>,
    line: &[u8],
    room: usize,
    stop: &Stop,
) -> bool {
    let mut writer = CutWriter {
        faults: stop.2,
        ..CutWriter::new(room, stop.1)
    };
    let mut faults = CutWriter::ample();
    let written = &command.2[..room.min(command.2.len())];
    is_held(rt, command, &mut writer, &mut faults, 1, written, line)
}

/// Each writer that stops after so many bytes of the answer of a command.
fn expect_cuts(
    rt: &(impl AllocGlobal + Abort + Threads + Wait + Sync),
    command: &Command<'_>,
    room: usize,
    stops: &[Stop],
) {
    let line = take_ok(rt, format!(in rt.alloc(); "refused 9 after {room}\n"));
    for stop in stops {
        let is_right = is_cut(rt, command, line.as_bytes(), room, stop);
        expect_at(rt, stop.0, room, is_right);
    }
}

/// Each number of bytes of the answer of a command.
fn expect_all_cuts(
    rt: &(impl AllocGlobal + Abort + Threads + Wait + Sync),
    command: &Command<'_>,
    stops: &[Stop],
) {
    for room in 0..command.2.len() {
        expect_cuts(rt, command, room, stops);
    }
}

#[test]
fn writers_that_stop(rt: HostRuntime) {
    for command in COMMANDS {
        expect_all_cuts(&rt, command, STOPS);
    }
}

/// Writers that stop within a picture of 4,107 bytes.
const LONG_STOPS: &[Stop] = &[
    ("a byte a call, then none", 1, false),
    ("at once, then a fault", ROOM, true),
];

const RESTORE_ONCE: &[&str] = &["gco", "restore", "--weight", "1", "--cycles", "1"];

#[test]
fn writers_that_stop_in_a_picture(rt: HostRuntime) {
    let picture = take_ok(&rt, stripes(rt.alloc()));
    let picture = picture.as_slice();
    hold(&rt, picture.len() == 4_107);
    expect_all_cuts(&rt, &(RESTORE_ONCE, picture, picture, ""), LONG_STOPS);
}

/// Whether an answer is written though the fault writer stops here.
fn is_answered(
    rt: &(impl AllocGlobal + Threads + Wait + Sync),
    command: &Command<'_>,
    room: usize,
    step: usize,
) -> bool {
    let mut writer = CutWriter::new(command.2.len(), step);
    let mut faults = CutWriter::new(room, step);
    let said = command.3.as_bytes();
    let said = &said[..room.min(said.len())];
    is_held(rt, command, &mut writer, &mut faults, 0, command.2, said)
}

/// What is said where a writer takes nothing.
const NOTHING: &[u8] = b"refused 9 after 0\n";

/// Whether the run is refused, as its writer takes nothing, though the fault writer stops here.
fn is_refused(
    rt: &(impl AllocGlobal + Threads + Wait + Sync),
    command: &Command<'_>,
    room: usize,
    step: usize,
) -> bool {
    let mut writer = CutWriter::new(512, 0);
    let mut faults = CutWriter::new(room, step);
    let said = &NOTHING[..room.min(NOTHING.len())];
    is_held(rt, command, &mut writer, &mut faults, 1, b"", said)
}

/// Each cut of what a command says after an answer.
fn expect_answers(
    rt: &(impl AllocGlobal + Abort + Threads + Wait + Sync),
    command: &Command<'_>,
    step: usize,
) {
    for room in 0..command.3.len() + 1 {
        expect_at(rt, "answered", room, is_answered(rt, command, room, step));
    }
}

/// And of what it says where its writer takes nothing.
fn expect_refusals(
    rt: &(impl AllocGlobal + Abort + Threads + Wait + Sync),
    command: &Command<'_>,
    step: usize,
) {
    for room in 0..NOTHING.len() + 1 {
        expect_at(rt, "refused", room, is_refused(rt, command, room, step));
    }
}

/// The status stays where a fault writer stops.
#[test]
fn fault_writers_that_stop(rt: HostRuntime) {
    for command in COMMANDS {
        expect_answers(&rt, command, 1);
        expect_answers(&rt, command, ROOM);
        expect_refusals(&rt, command, 1);
        expect_refusals(&rt, command, ROOM);
    }
}

/// Whether a fault of the reader before this byte of the input is told.
fn fails_at(
    rt: &(impl AllocGlobal + Threads + Wait + Sync),
    command: &Command<'_>,
    count: usize,
    step: usize,
) -> bool {
    let input = &command.1[..count.min(command.1.len())];
    let mut reader = SlowReader::new(input, step, true);
    ends(rt, command.0, &mut reader, 1, b"", "refused 31\n")
}

/// Whether the whole input is answered.
fn is_read(
    rt: &(impl AllocGlobal + Threads + Wait + Sync),
    command: &Command<'_>,
    step: usize,
) -> bool {
    let mut reader = SlowReader::new(command.1, step, false);
    ends(rt, command.0, &mut reader, 0, command.2, command.3)
}

/// A fault before each byte of the input and behind the last; and none.
fn expect_faults(
    rt: &(impl AllocGlobal + Abort + Threads + Wait + Sync),
    command: &Command<'_>,
    step: usize,
) {
    expect_at(rt, "whole", step, is_read(rt, command, step));
    for count in 0..command.1.len() + 1 {
        expect_at(rt, "broken", count, fails_at(rt, command, count, step));
    }
}

/// At once and by one byte a call.
#[test]
fn readers_that_fail(rt: HostRuntime) {
    for command in COMMANDS {
        expect_faults(&rt, command, 1);
        expect_faults(&rt, command, ROOM);
    }
}

/// How many bytes the writer takes, whether the reader fails at its end, the status and what is
/// written.
type Remembered = (usize, bool, u8, &'static [u8]);

const REMEMBERED: &[Remembered] = &[
    (24, false, 0, ANSWER),
    (7, false, 1, b"minimum"),
    (24, true, 1, b""),
];

/// Whether the run remembers of each stream if it failed.
fn is_remembered(rt: &(impl AllocGlobal + Threads + Wait + Sync), row: &Remembered) -> bool {
    let mut reader = SlowReader::new(FILE, 5, row.1);
    let mut writer = CutWriter::new(row.0, 5);
    let mut faults = CutWriter::ample();
    let mut source = WatchedReader::new(&mut reader);
    let mut sink = Watched::new(&mut writer);
    let mut fault_sink = Watched::new(&mut faults);
    let ended = gco_cli::run(
        rt,
        &["gco", "energy"],
        &mut source,
        &mut sink,
        &mut fault_sink,
    );
    ended == row.2
        && source.failures() == u64::from(row.1)
        && sink.failures() == u64::from(row.0 < 24)
        && fault_sink.failures() == 0
        && writer.held.as_slice() == row.3
}

#[test]
fn streams_that_remember(rt: HostRuntime) {
    for (place, row) in REMEMBERED.iter().enumerate() {
        expect(&rt, place, is_remembered(&rt, row));
    }
}
