//! Writers that stop at each byte.
use crate::pictures::SHIFTS;
use crate::rows::expect;
use crate::streams::CutWriter;
use crate::tasks::{RESTORE, SEGMENT, Task, run};
use byte_streams::{Watched, WriteFailed};
use std::process::Abort;
use vision::VisionError;

/// A command, its input, and the picture that it writes.
type Row = (Task, &'static [u8], &'static [u8]);

const ROWS: &[Row] = &[
    (
        Task::Restore(RESTORE),
        b"P5\n3 1\n3\n\x00\x03\x00",
        b"P5\n3 1\n3\n\x00\x03\x00",
    ),
    (
        Task::Stereo(SHIFTS),
        b"P5\n4 1\n9\n\x00\x09\x00\x00P5\n4 1\n9\n\x09\x00\x00\x00",
        b"P5\n4 1\n1\n\x01\x01\x01\x01",
    ),
    (
        Task::Segment(SEGMENT),
        b"P5\n3 1\n255\n\x0a\x0c\xc8P5\n3 1\n2\n\x01\x00\x02",
        b"P5\n3 1\n1\n\x00\x00\x01",
    ),
];

/// Whether a command tells where its writer stops, which holds what came before.
fn is_stopped(
    rt: &(impl Abort + AllocGlobal),
    row: &Row,
    step: usize,
    faults: bool,
    count: usize,
) -> bool {
    let mut writer = CutWriter {
        faults,
        ..CutWriter::new(rt.alloc(), count, step)
    };
    let mut sink = Watched::new(&mut writer);
    let stopped = run(rt, &row.0, row.1, &mut sink).err();
    stopped == Some(VisionError::Write(WriteFailed { count }))
        && sink.failures() == 1
        && count <= row.2.len()
        && writer.held.as_slice() == &row.2[..count]
}

/// A command whose writer stops at each byte.
fn expect_stops(rt: &(impl Abort + AllocGlobal), row: &Row, step: usize, faults: bool) {
    for count in 0..row.2.len() {
        expect(rt, count, is_stopped(rt, row, step, faults, count));
    }
}

#[test]
fn writers_stop(rt: HostRuntime) {
    for row in ROWS {
        expect_stops(&rt, row, 1, false);
        expect_stops(&rt, row, 9_999, false);
        expect_stops(&rt, row, 9_999, true);
    }
}
