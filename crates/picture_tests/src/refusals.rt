//! Inputs that are refused: nothing is written then.
use crate::pictures::{ROW, SWAPS};
use crate::rows::expect;
use crate::streams::CutWriter;
use crate::tasks::{RESTORE, SEGMENT, STEREO, Task, run};
use byte_streams::Watched;
use pgm_image::PgmError;
use run_options::RestoreOptions;
use std::process::Abort;
use vision::VisionError;

const PART: Task = Task::Segment(SEGMENT);

/// Swaps do not take what a label costs by itself.
const COSTLY: RestoreOptions = RestoreOptions {
    label_cost: Some(1),
    ..SWAPS
};

/// A command, its input, and why it is refused.
type Row = (Task, &'static [u8], VisionError);

const ROWS: &[Row] = &[
    (
        Task::Restore(RESTORE),
        b"",
        VisionError::Image(PgmError::NotPgm),
    ),
    (
        Task::Restore(RESTORE),
        b"P5\n1 1\n256\n\x01\x00",
        VisionError::TooManyLevels,
    ),
    (
        Task::Restore(RESTORE),
        b"P5\n1 1\n256\n\x01",
        VisionError::Image(PgmError::Truncated),
    ),
    // The first image is read to its end before the second is looked at.
    (
        PART,
        b"P5\n3 1\n2\n\x01\x00",
        VisionError::Image(PgmError::Truncated),
    ),
    (
        PART,
        b"P5\n3 1\n255\n\x0a\x0c\xc8",
        VisionError::Image(PgmError::NotPgm),
    ),
    (
        PART,
        b"P5\n3 1\n255\n\x0a\x0c\xc8 \n\t",
        VisionError::Image(PgmError::NotPgm),
    ),
    (
        PART,
        b"P5 3 1 255\n\x0a\x0c\xc8P5 3 1 2x",
        VisionError::Image(PgmError::BadHeader(22)),
    ),
    (
        PART,
        b"P5 3 1 255\n\x0a\x0c\xc8\n P2 3 1 2 1 0#",
        VisionError::Image(PgmError::BadSample(28)),
    ),
    // No comment is skipped between the images.
    (
        PART,
        b"P5 3 1 255\n\x0a\x0c\xc8# seeds\nP5 3 1 2\n\x01\x00\x02",
        VisionError::Image(PgmError::NotPgm),
    ),
    (
        PART,
        b"P5\n3 1\n255\n\x0a\x0c\xc8P5\n2 1\n3\n\x01\x03",
        VisionError::SizesDiffer,
    ),
    // As many samples, by other sides.
    (
        PART,
        b"P5\n2 1\n255\n\x0a\x0cP5\n1 2\n2\n\x01\x02",
        VisionError::SizesDiffer,
    ),
    (
        PART,
        b"P5\n3 1\n255\n\x0a\x0c\xc8P5\n3 1\n3\n\x01\x03\x02",
        VisionError::BadSeed(1),
    ),
    (
        Task::Stereo(STEREO),
        b"P5\n1 2\n9\n\x01\x02P5\n2 1\n9\n\x01\x02",
        VisionError::SizesDiffer,
    ),
    (Task::Restore(COSTLY), ROW, VisionError::LabelCostInSwap),
    // Also where no move is made.
    (
        Task::Restore(RestoreOptions {
            cycles: 0,
            ..COSTLY
        }),
        ROW,
        VisionError::LabelCostInSwap,
    ),
    // The image is looked at first.
    (
        Task::Restore(COSTLY),
        b"P5\n1 1\n256\n\x01\x00",
        VisionError::TooManyLevels,
    ),
    (
        Task::Restore(COSTLY),
        b"P5\n1 1\n256\n\x01",
        VisionError::Image(PgmError::Truncated),
    ),
];

/// Whether a command is refused for this reason, and writes nothing.
fn is_refused(rt: &(impl Abort + AllocGlobal), row: &Row) -> bool {
    let mut writer = CutWriter::new(rt.alloc(), 9_999, 9_999);
    let mut sink = Watched::new(&mut writer);
    let refused = run(rt, &row.0, row.1, &mut sink).err();
    refused == Some(row.2) && sink.failures() == 0 && writer.held.is_empty()
}

#[test]
fn refuses_inputs(rt: HostRuntime) {
    for (place, row) in ROWS.iter().enumerate() {
        expect(&rt, place, is_refused(&rt, row));
    }
}
