//! A command and its options.
use crate::rows::hold;
use crate::streams::CutWriter;
use byte_streams::Watched;
use label_energies::Moves;
use moves::Alone;
use run_options::{Neighbours, RestoreOptions, SegmentOptions, Shape, StereoOptions};
use std::process::Abort;
use vision::{Report, VisionError, run_restore, run_segment, run_stereo};

/// What a command line with no option of its own asks for.
pub const RESTORE: RestoreOptions = RestoreOptions {
    smooth: Shape::Potts,
    trunc: 1,
    weight: 1,
    neighbours: Neighbours::Four,
    moves: Moves::Expansion,
    cycles: 100,
    label_cost: None,
    bound: false,
};

pub const STEREO: StereoOptions = StereoOptions {
    smooth: Shape::Potts,
    trunc: 1,
    weight: 1,
    neighbours: Neighbours::Four,
    moves: Moves::Expansion,
    cycles: 100,
    labels: 16,
    cap: 20,
    bound: false,
};

pub const SEGMENT: SegmentOptions = SegmentOptions {
    low: 11,
    high: 200,
    strong: 20,
    weak: 5,
    edge: 5,
    neighbours: Neighbours::Four,
    cycles: 100,
};

#[derive(Clone, Copy)]
pub enum Task {
    Restore(RestoreOptions),
    Stereo(StereoOptions),
    Segment(SegmentOptions),
}

/// The command over this input, whose options are to be in their ranges.
pub fn run(
    rt: &(impl Abort + AllocGlobal),
    task: &Task,
    input: &[u8],
    sink: &mut Watched<'_, CutWriter>,
) -> Result<Report, VisionError> {
    match task {
        Task::Restore(options) => {
            hold(rt, options.fits());
            run_restore(rt.alloc(), input, options, &Alone, sink)
        }
        Task::Stereo(options) => {
            hold(rt, options.fits());
            run_stereo(rt.alloc(), input, options, &Alone, sink)
        }
        Task::Segment(options) => {
            hold(rt, options.fits());
            run_segment(rt.alloc(), input, options, &Alone, sink)
        }
    }
}

/// The report of labels that cost nothing by themselves, from what they cost the pixels and the
/// pairs, where no bound is asked for.
pub fn plain(parts: (i64, i64)) -> Report {
    Report {
        energy: parts.0.saturating_add(parts.1),
        data_part: parts.0,
        smooth_part: parts.1,
        label_part: 0,
        bound: None,
    }
}

/// Whether the command gives this picture, and this report.
pub fn gives(
    rt: &(impl Abort + AllocGlobal),
    task: &Task,
    input: &[u8],
    written: &[u8],
    wanted: Report,
) -> bool {
    let mut writer = CutWriter::new(rt.alloc(), 9_999, 9_999);
    let mut sink = Watched::new(&mut writer);
    let report = run(rt, task, input, &mut sink);
    sink.failures() == 0 && report == Ok(wanted) && writer.held.as_slice() == written
}
