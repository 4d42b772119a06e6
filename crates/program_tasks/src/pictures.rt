//! `gco restore`, `gco stereo` and `gco segment`.
ghost use Rattle.std.specs.Prelude.{◌≡◌, ◌≤◌, IfOk, IfErr, IfSome};
ghost use Rattle.command_line.specs.Task.{FitsPicture};
ghost use Rattle.command_line.specs.declared.task.Task.TheVariants.{Picture};
ghost use Rattle.run_options.specs.Limits.{greatest_smooth_cost};
ghost use Rattle.vision.specs.Faults.{IsWrite, LeavesWriter};
ghost use Rattle.vision.specs.Jobs.{WritesPicture, Job};
ghost use Rattle.program_tasks.specs.Commands.{IsDueFor, IsFaultFor};
ghost use Rattle.program_tasks.specs.Pictures.{HasPictureError, IsPictureJob, asks_bound};
ghost use Rattle.program_tasks.specs.Pictures.{tells_labels};
ghost use Rattle.program_tasks.specs.Refusals.{Refuses, TellsRead};
ghost use Rattle.program_tasks.specs.Bounds.{near_of_bound};
ghost use Rattle.program_tasks.specs.Pictures.{report_parts};
ghost use Rattle.program_texts.specs.Lines.{picture_lines};
ghost use Rattle.program_texts.specs.Writing.{Writes};

use crate::bounds::near_of_bound;
use crate::library_faults::picture_fault;
use byte_streams::{Sink, Source, read_input};
use command_line::PictureOptions;
use cut_ways::Sharing;
use program_texts::{EnergyParts, Fault, Line, picture_lines};
use std::alloc::Global;
use vision::{Report, VisionError, run_restore, run_segment, run_stereo};

/// Writes the picture that an image command makes of the input, and answers the line of its energy,
/// and that of the bound where it is asked for.
pub fn picture<H: Sharing, R: Source, W: Sink>(
    alloc: Global,
    options: PictureOptions,
    how: &H,
    source: &mut R,
    sink: &mut W,
) -> Result<Line, Fault>
    requires options { FitsPicture options }
    requires ready { H.ready how.now }
    ensures done { IfOk result (λ said. Writes (IsDueFor (Picture options) (R.stream source.old))
        (W.stream sink.old) (W.stream sink.new) said.bytes) }
    ensures refused { IfErr result (Refuses (IsDueFor (Picture options) (R.stream source.old))
        (IsFaultFor (H.refuses how.now) (Picture options) (R.stream source.old))
        (W.stream sink.old) (W.stream sink.new)) }
    ensures read { TellsRead (R.stream source.old) (R.stream source.new) result }
    ensures kept { W.loan sink.new ≡ W.loan sink.old }
{
    let input = read_input(alloc, source)?;
    match run_picture(alloc, input.as_slice(), &options, how, sink) {
        Ok(report) => Ok(report_lines(&report, tells_labels(&options), asks_bound(&options))),
        Err(error) => Err(picture_fault(error)),
    }
}

// The call of the command.
fn run_picture<H: Sharing, W: Sink>(
    alloc: Global,
    input: &[u8],
    options: &PictureOptions,
    how: &H,
    sink: &mut W,
) -> Result<Report, VisionError>
    requires options { FitsPicture options.now }
    requires ready { H.ready how.now }
    ensures done { IfOk result (λ report. (job : Job) × IsPictureJob options.now input.now job
        × WritesPicture job (W.stream sink.old) (W.stream sink.new) report) }
    ensures refused { IfErr result (LeavesWriter (IsPictureJob options.now input.now)
        (HasPictureError (H.refuses how.now) options.now input.now) (W.stream sink.old)
        (W.stream sink.new)) }
    ensures unchanged { IfErr result (λ e. (¬ IsWrite e) → sink.new ≡ sink.old) }
    ensures kept { W.loan sink.new ≡ W.loan sink.old }
{
    match options {
        PictureOptions::Restore(options) => run_restore(alloc, input, options, how, sink),
        PictureOptions::Stereo(options) => run_stereo(alloc, input, options, how, sink),
        PictureOptions::Segment(options) => run_segment(alloc, input, options, how, sink),
    }
}

// What is said beside a picture: the line of its energy, in which the cost of the labels by
// themselves stands where it is to be told, and the line of the bound where that is asked for.
fn report_lines(report: &Report, tells: bool, asked: bool) -> Line
    requires { IfSome report.now.bound (λ bound. bound.vmax ≤ greatest_smooth_cost) }
    ensures { result.bytes
        ≡ picture_lines tells asked (report_parts report.now) (near_of_bound report.now.bound) }
{
    picture_lines(
        report_parts(report),
        near_of_bound(report.bound),
        tells,
        asked,
    )
}

// The energy that a report tells, and its parts.
fn report_parts(report: &Report) -> EnergyParts
    ensures { result ≡ report_parts report.now }
{
    EnergyParts {
        energy: report.energy.unsigned_abs(),
        data: report.data_part.unsigned_abs(),
        smooth: report.smooth_part.unsigned_abs(),
        label: report.label_part.unsigned_abs(),
    }
}

// Whether the part of the labels is to be told.
fn tells_labels(options: &PictureOptions) -> bool
    ensures { result ≡ tells_labels options.now }
{
    match options {
        PictureOptions::Restore(options) => options.label_cost.is_some(),
        PictureOptions::Stereo(_) => false,
        PictureOptions::Segment(_) => false,
    }
}

// Whether a bound is asked for.
fn asks_bound(options: &PictureOptions) -> bool
    ensures { result ≡ asks_bound options.now }
{
    match options {
        PictureOptions::Restore(options) => options.bound,
        PictureOptions::Stereo(options) => options.bound,
        PictureOptions::Segment(_) => false,
    }
}
