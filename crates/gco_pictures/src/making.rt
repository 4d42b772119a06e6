//! A picture that is made in memory.
ghost use Rattle.std.specs.Prelude.{◌≡◌, All, IfOk, IfErr};
ghost use Rattle.vision.specs.Faults.{HasRestoreError, HasSegmentError, HasStereoError};
ghost use Rattle.vision.specs.Inputs.{IsRestoreJob, IsSegmentJob, IsStereoJob};
ghost use Rattle.gco_pictures.specs.Answers.{IsPictureMade};
ghost use Rattle.gco_pictures.specs.Options.{IsOptionInRange, restore_numbers, restore_options};
ghost use Rattle.gco_pictures.specs.Options.{segment_numbers, segment_options, stereo_numbers};
ghost use Rattle.gco_pictures.specs.Options.{stereo_options};
ghost use Rattle.gco_pictures.specs.Refusals.{IsCause, alone};

use crate::held::Held;
use crate::options::{GcoRestore, GcoSegment, GcoStereo, first_wrong};
use crate::refusal::{Refusal, refusal_of};
use cut_ways::Alone;
use std::alloc::Global;
use vision::{Report, run_restore, run_segment, run_stereo};

/// The written form of a picture, and what its labels cost.
#[derive(Drop)]
pub(crate) struct Made {
    pub(crate) bytes: Vec<u8>,
    pub(crate) report: Report,
}

/// The picture of the input restored.
pub(crate) fn restore(alloc: Global, given: &GcoRestore, input: &[u8]) -> Result<Made, Refusal>
    ensures within { IfOk result (λ _. All IsOptionInRange (restore_numbers given.now)) }
    ensures made { IfOk result (λ made. IsPictureMade
        (IsRestoreJob (restore_options given.now) input.now) made.bytes.items made.report) }
    ensures refused { IfErr result (IsCause (restore_numbers given.now)
        (HasRestoreError alone (restore_options given.now) input.now)) }
{
    if let Some(place) = first_wrong(&given.numbers()) {
        return Err(Refusal::OptionRange(place));
    }
    let options = given.options();
    let mut held = Held::new(alloc);
    match run_restore(alloc, input, &options, &Alone, &mut held) {
        Ok(report) => Ok(Made {
            bytes: held.bytes,
            report,
        }),
        Err(error) => Err(refusal_of(error)),
    }
}

/// The shifts of the left of the two pictures of the input.
pub(crate) fn stereo(alloc: Global, given: &GcoStereo, input: &[u8]) -> Result<Made, Refusal>
    ensures within { IfOk result (λ _. All IsOptionInRange (stereo_numbers given.now)) }
    ensures made { IfOk result (λ made. IsPictureMade
        (IsStereoJob (stereo_options given.now) input.now) made.bytes.items made.report) }
    ensures refused { IfErr result (IsCause (stereo_numbers given.now)
        (HasStereoError alone (stereo_options given.now) input.now)) }
{
    if let Some(place) = first_wrong(&given.numbers()) {
        return Err(Refusal::OptionRange(place));
    }
    let options = given.options();
    let mut held = Held::new(alloc);
    match run_stereo(alloc, input, &options, &Alone, &mut held) {
        Ok(report) => Ok(Made {
            bytes: held.bytes,
            report,
        }),
        Err(error) => Err(refusal_of(error)),
    }
}

/// The two parts of the picture of the input, by the seeds behind it.
pub(crate) fn segment(alloc: Global, given: &GcoSegment, input: &[u8]) -> Result<Made, Refusal>
    ensures within { IfOk result (λ _. All IsOptionInRange (segment_numbers given.now)) }
    ensures made { IfOk result (λ made. IsPictureMade
        (IsSegmentJob (segment_options given.now) input.now) made.bytes.items made.report) }
    ensures refused { IfErr result (IsCause (segment_numbers given.now)
        (HasSegmentError alone (segment_options given.now) input.now)) }
{
    if let Some(place) = first_wrong(&given.numbers()) {
        return Err(Refusal::OptionRange(place));
    }
    let options = given.options();
    let mut held = Held::new(alloc);
    match run_segment(alloc, input, &options, &Alone, &mut held) {
        Ok(report) => Ok(Made {
            bytes: held.bytes,
            report,
        }),
        Err(error) => Err(refusal_of(error)),
    }
}
