//! The calls of C.
ghost use Rattle.std.specs.Prelude.{◌≡◌, ◌≢◌, All, length};
ghost use Rattle.vision.specs.Faults.{HasRestoreError, HasSegmentError, HasStereoError};
ghost use Rattle.vision.specs.Inputs.{IsRestoreJob, IsSegmentJob, IsStereoJob};
ghost use Rattle.gco_pictures.specs.Answers.{IsPictureTold};
ghost use Rattle.gco_pictures.specs.Options.{IsOptionInRange, restore_numbers, restore_options};
ghost use Rattle.gco_pictures.specs.Options.{segment_numbers, segment_options, stereo_numbers};
ghost use Rattle.gco_pictures.specs.Options.{stereo_options};
ghost use Rattle.gco_pictures.specs.Refusals.{IsPictureRefused, alone};

use crate::making::{restore, segment, stereo};
use crate::options::{GcoRestore, GcoSegment, GcoStereo};
use crate::told::{GcoPictureTold, hand_over};
use std::alloc::Global;

/// Restores the picture of the input, and writes it to the front of `out`, as `run_restore` of
/// `vision` does. The answer is 0, or the status of a refusal, and then `out` is as it was.
#[unsafe(no_mangle)]
pub extern "C" fn gco_restore_pgm(
    alloc: Global,
    options: &GcoRestore,
    input: &[u8],
    out: &mut [u8],
    told: &mut GcoPictureTold,
) -> u32
    ensures within { result ≡ 0 → All IsOptionInRange (restore_numbers options.now) }
    ensures made { result ≡ 0 → IsPictureTold (IsRestoreJob (restore_options options.now) input.now)
        out.old out.new told.new }
    ensures unchanged { result ≢ 0 → out.new ≡ out.old }
    ensures refused { result ≢ 0 → IsPictureRefused (restore_numbers options.now)
        (HasRestoreError alone (restore_options options.now) input.now)
        (IsRestoreJob (restore_options options.now) input.now)
        (length out.old) result told.new }
{
    let made = restore(alloc, options, input);
    hand_over(made, out, told)
}

/// Matches the two pictures of the input, and writes the shifts of the left one's pixels to the
/// front of `out`, as `run_stereo` of `vision` does. The answer is 0, or the status of a refusal,
/// and then `out` is as it was.
#[unsafe(no_mangle)]
pub extern "C" fn gco_stereo_pgm(
    alloc: Global,
    options: &GcoStereo,
    input: &[u8],
    out: &mut [u8],
    told: &mut GcoPictureTold,
) -> u32
    ensures within { result ≡ 0 → All IsOptionInRange (stereo_numbers options.now) }
    ensures made { result ≡ 0 → IsPictureTold (IsStereoJob (stereo_options options.now) input.now)
        out.old out.new told.new }
    ensures unchanged { result ≢ 0 → out.new ≡ out.old }
    ensures refused { result ≢ 0 → IsPictureRefused (stereo_numbers options.now)
        (HasStereoError alone (stereo_options options.now) input.now)
        (IsStereoJob (stereo_options options.now) input.now)
        (length out.old) result told.new }
{
    let made = stereo(alloc, options, input);
    hand_over(made, out, told)
}

/// Parts the picture of the input in two, by the seeds behind it, and writes the labels to the
/// front of `out`, as `run_segment` of `vision` does. The answer is 0, or the status of a refusal,
/// and then `out` is as it was.
#[unsafe(no_mangle)]
pub extern "C" fn gco_segment_pgm(
    alloc: Global,
    options: &GcoSegment,
    input: &[u8],
    out: &mut [u8],
    told: &mut GcoPictureTold,
) -> u32
    ensures within { result ≡ 0 → All IsOptionInRange (segment_numbers options.now) }
    ensures made { result ≡ 0 → IsPictureTold (IsSegmentJob (segment_options options.now) input.now)
        out.old out.new told.new }
    ensures unchanged { result ≢ 0 → out.new ≡ out.old }
    ensures refused { result ≢ 0 → IsPictureRefused (segment_numbers options.now)
        (HasSegmentError alone (segment_options options.now) input.now)
        (IsSegmentJob (segment_options options.now) input.now)
        (length out.old) result told.new }
{
    let made = segment(alloc, options, input);
    hand_over(made, out, told)
}
