//! The images of an input.
ghost use Rattle.std.specs.Prelude.{◌≡◌, ◌↔◌, ◌+◌, ◌<◌, ◌≤◌, ◌^◌, IfOk, IfErr, IsTrue, length};
ghost use Rattle.pgm_image.specs.Signs.{is_space};
ghost use Rattle.vision.specs.Faults.{HasImageError, HasPairError};
ghost use Rattle.vision.specs.Inputs.{HoldsPicture, HoldsTwo, IsPastSpaces, SameSizes};
ghost use Rattle.vision.specs.Inputs.{refusal_from, position_of};

use crate::VisionError;
use pgm_image::{Image, PgmError, is_space, read_image};
use std::alloc::Global;

/// The image at the front of the input.
pub(crate) fn read_one(alloc: Global, input: &[u8]) -> Result<Image, VisionError>
    ensures held { IfOk result (HoldsPicture input.now) }
    ensures refused { IfErr result (HasImageError input.now) }
{
    let (image, _) = read_image(alloc, input)?;
    Ok(image)
}

/// The image at the front of the input and the one behind it, with white space alone between them.
/// They have the same width and the same height.
pub(crate) fn read_two(alloc: Global, input: &[u8]) -> Result<(Image, Image), VisionError>
    ensures held { IfOk result (λ x. HoldsTwo input.now x.0 x.1 × SameSizes x.0 x.1) }
    ensures refused { IfErr result (HasPairError input.now) }
{
    let (first, used) = read_image(alloc, input)?;
    let at = past_spaces(input, used);
    let (second, _) = match read_image(alloc, &input[at..]) {
        Ok(found) => found,
        Err(error) => return Err(VisionError::from(refusal_from(error, at))),
    };
    if !same_sizes(&first, &second) {
        return Err(VisionError::SizesDiffer);
    }
    Ok((first, second))
}

/// Whether two images have the same width and the same height.
fn same_sizes(first: &Image, second: &Image) -> bool
    ensures { IsTrue result ↔ SameSizes first.now second.now }
{
    first.width() == second.width() && first.height() == second.height()
}

/// A refusal of an image that begins at this place, with its position counted from the first byte
/// of the input.
fn refusal_from(error: PgmError, at: usize) -> PgmError
    requires { at + position_of error < 2 ^ 64 }
    ensures { result ≡ refusal_from at error }
{
    match error {
        PgmError::BadHeader(place) => PgmError::BadHeader(at + place),
        PgmError::BadSample(place) => PgmError::BadSample(at + place),
        error => error,
    }
}

/// The place of the first byte from this place on that is not white space.
fn past_spaces(input: &[u8], from: usize) -> usize
    requires { from ≤ length input.now }
    ensures { IsPastSpaces input.now from result }
{
    let mut at = from;
    while at < input.len() && is_space(input[at]) {
        at += 1;
    }
    at
}
