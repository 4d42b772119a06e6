//! An image from bytes.
ghost use Rattle.std.specs.Prelude.{◌≡◌, ◌≤◌, ◌<◌, ◌*◌, ◌⊎◌, ℕ, All, Result, Ok, Err, MatchResult};
ghost use Rattle.std.specs.Prelude.{IfOk, IfErr, length, drop};
ghost use Rattle.pgm_image.specs.Picture.{Picture};
ghost use Rattle.pgm_image.specs.Front.{Front, RefusesFront, IsReadingOf};
ghost use Rattle.pgm_image.specs.Reading.{check_limits, samples_at, image_at, RefusesAs};
ghost use Rattle.pgm_image.specs.Reading.{RefusesImage};

use crate::error::PgmError;
use crate::header::{Form, Header, header_at};
use crate::image::Image;
use crate::plain::plain_samples;
use crate::raster::raster_samples;
use std::alloc::Global;

/// The bytes after the header's last one, which is one white-space byte, also where it is the CR of
/// a CR LF.
fn past_header(bytes: &[u8]) -> &[u8]
    requires { 0 < length bytes.now }
    ensures { result.now ≡ drop 1 bytes.now }
{
    &bytes[1..]
}

/// The samples after a header, and the bytes after them. `bytes` begin with the header's last one.
#[tactic(auto, using(crate::proofs::Limits::limits_hold))]
fn samples_at(
    alloc: Global,
    form: Form,
    header: Header,
    end: usize,
    bytes: &[u8],
) -> Result<(Vec<u16>, &[u8]), PgmError>
    requires limits { check_limits header ≡ Ok tt }
    requires some { 0 < length bytes.now }
    requires end { length bytes.now ≤ end }
    ensures value { MatchResult result
        (λ x. samples_at form (header.width * header.height) header.maxval end bytes.now
        ≡ Ok (x.0.items, x.1.now))
        (λ e. RefusesAs e (samples_at form (header.width * header.height)
        header.maxval end bytes.now)) }
    ensures each { IfOk result (λ x. (length x.0.items ≡ header.width * header.height)
        × All (λ y. y ≤ header.maxval) x.0.items × (length x.1.now ≤ length bytes.now)) }
{
    let count = (header.width * header.height) as usize;
    match form {
        Form::Raw => raster_samples(alloc, count, header.maxval, past_header(bytes)),
        Form::Plain => plain_samples(alloc, count, header.maxval, end, bytes),
    }
}

/// The image at the front, and how many bytes it took.
#[tactic(auto, using(crate::proofs::Limits::limits_hold), unfolding(crate::specs::Reading::image_at))]
fn image_at(alloc: Global, bytes: &[u8]) -> Result<(Image, usize), PgmError>
    ensures { MatchResult result (λ x. image_at bytes.now ≡ Ok x) (λ e. RefusesImage e bytes.now) }
{
    let end = bytes.len();
    let (form, header, rest) = match header_at(bytes) {
        Ok(found) => found,
        Err(e) => return Err(e),
    };
    let (samples, rest) = match samples_at(alloc, form, header, end, rest) {
        Ok(found) => found,
        Err(e) => return Err(e),
    };
    let image = Image::new(header.width, header.height, header.maxval, samples);
    Ok((image, end - rest.len()))
}

/// The image at the front, and how many bytes it took. Bytes may follow it.
///
/// The grammar is the Netpbm project's PGM page in this project's profile (docs/PGM.md): an image
/// is answered exactly where one is at the front, and else the first refusal of the profile's
/// order. `OutOfMemory` comes in place of either, and only behind a header within the limits.
pub fn read_image(alloc: Global, bytes: &[u8]) -> Result<(Image, usize), PgmError>
    ensures image { IfOk result (λ x. Front bytes.now x.0 x.1) }
    ensures refused { IfErr result (λ e. RefusesFront bytes.now e) }
    ensures exact { (answer : Result (Picture × ℕ) PgmError) → IsReadingOf bytes.now answer
        → (result ≡ answer) ⊎ (result ≡ Err PgmError.OutOfMemory) }
    ensures used { IfOk result (λ x. x.1 ≤ length bytes.now) }
{
    image_at(alloc, bytes)
}
