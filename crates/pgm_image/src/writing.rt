//! An image to a writer.
ghost use Rattle.std.specs.Prelude.{◌≡◌, ◌≤◌, ◌<◌, ◌+◌, ◌*◌, ◌^◌, ◌++◌, ◌∷◌, [], length, decimal};
ghost use Rattle.std.specs.Prelude.{All, OnOk, IfErr};
ghost use Rattle.arrayvec.specs.ArrayString.{array_string_len};
ghost use Rattle.arrayvec.specs.ArrayVec.{array_vec_len};
ghost use Rattle.byte_streams.specs.Streams.{Stops, Takes};
ghost use Rattle.pgm_image.specs.Raster.{raster};
ghost use Rattle.pgm_image.specs.Written.{StopsAsTold, header_text, written_form};

use crate::error::WriteError;
use crate::image::Image;
use arrayvec::{ArrayString, ArrayVec};
use byte_streams::{Sink, Watched, WriteFailed, put_text};
use itoa::Buffer;
use std::io::Write;

/// Room for the bytes of a header, which are fewer than 200.
const HEADER_ROOM: usize = 256;

/// The greatest number of samples that are spelled before they are written.
const PART_LIMIT: usize = 2048;

/// Room for the bytes of those samples, two of each.
const PART_ROOM: usize = 4096;

fn push_number(text: &mut ArrayString<HEADER_ROOM>, number: u32)
    requires { array_string_len text.old + 40 ≤ HEADER_ROOM }
    ensures bytes { text.new.bytes ≡ text.old.bytes ++ decimal number }
    ensures len { array_string_len text.new ≤ array_string_len text.old + 40 }
{
    let mut digits = Buffer::new();
    text.push_str(digits.format(number));
}

/// The header of the written form.
#[tactic(auto, unfolding(crate::specs::Written::header_text))]
fn header_of(image: &Image) -> ArrayString<HEADER_ROOM>
    ensures bytes { result.bytes ≡ header_text image.now }
    ensures len { array_string_len result ≤ 200 }
{
    let mut text = ArrayString::new();
    text.push_str("P5\n");
    push_number(&mut text, image.width());
    text.push_str(" ");
    push_number(&mut text, image.height());
    text.push_str("\n");
    push_number(&mut text, image.maxval());
    text.push_str("\n");
    text
}

/// One sample's bytes, at the end.
#[tactic(auto, unfolding(crate::specs::Raster::as_two_bytes))]
fn push_sample(bytes: &mut ArrayVec<u8, PART_ROOM>, maxval: u32, sample: u16)
    requires room { array_vec_len bytes.old + 2 ≤ PART_ROOM }
    requires small { sample ≤ maxval }
    ensures bytes { bytes.new.items ≡ bytes.old.items ++ raster maxval (sample ∷ []) }
    ensures len { array_vec_len bytes.new ≤ array_vec_len bytes.old + 2 }
{
    if maxval >= 256 {
        bytes.push((sample / 256) as u8);
        bytes.push((sample % 256) as u8);
    } else {
        bytes.push(sample as u8);
    }
}

/// The raster of some samples.
fn raster_of(maxval: u32, samples: &[u16]) -> ArrayVec<u8, PART_ROOM>
    requires room { length samples.now ≤ 2048 }
    requires small { All (λ x. x ≤ maxval) samples.now }
    ensures { result.items ≡ raster maxval samples.now }
{
    let mut bytes = ArrayVec::new();
    for &sample in samples {
        push_sample(&mut bytes, maxval, sample);
    }
    bytes
}

/// Puts the raster. It is refused as `put_text` is.
fn put_raster<S: Sink>(sink: &mut S, maxval: u32, samples: &[u16]) -> Result<(), WriteFailed>
    requires small { All (λ x. x ≤ maxval) samples.now }
    requires size { 2 * length samples.now < 2 ^ 40 }
    ensures takes { OnOk result
        (Takes (S.stream sink.old) (S.stream sink.new) (raster maxval samples.now)) }
    ensures stops { IfErr result (λ e.
        Stops (S.stream sink.old) (S.stream sink.new) (raster maxval samples.now) e.count) }
    ensures kept { S.loan sink.new ≡ S.loan sink.old }
{
    let mut taken = 0;
    let mut rest = samples;
    while !rest.is_empty() {
        let (part, after) = rest.split_at(rest.len().min(PART_LIMIT));
        let piece = raster_of(maxval, part);
        let bytes = piece.as_slice();
        match put_text(sink, bytes) {
            Ok(()) => taken += bytes.len(),
            Err(failed) => return Err(WriteFailed {
                count: taken + failed.count,
            }),
        }
        rest = after;
    }
    Ok(())
}

/// Puts the image as `P5` into a sink that counts the calls that failed. Takes no memory.
///
/// `WriteFailed` comes only where a call of the sink failed in this writing, whatever failed
/// before. The sink then took exactly the told count of bytes, the first ones of the written form.
pub fn put_image<S: Sink>(image: &Image, sink: &mut S) -> Result<(), WriteError>
    ensures takes { OnOk result
        (Takes (S.stream sink.old) (S.stream sink.new) (written_form image.now)) }
    ensures stops { IfErr result
        (StopsAsTold (S.stream sink.old) (S.stream sink.new) (written_form image.now)) }
    ensures kept { S.loan sink.new ≡ S.loan sink.old }
{
    let header = header_of(image);
    let text = header.as_bytes();
    match put_text(sink, text) {
        Ok(()) => {}
        Err(failed) => return Err(WriteError::WriteFailed(failed.count)),
    }
    match put_raster(sink, image.maxval(), image.samples()) {
        Ok(()) => Ok(()),
        Err(failed) => Err(WriteError::WriteFailed(text.len() + failed.count)),
    }
}

/// Writes the image as `P5` to a writer of std that is watched. Takes no memory.
///
/// `WriteFailed` comes only where a call of the writer answered a fault in this writing, or took no
/// byte of a piece that was not empty; what failed before is not told again. The writer then took
/// exactly the told count of bytes, the first ones of the written form, which are fewer than all.
pub fn write_image<'a, W: Write>(image: &Image, sink: &mut Watched<'a, W>) -> Result<(), WriteError>
    ensures takes { OnOk result (Takes (⟦<Watched<'a, W> as Sink>⟧.stream sink.old)
        (⟦<Watched<'a, W> as Sink>⟧.stream sink.new) (written_form image.now)) }
    ensures stops { IfErr result (StopsAsTold (⟦<Watched<'a, W> as Sink>⟧.stream sink.old)
        (⟦<Watched<'a, W> as Sink>⟧.stream sink.new) (written_form image.now)) }
    ensures kept { sink.new.writer.ghost_name ≡ sink.old.writer.ghost_name }
{
    put_image(image, sink)
}
