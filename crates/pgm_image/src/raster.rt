//! Samples as bytes.
ghost use Rattle.std.specs.Prelude.{◌≡◌, ◌*◌, ◌<◌, ◌^◌, ◌≤◌, All, Ok, MatchResult, IfOk, length};
ghost use Rattle.pgm_image.specs.Raster.{RefusesSamples, doubles, samples_in, raster_size};
ghost use Rattle.pgm_image.specs.Reading.{raster_at, RefusesAs};

use crate::error::PgmError;
use std::alloc::Global;

/// Samples of one byte each.
fn single_bytes(alloc: Global, maxval: u32, raster: &[u8]) -> Result<Vec<u16>, PgmError>
    ensures { MatchResult result
        (λ v. (v.items ≡ raster.now) × All (λ x. x ≤ maxval) raster.now)
        (λ e. RefusesSamples maxval raster.now e) }
{
    let Ok(mut samples) = Vec::with_capacity(alloc, raster.len()) else {
        return Err(PgmError::OutOfMemory);
    };
    for &byte in raster {
        if u32::from(byte) > maxval {
            return Err(PgmError::SampleAboveMax(samples.len()));
        }
        samples.push_reserved(u16::from(byte));
    }
    Ok(samples)
}

/// Samples of two bytes each, the most significant first.
#[tactic(auto, unfolding(crate::specs::Raster::doubles))]
fn double_bytes(alloc: Global, maxval: u32, raster: &[u8]) -> Result<Vec<u16>, PgmError>
    ensures { MatchResult result
        (λ v. (v.items ≡ doubles raster.now) × All (λ x. x ≤ maxval) (doubles raster.now))
        (λ e. RefusesSamples maxval (doubles raster.now) e) }
{
    let Ok(mut samples) = Vec::with_capacity(alloc, raster.len() / 2) else {
        return Err(PgmError::OutOfMemory);
    };
    let mut rest = raster;
    while let [high, low, after @ ..] = rest {
        let sample = u16::from_be_bytes([*high, *low]);
        if u32::from(sample) > maxval {
            return Err(PgmError::SampleAboveMax(samples.len()));
        }
        samples.push_reserved(sample);
        rest = after;
    }
    Ok(samples)
}

/// The samples of a whole raster.
fn samples_in(alloc: Global, maxval: u32, raster: &[u8]) -> Result<Vec<u16>, PgmError>
    ensures { MatchResult result
        (λ v. (v.items ≡ samples_in maxval raster.now)
        × All (λ x. x ≤ maxval) (samples_in maxval raster.now))
        (λ e. RefusesSamples maxval (samples_in maxval raster.now) e) }
{
    if maxval < 256 {
        single_bytes(alloc, maxval, raster)
    } else {
        double_bytes(alloc, maxval, raster)
    }
}

/// How many bytes the raster takes.
fn raster_size(count: usize, maxval: u32) -> usize
    requires { count < 2 ^ 30 }
    ensures { result ≡ raster_size count maxval }
{
    if maxval < 256 { count } else { 2 * count }
}

/// `count` samples at the front, and the bytes after them.
#[tactic(auto, unfolding(crate::specs::Reading::raster_at))]
pub(crate) fn raster_samples(
    alloc: Global,
    count: usize,
    maxval: u32,
    bytes: &[u8],
) -> Result<(Vec<u16>, &[u8]), PgmError>
    requires { count < 2 ^ 30 }
    ensures value { MatchResult result
        (λ x. raster_at count maxval bytes.now ≡ Ok (x.0.items, x.1.now))
        (λ e. RefusesAs e (raster_at count maxval bytes.now)) }
    ensures each { IfOk result (λ x. (length x.0.items ≡ count)
        × All (λ y. y ≤ maxval) x.0.items × (length x.1.now ≤ length bytes.now)) }
{
    let size = raster_size(count, maxval);
    if bytes.len() < size {
        return Err(PgmError::Truncated);
    }
    let (raster, rest) = bytes.split_at(size);
    match samples_in(alloc, maxval, raster) {
        Ok(samples) => Ok((samples, rest)),
        Err(e) => Err(e),
    }
}
