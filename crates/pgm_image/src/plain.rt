//! Samples as numbers.
ghost use Rattle.std.specs.Prelude.{◌≡◌, ◌<◌, ◌≤◌, ◌^◌, Ok, Err, MatchResult, IfOk, All, length};
ghost use Rattle.pgm_image.specs.Reading.{sample_at, plain_at, RefusesAs, IsFaultWithin};

use crate::error::PgmError;
use crate::words::{Place, Reading, number_at};
use std::alloc::Global;

/// Why no plain sample stands at a front.
#[derive(Clone, Copy, Drop)]
pub enum Fault {
    /// The input ends before the first digit.
    Ended,
    /// The first of so many last bytes cannot stand there.
    Bad(usize),
}

/// The value of the sample at the front, up to the cap, and the bytes after it.
fn sample_at(bytes: &[u8]) -> Result<(u32, &[u8]), Fault>
    ensures value { MatchResult result (λ x. sample_at bytes.now ≡ Ok (x.0, x.1.now))
        (λ e. sample_at bytes.now ≡ Err e) }
    ensures shorter { MatchResult result (λ x. length x.1.now ≤ length bytes.now)
        (λ e. IsFaultWithin e (length bytes.now)) }
{
    let (reading, rest) = number_at(bytes);
    match reading {
        Reading::Whole(value) => Ok((value, rest)),
        Reading::Cut(Place::Number(value)) => Ok((value, rest)),
        Reading::Cut(_) => Err(Fault::Ended),
        Reading::Stuck => Err(Fault::Bad(rest.len())),
    }
}

/// `count` samples at the front, each after a gap, and the bytes after them. `end` is where the
/// bytes end, as positions are counted.
pub(crate) fn plain_samples(
    alloc: Global,
    count: usize,
    maxval: u32,
    end: usize,
    bytes: &[u8],
) -> Result<(Vec<u16>, &[u8]), PgmError>
    requires maxval { maxval < 2 ^ 16 }
    requires end { length bytes.now ≤ end }
    ensures value { MatchResult result
        (λ x. plain_at count maxval end 0 bytes.now ≡ Ok (x.0.items, x.1.now))
        (λ e. RefusesAs e (plain_at count maxval end 0 bytes.now)) }
    ensures each { IfOk result (λ x. (length x.0.items ≡ count)
        × All (λ y. y ≤ maxval) x.0.items × (length x.1.now ≤ length bytes.now)) }
{
    let Ok(mut samples) = Vec::with_capacity(alloc, count) else {
        return Err(PgmError::OutOfMemory);
    };
    let mut rest = bytes;
    for index in 0..count {
        let (value, after) = match sample_at(rest) {
            Ok(found) => found,
            Err(Fault::Ended) => return Err(PgmError::Truncated),
            Err(Fault::Bad(left)) => return Err(PgmError::BadSample(end - left)),
        };
        if value > maxval {
            return Err(PgmError::SampleAboveMax(index));
        }
        samples.push_reserved(value as u16);
        rest = after;
    }
    Ok((samples, rest))
}
