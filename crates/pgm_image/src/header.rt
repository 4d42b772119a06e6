//! A header: the form of the samples, and three numbers within their limits.
ghost use Rattle.std.specs.Prelude.{◌≡◌, ◌≤◌, ◌<◌, ◌∷◌, [], Ok, Err, MatchResult, MatchOption};
ghost use Rattle.std.specs.Prelude.{None, Some, length, ⊤};
ghost use Rattle.pgm_image.specs.Words.{whole_number, numbers_at};
ghost use Rattle.pgm_image.specs.Reading.{form_at, check_limits, header_at, IsOfHeader};

use crate::error::PgmError;
use crate::image::{MAXVAL_LIMIT, SAMPLE_LIMIT, SIDE_LIMIT};
use crate::words::{Reading, number_at};

/// How the samples are spelled.
#[derive(Clone, Copy, Drop)]
pub enum Form {
    /// `P5`: bytes.
    Raw,
    /// `P2`: numbers.
    Plain,
}

/// The numbers of a header. A number above the cap is told as the cap.
#[derive(Clone, Copy, Drop)]
pub struct Header {
    pub width: u32,
    pub height: u32,
    pub maxval: u32,
}

/// The form that the first two bytes tell, and the bytes after them.
fn form_at(bytes: &[u8]) -> Option<(Form, &[u8])>
    ensures { MatchOption result (form_at bytes.now ≡ None)
        (λ x. form_at bytes.now ≡ Some (x.0, x.1.now)) }
{
    match bytes {
        [b'P', b'5', rest @ ..] => Some((Form::Raw, rest)),
        [b'P', b'2', rest @ ..] => Some((Form::Plain, rest)),
        _ => None,
    }
}

/// A number of the header and the bytes from the white space after it on, or how many bytes are
/// left where the first cannot go on the header.
fn whole_number(bytes: &[u8]) -> Result<(u32, &[u8]), usize>
    ensures value { MatchResult result (λ x. whole_number bytes.now ≡ Ok (x.0, x.1.now))
        (λ left. whole_number bytes.now ≡ Err left) }
    ensures shorter { MatchResult result
        (λ x. (0 < length x.1.now) × (length x.1.now ≤ length bytes.now))
        (λ left. left ≤ length bytes.now) }
{
    match number_at(bytes) {
        (Reading::Whole(number), rest) => Ok((number, rest)),
        (_, rest) => Err(rest.len()),
    }
}

/// The header's numbers and the bytes from the white space after them on, or how many bytes are
/// left where the first cannot go on the header.
#[tactic(auto, unfolding(crate::specs::Words::numbers_at))]
fn numbers_at(bytes: &[u8]) -> Result<(Header, &[u8]), usize>
    ensures value { MatchResult result
        (λ x. numbers_at 3 bytes.now ≡ Ok (x.0.width ∷ x.0.height ∷ x.0.maxval ∷ [], x.1.now))
        (λ left. numbers_at 3 bytes.now ≡ Err left) }
    ensures shorter { MatchResult result
        (λ x. (0 < length x.1.now) × (length x.1.now ≤ length bytes.now))
        (λ left. left ≤ length bytes.now) }
{
    let (width, rest) = whole_number(bytes)?;
    let (height, rest) = whole_number(rest)?;
    let (maxval, rest) = whole_number(rest)?;
    let header = Header {
        width,
        height,
        maxval,
    };
    Ok((header, rest))
}

/// The first of the limits that the header breaks.
fn check_limits(header: Header) -> Result<(), PgmError>
    ensures { result ≡ check_limits header }
{
    let Header {
        width,
        height,
        maxval,
    } = header;
    if width == 0 || height == 0 {
        return Err(PgmError::ZeroSize);
    }
    if width > SIDE_LIMIT || height > SIDE_LIMIT || width * height > SAMPLE_LIMIT {
        return Err(PgmError::TooLarge);
    }
    if maxval == 0 || maxval > MAXVAL_LIMIT {
        return Err(PgmError::BadMaxval);
    }
    Ok(())
}

/// The header at the front, within the limits, and the bytes from its last one on.
#[tactic(auto, unfolding(crate::specs::Reading::header_at))]
pub(crate) fn header_at(bytes: &[u8]) -> Result<(Form, Header, &[u8]), PgmError>
    ensures value { MatchResult result (λ x. header_at bytes.now ≡ Ok (x.0, x.1, x.2.now))
        (λ e. header_at bytes.now ≡ Err e) }
    ensures limits { MatchResult result (λ x. check_limits x.1 ≡ Ok tt) (λ e. IsOfHeader e) }
    ensures shorter { MatchResult result
        (λ x. (0 < length x.2.now) × (length x.2.now ≤ length bytes.now)) (λ e. ⊤) }
{
    let Some((form, rest)) = form_at(bytes) else {
        return Err(PgmError::NotPgm);
    };
    let (header, rest) = match numbers_at(rest) {
        Ok(found) => found,
        Err(left) => return Err(PgmError::BadHeader(bytes.len() - left)),
    };
    match check_limits(header) {
        Ok(()) => Ok((form, header, rest)),
        Err(e) => Err(e),
    }
}
