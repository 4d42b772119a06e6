//! A number after a gap, read byte by byte.
ghost use Rattle.std.specs.Prelude.{◌≡◌, ◌≤◌, length};
ghost use Rattle.pgm_image.specs.Signs.{is_digit};
ghost use Rattle.pgm_image.specs.Words.{step_in_gap, step_in_number, step, number_at};
ghost use Rattle.pgm_image.specs.Words.{IsNonEmptyIfEnded};
ghost use Rattle.pgm_image.specs.declared.words.Place.TheVariants.{Start};

use crate::signs::{is_digit, is_line_end, is_space, with_digit};

/// Where a byte stands.
#[derive(Clone, Copy, Drop)]
pub enum Place {
    /// Before the gap, which begins with white space.
    Start,
    /// In the gap, at least one byte of which is past.
    Gap,
    /// In a comment of the gap.
    Comment,
    /// In the number, whose digits so far have this value.
    Number(u32),
}

/// What one byte leads to.
#[derive(Clone, Copy, Drop)]
pub enum Step {
    On(Place),
    Ended(u32),
    Bad,
}

/// How the reading of a number ended.
#[derive(Clone, Copy, Drop)]
pub enum Reading {
    /// The number. White space follows.
    Whole(u32),
    /// The bytes end at this place.
    Cut(Place),
    /// The next byte cannot stand there.
    Stuck,
}

fn step_in_gap(byte: u8) -> Step
    ensures { result ≡ step_in_gap byte }
{
    if is_space(byte) {
        Step::On(Place::Gap)
    } else if byte == b'#' {
        Step::On(Place::Comment)
    } else if is_digit(byte) {
        Step::On(Place::Number(with_digit(0, byte)))
    } else {
        Step::Bad
    }
}

fn step_in_number(number: u32, byte: u8) -> Step
    ensures { result ≡ step_in_number number byte }
{
    if is_digit(byte) {
        Step::On(Place::Number(with_digit(number, byte)))
    } else if is_space(byte) {
        Step::Ended(number)
    } else {
        Step::Bad
    }
}

fn next_step(place: Place, byte: u8) -> Step
    ensures { result ≡ step place byte }
{
    match place {
        Place::Start => {
            if is_space(byte) {
                Step::On(Place::Gap)
            } else {
                Step::Bad
            }
        }
        Place::Gap => step_in_gap(byte),
        Place::Comment => {
            if is_line_end(byte) {
                Step::On(Place::Gap)
            } else {
                Step::On(Place::Comment)
            }
        }
        Place::Number(number) => step_in_number(number, byte),
    }
}

/// The number after the gap at the front, up to the cap, and the bytes that were not read.
#[tactic(auto, unfolding(crate::specs::Words::number_at))]
pub(crate) fn number_at(bytes: &[u8]) -> (Reading, &[u8])
    ensures value { (result.0, result.1.now) ≡ number_at Start bytes.now }
    ensures shorter { length result.1.now ≤ length bytes.now }
    ensures more { IsNonEmptyIfEnded result.0 result.1.now }
{
    let mut place = Place::Start;
    let mut rest = bytes;
    while let [byte, after @ ..] = rest {
        match next_step(place, *byte) {
            Step::On(next) => place = next,
            Step::Ended(number) => return (Reading::Whole(number), rest),
            Step::Bad => return (Reading::Stuck, rest),
        }
        rest = after;
    }
    (Reading::Cut(place), rest)
}
