//! By how much costs rise where the value of one site turns from 0 to 1, and what that of another
//! changes of it.
ghost use Rattle.std.specs.Prelude.{◌≡◌, ◌⊎◌, ◌-ℤ◌, cond, true, false};
ghost use Rattle.move_energy.specs.Prelude.{AreEnds, bit_of};

use crate::choice::Choice;
use label_field::Pair;

/// By how much a pair's cost rises where one of its ends turns: while the value of the other end is
/// 0, and while it is 1. What the two values together save is the difference.
#[derive(Clone, Copy)]
pub struct EndRises {
    pub low: i32,
    pub high: i32,
}

/// By how much the energy rises where the value of a site turns from 0 to 1: at least, which is
/// with all undecided neighbours at 1, and at most, which is with all of them at 0.
#[derive(Clone, Copy)]
pub struct Rises {
    pub least: i64,
    pub greatest: i64,
}

/// The rises of a site, at least and at most, and whether an open site before it has a pair with
/// it.
#[derive(Clone, Copy)]
pub struct SiteRises {
    pub least: i64,
    pub greatest: i64,
    pub beside: bool,
}

/// The other end of a pair.
pub fn other_end(pair: Pair, site: u32) -> u32
    requires { (pair.first ≡ site) ⊎ (pair.second ≡ site) }
    ensures { AreEnds pair site result }
{
    if pair.first == site {
        pair.second
    } else {
        pair.first
    }
}

/// The rises of a pair, at least and at most, where this is known of its other end. It takes no
/// branch on what is known, since that can seldom be foretold.
#[inline]
pub fn rises_beside(rises: EndRises, choice: Choice) -> Rises
    ensures least { result.least ≡ cond (bit_of choice true) rises.high rises.low }
    ensures greatest { result.greatest ≡ cond (bit_of choice false) rises.high rises.low }
{
    Rises {
        least: i64::from(if choice.bit(true) {
            rises.high
        } else {
            rises.low
        }),
        greatest: i64::from(if choice.bit(false) {
            rises.high
        } else {
            rises.low
        }),
    }
}

/// What the values of two sites save together: the difference of the two rises of the first.
#[inline]
pub fn saving_of(rises: EndRises) -> i64
    ensures { result ≡ rises.low -ℤ rises.high }
{
    i64::from(rises.low) - i64::from(rises.high)
}
