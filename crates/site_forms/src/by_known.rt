//! The table of rises by what is known.
ghost use Rattle.std.specs.Prelude.{◌≡◌};
ghost use Rattle.site_forms.specs.Fields.{code_of, known_place};

use move_energy::Choice;

/// By how much the cost of a pair rises where its first end turns, at least and at most, by what is
/// known of its other end.
#[derive(Clone, Copy)]
pub struct ToldRises {
    pub least: i32,
    pub greatest: i32,
}

/// The number of what is known of a variable.
#[inline]
fn code(choice: Choice) -> usize
    ensures { result ≡ code_of choice }
{
    match choice {
        Choice::Open => 0,
        Choice::Zero => 1,
        Choice::One => 2,
    }
}

/// Where a table by what is known has the rises of a pair whose first end has the one label, while
/// this is known of its other end, which has the other. A label of a first end has 256 places: 4
/// for each of the first 64 labels of the other end. The last of the 4 is free.
#[inline]
pub fn place_told(own: u8, other: u8, choice: Choice) -> usize
    ensures { result ≡ known_place own other choice }
{
    own as usize * 256 + other as usize * 4 + code(choice)
}
