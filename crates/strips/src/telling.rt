//! What a strip tells, taken over.
ghost use Rattle.std.specs.Prelude.{◌≡◌, ◌<◌, ◌++◌, All, filter, length, OnOk};
ghost use Rattle.move_energy.specs.Choices.{open_at};
ghost use Rattle.strips.specs.Telling.{IsAsTold};

use crate::opening::list_left;
use move_energy::Choice;
use persistency::add_strip;
use plain_cut::BothSides;
use std::alloc::AllocError;

/// Adds what both sides of a strip tell of its listed sites, and lists those that are still open
/// behind the others that are left.
pub(crate) fn tell_strip(
    known: &mut Vec<Choice>,
    opened: &[u32],
    left: &mut Vec<u32>,
    sides: &BothSides,
) -> Result<(), AllocError>
    requires sites { All (λ site. site < length known.old.items) opened.now }
    requires lower { length sides.now.lower.items ≡ length opened.now }
    requires upper { length sides.now.upper.items ≡ length opened.now }
    ensures count { length known.new.items ≡ length known.old.items }
    ensures told { IsAsTold known.old.items known.new.items opened.now sides.now }
    ensures left { OnOk result (left.new.items
        ≡ left.old.items ++ filter (open_at known.new.items) opened.now) }
{
    add_strip(known.as_mut_slice(), opened, &sides.lower, &sides.upper);
    list_left(left, opened, known)
}
