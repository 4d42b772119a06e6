//! The rule that letters of a ring keep.
ghost use Rattle.block_events.specs.Workers.{IsFair};

use block_discharge::Letter;
use rtrb::Protocol;

/// The rule of the rings: who takes a letter knows that its message is fair, since none other may
/// be put.
#[derive(Clone, Copy)]
pub struct Fair;

impl Protocol<Letter> for Fair {
    ghost allows = { λ _ letter. IsFair letter.message };
}
