//! Laws of pushes that ask for less than the events do. These functions do nothing: the contract of
//! each is a law.

ghost use Rattle.cut_in_blocks.specs.Loose.{LoosePushKeeps, LooseGiveKeeps};

/// An amount of a node's excess that a direction within the block can carry goes on, where the far
/// end is at most one label higher: the block stands in a sound state as before.
pub fn loose_push_keeps()
    ensures { LoosePushKeeps }
{}

/// An amount of a node's excess that it can give the sink goes there, whatever the labels: the
/// block stands in a sound state as before.
pub fn loose_give_keeps()
    ensures { LooseGiveKeeps }
{}
