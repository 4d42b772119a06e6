//! Laws of turns. These functions do nothing: the contract of each is a law.

ghost use Rattle.cut_in_blocks.specs.TurnEvents.{TurnIsHistory, TurnIsRun, StartIsStep};

/// A list of steps of a block, each enabled by what the block holds and takes, is a history of that
/// block: as many events of the net, which lead from the state that the block shows to that which
/// it shows afterwards, with what it put and took.
pub fn turn_is_history()
    ensures { TurnIsHistory }
{}

/// On one thread a list of steps of a block, which took what stood in front of the ways of a sound
/// state, is a run of as many events of the core: it ends in a sound state, whose ways have what
/// the block put at their ends and lost what it took, and the count falls by one an event at least.
pub fn turn_is_run()
    ensures { TurnIsRun }
{}

/// Where an event of the block that takes no message is enabled, and room is seen for a message to
/// each other block, one of the block's steps is sure: then a turn does at least one.
pub fn start_is_step()
    ensures { StartIsStep }
{}
