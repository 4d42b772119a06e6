//! Laws of seats. These functions do nothing: the contract of each is a law.

ghost use Rattle.cut_in_blocks.specs.HistoryLaws.{SeatsMakeRound, StartIsSure, RoomsTellGot};
ghost use Rattle.cut_in_blocks.specs.HistoryLaws.{QuietIsStart, RoundIsHeld};

/// Blocks that came back, each after steps of its own, are a round from the state that they showed
/// before: what they show now, with the messages that are left on the way, is a sound state,
/// whatever the schedule was, and each block stands in its seat again. What the sink got is what
/// the rooms lack.
pub fn seats_make_round()
    ensures { SeatsMakeRound }
{}

/// Where no message is on the way, an event of a block that takes none is enabled, and room is seen
/// for a message to each other block, one of the block's steps is sure: then its first turn does at
/// least one.
pub fn start_is_sure()
    ensures { StartIsSure }
{}

/// In a sound state what the sink got, with the rooms of all blocks, is all that the nodes can send
/// the sink: so the blocks alone tell what it got.
pub fn rooms_tell_got()
    ensures { RoomsTellGot }
{}

/// A sound and quiet state of blocks is a state before a round: no message is on the way.
pub fn quiet_is_start()
    ensures { QuietIsStart }
{}

/// After a round, ways with a room for each direction between their blocks have room for what is
/// left on them, and the state is one that the pieces can be put together to.
pub fn round_is_held()
    ensures { RoundIsHeld }
{}
