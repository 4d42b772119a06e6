//! Laws of rounds. These functions do nothing: the contract of each is a law.

ghost use Rattle.block_events.specs.RoundLaws.{RoundKeeps, HistoryGoesOn, HistoryRuns};
ghost use Rattle.block_events.specs.RoundLaws.{OwnTermsHold, QuietIsEmpty, HistoriesGather};

/// A round that began in a sound state with no message on the way ends in a sound state: each block
/// did events of its own, enabled by what it then held, and what one block put for another is what
/// the other took, in order, followed by what is left on the way. No order between events of two
/// blocks is supposed.
pub fn round_keeps()
    ensures { RoundKeeps }
{}

/// Two histories of a block, one after the other, are a history.
pub fn history_goes_on()
    ensures { HistoryGoesOn }
{}

/// On one thread a history of one block, which took the messages in front of the ways of a sound
/// state, is a run of the core from that state: what the block put stands at the ends of the ways,
/// and what it took is gone from their fronts.
pub fn history_runs()
    ensures { HistoryRuns }
{}

/// In a sound state each enabled event of a block is enabled by what the block alone can see, and
/// takes the message in front, where it takes one.
pub fn own_terms_hold()
    ensures { OwnTermsHold }
{}

/// In a sound state with no message on the way, the ways are empty lists.
pub fn quiet_is_empty()
    ensures { QuietIsEmpty }
{}

/// Where each block has a history, which is not empty where the block could start, there is a list
/// of such histories.
pub fn histories_gather()
    ensures { HistoriesGather }
{}
