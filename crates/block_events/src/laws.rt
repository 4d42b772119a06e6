//! Laws of the events. These functions do nothing: the contract of each is a law.

ghost use Rattle.block_events.specs.Laws.{HasOneEffect, EventKeeps, EventLowers, RaiseNeverRaises};
ghost use Rattle.block_events.specs.Laws.{OpeningIsSound, OpeningCount, EveryList, GoesOn};
ghost use Rattle.block_events.specs.Laws.{FinishedIsSmallest, FinishedIsCertified, WayFits};
ghost use Rattle.block_events.specs.Laws.{AcceptFits, SettleFits, ExcessFits};
ghost use Rattle.block_events.specs.Laws.{SinkGotAtMostEachCut};

/// An event that happens in a state leads to one state.
pub fn has_one_effect()
    ensures { HasOneEffect }
{}

/// Each event leads from a sound state to a sound state.
pub fn event_keeps()
    ensures { EventKeeps }
{}

/// Each event but `RaiseAll` lowers the count of a sound state.
pub fn event_lowers()
    ensures { EventLowers }
{}

/// `RaiseAll` does not raise the count of a sound state.
pub fn raise_never_raises()
    ensures { RaiseNeverRaises }
{}

/// The opening state of a net, in any number of blocks from 1 on, is sound.
pub fn opening_is_sound()
    ensures { OpeningIsSound }
{}

/// The count of the opening is N (n + B) (4 N U + B + 1), for n nodes, N = n + 2, B border
/// directions and all source capacities U together.
pub fn opening_count()
    ensures { OpeningCount }
{}

/// Every list of events, each enabled where it stands, leads from the opening of a net to a sound
/// state, and it has at most as many events other than `RaiseAll` as the count of the opening.
pub fn every_list()
    ensures { EveryList }
{}

/// A sound state is finished, or has an enabled event other than `RaiseAll`.
pub fn goes_on()
    ensures { GoesOn }
{}

/// In a sound and finished state the nodes that reach the sink by residual directions are the
/// sink's side of a least cut, within that of every least cut, and the sink got its capacity
/// (Goldberg, Tarjan 1988, section 3; Ford, Fulkerson 1962).
pub fn finished_is_smallest()
    ensures { FinishedIsSmallest }
{}

/// In a sound and finished state what can be taken back of each arc, and what each node gave the
/// sink, are a preflow that certifies the cut of the nodes that reach the sink; its value is what
/// the sink got (Goldberg, Tarjan 1988, section 2).
pub fn finished_is_certified()
    ensures { FinishedIsCertified }
{}

/// In a sound state a way has at most as many messages as directions lie between its two blocks.
pub fn way_fits()
    ensures { WayFits }
{}

/// In a sound state a parcel that may be taken fits what its receiver knows: the label is at most
/// N, and the opposite residual, what is out on it and the amount are within the arc's capacity.
pub fn accept_fits()
    ensures { AcceptFits }
{}

/// In a sound state a refusal in front fits what its sender knows: the label told is at most N, the
/// amount and the label are those of the flight, and the residual and the amount are within the
/// arc's capacity.
pub fn settle_fits()
    ensures { SettleFits }
{}

/// In a sound state an excess and what a message in front carries are within what the source sends.
pub fn excess_fits()
    ensures { ExcessFits }
{}

/// In a sound state with no message on the way, what the sink got is at most the capacity of each
/// cut.
pub fn sink_got_at_most_each_cut()
    ensures { SinkGotAtMostEachCut }
{}
