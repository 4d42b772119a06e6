//! Laws of nets, preflows and cuts. These functions do nothing: the contract of each is a law.

ghost use Rattle.flow_network.specs.Laws.{SinkGetsAtMostEachCut, CertifiedIsLeast, ReachIsSmallest};

/// What the sink gets by a preflow is at most the capacity of each cut (Ford, Fulkerson 1956).
pub fn sink_gets_at_most_each_cut()
    ensures { SinkGetsAtMostEachCut }
{}

/// A certified cut is a least cut, and the value is its capacity (Ford, Fulkerson 1956).
pub fn certified_is_least()
    ensures { CertifiedIsLeast }
{}

/// Where no node that reaches the sink by residual directions has excess, the nodes that reach it
/// are the sink's side of a least cut, within that of every least cut, and what the sink gets is
/// its capacity (Goldberg, Tarjan 1988).
pub fn reach_is_smallest()
    ensures { ReachIsSmallest }
{}
