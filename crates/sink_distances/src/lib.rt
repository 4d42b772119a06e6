//! The exact distance of each node to the sink over residual directions, and the nodes that reach
//! the sink.
//!
//! A distance is the least number of residual directions that lead from the node to the sink, and
//! `top_label` where none leads there (Goldberg, Tarjan 1988, section 3: the greatest valid
//! labelling).
#![tactic(auto)]

ghost use Rattle.sink_distances.specs.Laws.{DistancesLabel, DistancesRise, DistancesReach};

mod adjacency;
mod carried;
mod filling;
mod labels;
mod laid;
mod laying;
mod near;
mod outline;
mod rooms;
mod rows;
mod search;
mod side;

pub use adjacency::{Adjacency, arcs_by_node};
pub use carried::carried_flows;
pub use filling::{rows_by_node, rows_of, zeros};
pub use labels::top_label;
pub use laid::Laid;
pub use laying::Laying;
pub use near::{Aim, Extent, raise_labels};
pub use outline::Outline;
pub use rooms::are_rooms;
pub use rows::{Cell, Rows, Spare};
pub use search::{mark, write_distances};
pub use side::{distances, side_below, sink_side};

/// A law: distances are labels that fall by at most 1 along each residual direction.
pub fn distances_label()
    ensures { DistancesLabel }
{}

/// A law: no labels that fall by at most 1 along each residual direction are above the distances.
pub fn distances_rise()
    ensures { DistancesRise }
{}

/// A law: the nodes whose distance is below the top label are those that reach the sink.
pub fn distances_reach()
    ensures { DistancesReach }
{}
