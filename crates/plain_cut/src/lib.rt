//! A least cut of a net by the preflow method, proved to be the smallest one.
//!
//! `work` is what the solver changes, `pushes` and `relabels` are its moves, `opening`, `phases`
//! and `discharges` are their order, `wide` finds nodes of many directions, and `solver` is the
//! whole (Goldberg, Tarjan 1988).
#![tactic(auto)]

mod both;
mod discharges;
mod opening;
mod phases;
mod pushes;
mod relabels;
mod solver;
mod wide;
mod work;
mod workspace;

pub use both::{BothSides, both_sides_of, one_side_of};
pub use solver::{smallest_side, smallest_side_in, solve};
pub use workspace::Workspace;
