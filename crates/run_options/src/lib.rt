//! What runs of moves are told: how two labels cost, the options of the image commands, and the
//! limits of all that.
#![tactic(auto)]

pub mod laws;
mod limits;
mod options;
mod shape;
mod table;

pub use limits::{
    CAP_LIMIT, CYCLE_LIMIT, DATA_LIMIT, LABEL_COST_LIMIT, MAXVAL_LIMIT, SMOOTH_LIMIT, TRUNC_LIMIT,
};
pub use options::{Neighbours, RestoreOptions, SegmentOptions, StereoOptions};
pub use shape::Shape;
pub use table::smooth_table;
