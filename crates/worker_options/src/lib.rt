//! What workers are told: how many there are, how much one round may take, and the gate that they
//! ask before each turn.
#![tactic(auto)]

mod gate;
mod limits;
mod options;

pub use gate::Gate;
pub use limits::{RING_LIMIT, ROUND_LIMIT, THREAD_LIMIT, TURN_LIMIT};
pub use options::{BadOptions, Options};
