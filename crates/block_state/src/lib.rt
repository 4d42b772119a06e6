//! The core: a net in blocks that exchange parcels of flow, one event at a time.
//!
//! `Core::open` makes the opening of a net in so many blocks, and `Core::apply` does one event,
//! exactly where it is enabled; `State::perform` does the same on a state by itself. Every `State`
//! is sound, so what `block_events::laws` says of sound states holds of each that a core comes to,
//! whatever the order of its events.
#![tactic(auto)]

mod all_ways;
mod apply;
mod compact;
mod pieces;
mod rooms;
mod state;

pub use all_ways::AllWays;
pub use apply::{Core, NotEnabled};
pub use pieces::Pieces;
pub use state::State;
