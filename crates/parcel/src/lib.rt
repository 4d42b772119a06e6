//! Networks in blocks that exchange parcels of flow: states, events, and their laws. The crate has
//! no code of its own.
//!
//! `Core` does one event at a time, exactly where it is enabled. `laws` says what each state keeps,
//! and what a finished one answers. `rounds` says what workers give back. `Parts` are the blocks of
//! a net, each of them `Cells`; `BLOCK_LIMIT` and `ARC_LIMIT` are how many blocks and arcs there
//! may be. `Ways` are a block's ends of its ways to other blocks, which carry each message in a
//! `Letter`.
#![tactic(auto)]

pub use block_discharge::{Letter, Ways};
pub use block_events::{Direction, Event, Flight, Lane, Message, laws, rounds};
pub use block_net::{ARC_LIMIT, BLOCK_LIMIT, Cells};
pub use block_split::Parts;
pub use block_state::{Core, NotEnabled, State};
