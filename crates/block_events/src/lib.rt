//! Push-relabel on a net in blocks that exchange parcels of flow: states, events, and their laws.
//!
//! The nodes lie in blocks, node i of n in block i * blocks / n. Within a block excess moves as in
//! the push-relabel method (Goldberg, Tarjan 1988, section 2). To another block it goes in a
//! parcel, which is taken or sent back; until its answer comes nothing else goes out on that
//! direction, and a direction knows of its far end's label what messages told. `specs/` has the
//! state, the eight events and what every reachable state keeps. `laws` has the reasons: every
//! order of enabled events keeps a state sound, a number falls with each event, and a sound state
//! in which nothing is left to do has the smallest least cut.
//!
//! A worker moves excess within its own block, by what the block holds and the messages that it
//! takes (`specs/Workers.antt`), and no order between the events of two workers is known. `rounds`
//! has the reasons why the blocks that come back, with the messages that are left on the way, are a
//! sound state all the same, and why on one thread a history of one block is a run of such events.
#![tactic(auto)]

mod direction;
mod event;
mod flight;
mod lane;
pub mod laws;
mod message;
pub mod rounds;

pub use direction::Direction;
pub use event::Event;
pub use flight::Flight;
pub use lane::Lane;
pub use message::Message;
