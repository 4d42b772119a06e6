//! Rings between blocks that running workers share, from before a round until after it, and what
//! one round leaves for the next.
//!
//! Two blocks have two rings, one each way, where a direction leads from one of them to the other
//! (`join_all`). After a round both ends of each ring come together again (`Rings`). What was put
//! into a ring is what was taken from it, followed by what is left. That goes to the core's ways
//! (`drain`), and the rings are empty.
//!
//! A round leaves a `Stock`: its empty rings, and lists for their room. The next round joins its
//! blocks by it (`join_by`), so that it asks for memory only where something is lacking.
#![tactic(auto)]

mod deck;
mod join;
mod kept_rings;
mod linked_blocks;
mod pair;
mod pile;
mod ring_ends;
mod rings;
mod stock;

pub use deck::Deck;
pub use join::{join_all, join_by};
pub use pair::PortPair;
pub use pile::Pile;
pub use rings::Rings;
pub use stock::{Piles, Stock};
