//! A number that no labelling's energy is below, found for the very problem (Schlesinger 1976;
//! Wainwright, Jaakkola, Willsky, IEEE Transactions on Information Theory 2005; Werner, PAMI 2007).
//!
//! Messages move costs between the sites of a pair, so that the least costs of the sites rise
//! together. Whatever the messages are, `message_bound` counts the bound that they prove.
#![tactic(auto)]

mod ascent;
mod bound;
mod error;
mod squares;

pub use bound::{LowerBound, lower_bound, search_bytes};
pub use error::BoundError;
pub use message_bound::laws;
