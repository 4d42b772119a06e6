//! The bound that messages prove, whatever they are (Schlesinger 1976; Werner, PAMI 2007).
//!
//! Each pair passes a message: for each label of its second site a cost that is added there. It is
//! paid by the pair's own cost, or taken off at the labels of its first site. So no labelling's
//! energy rises, and the least costs that the sites have then are together a bound from below.
#![tactic(auto)]

mod bends;
mod costs;
pub mod laws;
mod messages;
mod rows;
mod sites;
mod tables;

pub use costs::{Form, PARTS, Slope};
pub use messages::bound_by_messages;
pub use rows::least;
pub use sites::bound_of_sites;
pub use tables::PairCosts;
