//! Labels that stay in use whatever an expansion does: where all that cost something by themselves
//! do, the expansion is the one without label costs, but for what its own label costs.
#![tactic(auto)]

mod kept;
pub mod laws;
mod rises;

pub use kept::{are_kept, own_price_of};
pub use rises::last_rises;
