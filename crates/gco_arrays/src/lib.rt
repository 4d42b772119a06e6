//! What C hands over, tested and read: arrays as the parts of a problem, terms as an energy of
//! yes-no variables. A refusal has its number and what it names. It is the test of all that is
//! given, since nothing checks a caller in C.
#![tactic(auto)]

mod checks;
mod number;
mod pairs;
mod prices;
mod ready;
mod refusal;
mod start;
mod tables;
mod terms;

pub use number::{Number, wide_copy};
pub use pairs::GcoPair;
pub use prices::PairPrices;
pub use ready::{Arrays, Ready, ready_of};
pub use refusal::Refusal;
pub use tables::{PairArrays, pair_ready_of, prices_of};
pub use terms::{GcoOne, GcoThree, GcoTwo, energy_of};
