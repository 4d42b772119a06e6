//! Energies of yes-no variables: a constant and a list of terms, each a table of numbers over one,
//! two or three variables. The value at an assignment is the constant plus what each term's table
//! has there (Kolmogorov and Zabih, PAMI 2004, sections 2 and 4).
#![tactic(auto)]

mod energy;
mod error;
mod limits;
mod row;
mod term;

pub use energy::Energy;
pub use error::EnergyError;
pub use limits::{CONSTANT_LIMIT, TERM_LIMIT, VALUE_LIMIT, VARIABLE_LIMIT};
pub use term::Term;
