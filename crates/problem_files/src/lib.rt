//! Problem files, TOML texts: the energy of yes-no variables that one names, or the problem of
//! labels (sites, labels, costs, weighted pairs and the moves to make), or the first fault of the
//! text.
#![tactic(auto)]

mod costs;
mod energy;
mod energy_fault;
mod fields;
mod label_fault;
mod label_problem;
mod labels;
mod lists;
mod move_names;
mod numbers;
mod pairs;
mod smooth;
mod start;
mod table;
mod term;

pub use energy::{energy_of, read_energy};
pub use energy_fault::{EnergyFault, EnergyKey};
pub use label_fault::{LabelFault, LabelKey};
pub use label_problem::LabelProblem;
pub use labels::{problem_of, read_label};
pub use table::read_table;
