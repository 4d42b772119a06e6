//! The commands of the program, over an input, a sink and a way to cut.
#![tactic(auto)]

mod bounds;
mod energy;
mod label;
mod library_faults;
mod pictures;
mod tasks;

pub use tasks::run_task;
