//! The command line: what its words ask for, and the text of help.
#![tactic(auto)]

mod app;
mod help;
mod rules;
mod task;
mod values;
mod words;

pub use task::{NoTask, OptionName, PictureOptions, Request, Task};
pub use words::parse;
