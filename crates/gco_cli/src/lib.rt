//! The program `gco`, over its words, a source of input, a sink for the answer and a sink for
//! faults.
#![tactic(auto)]

mod program;
mod runs;

pub use program::run_program;
pub use program_texts::{Fault, LINE_LIMIT, Line, line_of, refuse_unread};
pub use runs::{run, run_gated, run_words};
