//! What the program writes and says: the faults of a run and their lines, the texts of answers, and
//! what ends a run.
#![tactic(auto)]

mod answer;
mod energy_text;
mod fault;
mod fault_line;
mod labels;
mod library_faults;
mod line;
mod lines;
mod lost_words;
mod no_task;
mod refusal;
mod run_end;

pub use answer::{Answer, write_text};
pub use energy_text::energy_answer;
pub use fault::Fault;
pub use fault_line::line_of;
pub use labels::label_text;
pub use line::{LINE_LIMIT, Line};
pub use lines::{EnergyParts, Near, picture_lines};
pub use lost_words::refuse_unread;
pub use no_task::end_without_task;
pub use refusal::Refusal;
pub use run_end::say_end;
