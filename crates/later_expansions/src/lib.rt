//! Later expansions of a run (Boykov, Veksler, Zabih, PAMI 2001). They are of labels that were
//! expanded before, and look near the changes alone. Here is what a run remembers for that, too.
#![tactic(auto)]

mod expansion_memory;
mod later_expansion;
mod opening_apart;
mod stage_cut;

pub use expansion_memory::{begin_changes, note_later, note_whole};
pub use later_expansion::make_later_expansion;
