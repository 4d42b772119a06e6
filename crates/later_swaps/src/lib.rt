//! Later swaps of a run (Boykov, Veksler, Zabih, PAMI 2001). They are of labels that were swapped
//! before, and look near the changes alone. Here is what a run remembers for that, too.
#![tactic(auto)]

mod later_swap;
mod swap_memory;

pub use later_swap::swap_labels;
pub use swap_memory::{begin_swaps, note_swap};
