//! Why an expansion of a label that is made once more (Boykov, Veksler, Zabih, PAMI 2001) needs to
//! look at few sites: those near the sites that changed since, in stages of upper bounds. The laws,
//! what a run remembers of its moves, and the code that says, stage after stage, where such an
//! expansion looks and what takes the label.
//!
//! Parts of the sites look by themselves, side by side, before the first stage. To a part all sites
//! beyond it count as 1. So what it finds to be 0 is 0 for good, whatever the others find.
#![tactic(auto)]

mod changes;
mod closing;
mod fresh;
mod join;
pub mod laws;
mod opening;
mod part;
mod side_by_side;
mod stage;
mod windows;

pub use changes::Changes;
pub use opening::{Window, choose_first};
pub use side_by_side::find_zeros;
pub use stage::Stage;
pub use windows::PartSizes;
