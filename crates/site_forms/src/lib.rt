//! A move as a form: of each site its own rise, and at each of its places two rises of the pair
//! that leads to the neighbour there (a quadratic function, told without what it stands for: Boros
//! and Hammer 2002, section 4). The form tells the energies of the labellings that the move makes,
//! but for a fixed number, so what comes after it needs no label and no cost.
#![tactic(auto)]

mod by_known;
mod ends;
mod expanding;
pub mod laws;
mod numbers;
mod reading;
mod rises;
mod savings;

pub use by_known::{ToldRises, place_told};
pub use ends::{head_at, is_first_end};
pub use numbers::SiteForm;
pub use reading::{place_in_table, smooth_of, times, unit_rises};
pub use rises::{read_rises, rises_of_place, site_rises, start};
pub use savings::{rise_at_all, saving_beside, saving_by};
