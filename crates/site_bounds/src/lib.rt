//! Sites of a move whose value is known before anything is cut, decided one after another
//! (Iyer, Jegelka, Bilmes, ICML 2013, section 4; for graph cuts Boros and Hammer 2002).
#![tactic(auto)]

mod bounds;
mod kept;
mod label_sites;
pub mod laws;
mod lists;
mod own_bounds;
mod sites;
mod swapped;
mod sweeps;
mod waiting_sites;

pub use bounds::Bounds;
pub use form_lists::FormLists;
pub use kept::keep;
pub use label_sites::LabelSites;
pub use lists::Lists;
pub use move_energy::EndRises;
pub use site_forms::SiteForm;
pub use sites::Deciding;
pub use sweeps::{read_weight, sweep};
