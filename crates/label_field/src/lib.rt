//! Labellings of sites, and lists of weighted pairs of sites, as in an energy of labels over an
//! image or a graph (Boykov, Veksler, Zabih 2001, section 1).
#![tactic(auto)]

mod error;
mod grid;
mod labelling;
mod laws;
mod pair;
mod pairs;

pub use error::LabelFieldError;
pub use grid::SIDE_LIMIT;
pub use labelling::{LABEL_LIMIT, Labelling, SITE_LIMIT};
pub use laws::{grid4_lists_edges, grid8_lists_touching};
pub use pair::Pair;
pub use pairs::{PAIR_LIMIT, Pairs, WEIGHT_LIMIT};
