//! The network of a strip, which is some open sites of a move. It is laid in rows, of the numbers
//! of the move and of what is known of its sites. It is cut twice: with the open sites outside the
//! strip at 0, and with those at 1. All open sites are a strip too, which is cut once, or whose
//! form is written.
#![tactic(auto)]

mod building;
mod cutting;
mod material;
mod reading;
mod rows;
mod sides;
mod untold;

pub use cutting::{cut_open, cut_read, cut_strip, write_open};
pub use material::{Material, Room, StripSites};
pub use reading::read_weights;
