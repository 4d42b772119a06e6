//! One move between labellings, to the best labelling that it reaches (Boykov, Veksler, Zabih, PAMI
//! 2001, sections 4 and 5): its energy is built, the sites decided and closed in first or not, then
//! cut, and the cut's values become labels. What a run of moves works with, from one move to the
//! next, is here too.
#![tactic(auto)]

mod building;
mod energy_change;
mod error;
mod left;
mod move_by_cut;
mod paying;
mod taking;
mod workspace;

pub use error::MoveError;
pub use move_by_cut::{cut_small, least_nodes, make_move};
pub use taking::{relabel_site, take_best};
pub use workspace::Workspace;
