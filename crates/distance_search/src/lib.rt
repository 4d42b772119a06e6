//! Exact labels of the states of a net, which in a large net its blocks search side by side.
//!
//! Each block searches within itself, and then again from what the others told, until no label
//! changes (`BlockLabels` of `global_relabel`). What they find is tested block by block. If that
//! fails, or takes too many steps, one thread searches. `distances_by_blocks` does it once, and a
//! `LabelSearch` for many states of one net without memory.
#![tactic(auto)]

mod by_blocks;
mod search;

pub use by_blocks::distances_by_blocks;
pub use search::LabelSearch;
