//! Work in parts by several threads: `ByThreads`, whose threads draw one part after another, and
//! the answers in the order of the parts.
#![tactic(auto)]

mod by_threads;
mod drawing;

pub use by_threads::ByThreads;
