//! The lists that a move's form is lent from. The costs of a move are read once into lists, and
//! what comes after asks no closure, so any thread can read it.
#![tactic(auto)]

mod by_pair;
mod by_place;
mod lists;
mod own_rises;
mod smooth_costs;
mod told_rows;

pub use lists::FormLists;
