//! gco for C and for all that calls C: one call for a whole problem, which keeps nothing when it
//! returns. A call is the test of all that it is given, since nothing checks its caller.
#![tactic(auto)]

mod bound;
mod label;
mod minimise;
mod moving;
mod pairs;
mod stretch;
#[cfg(test)]
mod tests;

pub use bound::{gco_lower_bound, gco_lower_bound_pairs};
pub use gco_arrays::{GcoOne, GcoPair, GcoThree, GcoTwo};
pub use gco_calls::{GcoBound, GcoCourse, GcoMinimum, GcoOutcome};
pub use label::{gco_label, gco_label_int32};
pub use minimise::gco_minimise;
pub use moving::{gco_expand, gco_swap};
pub use pairs::{
    gco_expand_pairs, gco_expand_pairs_int32, gco_label_pairs, gco_label_pairs_int32,
    gco_swap_pairs, gco_swap_pairs_int32,
};
pub use stretch::{gco_label_stretch, gco_label_stretch_int32};
