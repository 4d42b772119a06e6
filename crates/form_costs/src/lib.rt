//! A quadratic form of yes-no variables as what two labels cost: its weights are what they cost
//! sites, its arcs what they cost pairs of sites. So an expansion of label 1 from label 0 finds the
//! least assignment of the form with the fewest ones, and of the energy whose form it is.
#![tactic(auto)]

pub mod laws;
mod pairs;

pub use pairs::pairs_of_form;
