//! What labels cost by themselves, once each where some site has it, in the yes-no energy of an
//! expansion of which nothing is decided: hidden nodes behind those of the sites pay for the labels
//! (Delong, Osokin, Isack, Boykov, IJCV 2012, section 3).
#![tactic(auto)]

mod label_costs;
mod nodes;

pub use label_costs::add_label_costs;
