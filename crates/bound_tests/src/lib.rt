//! Tests of bounds from below: pictures and chains whose least energy was found by trying every
//! labelling, with one table for all pairs and with one for each.
#![tactic(auto)]

#[cfg(test)]
mod by_hand;
