//! Sums by index and sums of signed numbers: the words and laws that the contracts above share.
//! This crate has no code of its own.
#![tactic(auto)]
