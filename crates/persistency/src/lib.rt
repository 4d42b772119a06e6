//! Choices of yes-no variables that are right for good, whatever comes after: those that agree with
//! the least assignment with the fewest ones. They come by bounds from both sides (Topkis 1978), of
//! one variable or of a strip of them, in any order and side by side (persistency: Boros and Hammer
//! 2002; partial optimality: Kohli, Shekhovtsov, Rother, Kolmogorov, Torr, ICML 2008).
#![tactic(auto)]

pub mod laws;
mod telling;

pub use telling::add_strip;
