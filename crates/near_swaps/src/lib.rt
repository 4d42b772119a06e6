//! Why a swap of two labels that is made once more (Boykov, Veksler, Zabih, PAMI 2001) needs to
//! look at few sites: those near the sites that changed since, cut from both sides. The laws, and
//! the code that finds what the sites near the changes get.
#![tactic(auto)]

pub mod laws;
mod looking;

pub use looking::find_near;
