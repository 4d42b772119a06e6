//! Tests of energies: what is put in, costs over few named variables and over many, which terms are
//! regular, and minima.
#![tactic(auto)]

#[cfg(test)]
mod energies;
#[cfg(test)]
mod minima;
#[cfg(test)]
mod regularity;
#[cfg(test)]
mod rows;
#[cfg(test)]
mod small_answers;
#[cfg(test)]
mod small_tables;
#[cfg(test)]
mod tied;
#[cfg(test)]
mod wide;
