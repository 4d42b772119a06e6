//! Tests of networks, their cuts and the solvers on one thread: lists, groups, distances and cuts
//! worked out by hand, or by a script that tries every cut. And of nets in blocks: nodes in the
//! buckets of their labels; the parts of small nets, worked by hand; the calls of one block; runs
//! in any order, whose end the plain solver knows; and the solver over blocks from the middle of
//! such runs. `worked` has two runs over two blocks in the words of the contracts.
#![tactic(auto)]

#[cfg(test)]
mod buckets;
#[cfg(test)]
mod building;
#[cfg(test)]
mod certificates;
#[cfg(test)]
mod distances;
#[cfg(test)]
mod ends;
#[cfg(test)]
mod events;
#[cfg(test)]
mod groups;
#[cfg(test)]
mod nets;
#[cfg(test)]
mod orders;
#[cfg(test)]
mod raised;
#[cfg(test)]
mod rows;
#[cfg(test)]
mod small_nets;
#[cfg(test)]
mod solutions;
#[cfg(test)]
mod split;
pub mod worked;
