//! Tests of what workers do: a ring between two threads, and rounds of running workers: that their
//! turns overlap, that a round goes on while work and turns are left, which block has a turn when,
//! and that after rounds of any options the solver over blocks finds the one answer. The same of
//! the solver that makes the rounds itself, and how many it makes. And that a second thread is
//! started where several are to share the work.
#![tactic(auto)]

#[cfg(test)]
mod alike;
#[cfg(test)]
mod building;
#[cfg(test)]
mod calls;
#[cfg(test)]
mod counting;
#[cfg(test)]
mod gates;
#[cfg(test)]
mod labels;
#[cfg(test)]
mod overlap;
#[cfg(test)]
mod picture;
#[cfg(test)]
mod rings;
#[cfg(test)]
mod rows;
#[cfg(test)]
mod second_threads;
#[cfg(test)]
mod solving;
#[cfg(test)]
mod turns;
#[cfg(test)]
mod worked;
