//! Tests of whole runs of `gco`, in memory: answers worked by hand, known from an independent
//! program or found over all labellings, inputs and words that are refused, writers and readers
//! that fail at each byte; and problem files of labels, by hand: what is read, and the first fault
//! of others.
#![tactic(auto)]

#[cfg(test)]
mod energies;
#[cfg(test)]
mod faults;
#[cfg(test)]
mod gates;
#[cfg(test)]
mod images;
#[cfg(test)]
mod label_files;
#[cfg(test)]
mod labels;
#[cfg(test)]
mod many_words;
#[cfg(test)]
mod refused_files;
#[cfg(test)]
mod rows;
#[cfg(test)]
mod streams;
#[cfg(test)]
mod words;
