//! Tests of images, labellings and pairs, and of the image commands, as tables: inputs and answers
//! by hand, pictures whose answers a script finds that tries every labelling
//! (`tools/tables/pictures_by_definition.py`), inputs that are refused, writers that stop; moves
//! and pictures by workers, moves that threads close in by parts, how workers share a net, and cuts
//! that are refused.
#![tactic(auto)]

#[cfg(test)]
mod bounds;
#[cfg(test)]
mod by_workers;
#[cfg(test)]
mod gates;
#[cfg(test)]
mod grids;
#[cfg(test)]
mod labels;
#[cfg(test)]
mod neighbours;
#[cfg(test)]
mod parts;
#[cfg(test)]
mod pictures;
#[cfg(test)]
mod random;
#[cfg(test)]
mod reading;
#[cfg(test)]
mod refusals;
#[cfg(test)]
mod refusing;
#[cfg(test)]
mod rows;
#[cfg(test)]
mod sharing;
#[cfg(test)]
mod streams;
#[cfg(test)]
mod tasks;
#[cfg(test)]
mod writers;
#[cfg(test)]
mod writing;
