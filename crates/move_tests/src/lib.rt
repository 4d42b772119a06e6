//! Tests of moves between labellings, as tables: by hand, and small random ones and runs with what
//! scripts answer that try every labelling, without label costs and with them, and the bounds of
//! runs; how many sites deciding leaves open on a picture, and how many the cuts of a run have
//! whose later expansions or swaps look near the changes; listed moves of which few sites, none or
//! all are left open; moves over pairs with costs of their own; moves that are closed in by parts;
//! runs that are made step by step, and may be left after each; and tables of costs that threads
//! fill.
#![tactic(auto)]

#[cfg(test)]
mod cases;
#[cfg(test)]
mod chains;
#[cfg(test)]
mod costed;
#[cfg(test)]
mod costs;
#[cfg(test)]
mod few_open;
#[cfg(test)]
mod filling;
#[cfg(test)]
mod later;
#[cfg(test)]
mod listed;
#[cfg(test)]
mod opened;
#[cfg(test)]
mod own;
#[cfg(test)]
mod own_costs;
#[cfg(test)]
mod parts;
#[cfg(test)]
mod random;
#[cfg(test)]
mod rows;
#[cfg(test)]
mod stepped;
#[cfg(test)]
mod stepped_runs;
#[cfg(test)]
mod steps;
#[cfg(test)]
mod swaps;
#[cfg(test)]
mod worked;
