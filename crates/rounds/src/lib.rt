//! Rounds of running workers over a net in blocks, and the least cut of a net that is found by
//! them.
//!
//! `run_round` moves the blocks of a state to running workers and takes them back: rings lead
//! between blocks (`join_all`), the blocks are dealt to workers one after another, as cards, and
//! collected again in their order, and what is left in the rings goes to the core's ways.
//!
//! `solve_parallel` opens a net in blocks and makes such rounds, with exact labels before each,
//! which in a large net the blocks find side by side (`distances_by_blocks`). What the rounds leave
//! goes on to the end on one thread (`cut_in_blocks`), so that the answer rests on no round.
//! `Workers` cuts the nets of moves and of yes-no energies by it.
#![tactic(auto)]

mod blocks;
mod collection;
mod final_state;
mod gates;
mod hands;
pub mod laws;
mod parallel_error;
mod round;
mod round_space;
mod round_state;
mod round_work;
mod seat_work;
mod seats;
mod solver;
mod turned;
mod workers;

pub use block_rings::join_all;
pub use block_workers::{Job, Ledgers, RoundError, TurnBook};
pub use distance_search::distances_by_blocks;
pub use gates::{Lent, Open};
pub use parallel_error::ParallelError;
pub use part_threads::ByThreads;
pub use round::run_round;
pub use solver::{side_parallel, solve_parallel};
pub use worker_options::{BadOptions, Gate, Options};
pub use workers::Workers;
