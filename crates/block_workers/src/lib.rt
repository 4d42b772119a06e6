//! Workers over blocks: each block is moved to a worker, does turns there, and comes back.
//!
//! Two blocks that share a border have two rings, one each way, and each block has a port to the
//! other: the ring that it puts into, and the ring that it takes from. What one port put is, in
//! order, what the other took, followed by what is left in the ring. A block's ports are its
//! `Ends`, and go with it from thread to thread.
//!
//! A worker takes turns of its blocks without a lock round any of them. Each turn is a list of the
//! block's own enabled events, and what it puts and takes is what its ports have put and taken.
//!
//! The turns are drawn from a book (`TurnBook`), which the workers share under one lock: how many
//! are left to draw, and which blocks are still busy. Two ledgers go with a book, so that what was
//! drawn under the lock is known outside it: a share of the one tells how many turns the book began
//! with, and the shares of the other, one with each worker, how many were drawn.
#![tactic(auto)]

mod book;
mod crew;
mod ends;
mod job;
mod join;
mod port;
mod ring_end;
mod rule;
mod seat;
mod turn_ends;
mod worker;

pub use book::TurnBook;
pub use crew::{RoundError, all_work};
pub use ends::Ends;
pub use job::{Job, Ledgers};
pub use join::{join_again, join_blocks, see_left, take_left};
pub use port::Port;
pub use rule::Fair;
pub use seat::Seat;
pub use worker::Worker;
