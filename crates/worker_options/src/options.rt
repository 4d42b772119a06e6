//! How workers share a net, in numbers.
ghost use Rattle.std.specs.Prelude.{◌↔◌, IsOk, IsTrue};
ghost use Rattle.worker_options.specs.Ranges.{AreInRange};

use crate::{RING_LIMIT, ROUND_LIMIT, THREAD_LIMIT, TURN_LIMIT};
use block_net::BLOCK_LIMIT;
use thiserror::Error;

/// An option of the workers is out of its range.
#[derive(Clone, Copy, PartialEq, Eq, Debug, Error)]
#[error("an option of the workers is out of range")]
pub struct BadOptions;

/// How workers share a net in blocks.
#[derive(Clone, Copy, Debug, PartialEq, Eq)]
pub struct Options {
    /// How many threads work side by side, from 1 to `THREAD_LIMIT`.
    pub threads: u32,
    /// In how many blocks the net is split, from 1 to `BLOCK_LIMIT`.
    pub blocks: u32,
    /// How many messages can be on the way from one block to another, from 1 to `RING_LIMIT`.
    pub ring: u32,
    /// How many turns are drawn in a round at most, beside the first of each block, from 0 to
    /// `TURN_LIMIT`.
    pub turns: u32,
    /// How many rounds there are at most, from 0 to `ROUND_LIMIT`.
    pub rounds: u32,
}

impl Options {
    /// Accepts the options where each number is in its range, and refuses them where one is not.
    /// Takes no memory.
    pub fn check(&self) -> Result<(), BadOptions>
        ensures { IsOk result ↔ AreInRange self.now }
    {
        if self.fits() { Ok(()) } else { Err(BadOptions) }
    }

    fn fits(&self) -> bool
        ensures { IsTrue result ↔ AreInRange self.now }
    {
        1 <= self.threads
            && self.threads <= THREAD_LIMIT
            && 1 <= self.blocks
            && self.blocks as usize <= BLOCK_LIMIT
            && 1 <= self.ring
            && self.ring <= RING_LIMIT
            && self.turns <= TURN_LIMIT
            && self.rounds <= ROUND_LIMIT
    }
}
