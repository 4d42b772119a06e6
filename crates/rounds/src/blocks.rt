//! The blocks of a round: joined by rings, moved to workers, and taken back.
ghost use Rattle.std.specs.Prelude.{◌≡◌, ◌<◌, ◌≤◌, ℕ, IfErr, IfOk, OnOk, vec_len};
ghost use Rattle.block_net.specs.Limits.{block_limit};
ghost use Rattle.block_workers.specs.declared.crew.RoundError.TheVariants.{Workers};
ghost use Rattle.worker_options.specs.Ranges.{AreInRange};
ghost use Rattle.block_rings.specs.Joined.{AreJoined};
ghost use Rattle.block_rings.specs.Links.{ring_room};
ghost use Rattle.rounds.specs.Seated.{AreSeated, AreBlocksSmall, ends_of_seats, ports_of};
ghost use Rattle.rounds.specs.Together.{HaveRun};

use crate::round_space::{Came, Space, gather_seats};
use crate::round_work::{Shares, work_on};
use crate::seats::seats_of;
use block_net::Cells;
use block_rings::{Stock, join_by};
use block_workers::{Job, RoundError, TurnBook};
use std::alloc::{AllocError, Global};
use std::sync::Wait;
use std::sync::ledger::Blank;
use std::thread::Threads;
use worker_options::{Gate, Options};

/// What the two ledgers of a round's turns are made of.
#[derive(Drop)]
pub(crate) struct Blanks {
    pub(crate) budget: Blank,
    pub(crate) drawn: Blank,
}

/// The blocks before their first turn, with rings between them, as the seats of a stock. Its lists
/// and rings serve. The only error is that memory runs out.
fn seats_for(
    alloc: Global,
    stock: &mut Stock,
    blocks: Vec<Cells>,
    ring: usize,
) -> Result<(), AllocError>
    requires few { vec_len blocks ≤ block_limit }
    requires small { AreBlocksSmall blocks.items }
    ensures seated { OnOk result (AreSeated blocks.items
        (ends_of_seats stock.new.deck.seats.items) stock.new.deck.seats.items) }
    ensures joined { OnOk result
        (AreJoined ring blocks.items (ports_of (ends_of_seats stock.new.deck.seats.items))) }
{
    let ends = join_by(alloc, stock, blocks.as_slice(), ring)?;
    let (others, seats) = (&mut stock.piles.others, &mut stock.deck.seats);
    seats_of(alloc, others, seats, blocks, ends)
}

/// The blocks are moved to workers, which do their turns, and come back. All growths come before
/// the first worker starts. Each blank becomes one of the ledgers of the turns. The lists and
/// rings of the stock serve.
pub(crate) fn run_blocks<J: Job + Sync, R: Threads + Wait + Sync, G: Gate>(
    rt: &R,
    alloc: Global,
    blocks: Vec<Cells>,
    options: &Options,
    gate: &G,
    blanks: Blanks,
    stock: Stock,
) -> Result<Came, RoundError>
    requires some { 0 < vec_len blocks }
    requires few { vec_len blocks ≤ block_limit }
    requires small { AreBlocksSmall blocks.items }
    requires options { AreInRange options.now }
    requires budget { (blanks.budget.name ≡ J.Budget.name)
        × (blanks.budget.parts ≡ J.Budget.parts) }
    requires parts { 0 < blanks.budget.parts }
    requires drawn { (blanks.drawn.name ≡ J.Drawn.name) × (blanks.drawn.parts ≡ J.Drawn.parts) }
    requires threads { blanks.drawn.parts ≡ options.now.threads }
    ensures run { IfOk result
        (λ came. HaveRun options.now.turns blocks.items came.blocks.items came.rings) }
    ensures room { IfOk result (λ came. (b c : ℕ) → ring_room came.rings b c ≤ options.now.ring) }
    ensures asked { IfErr result (λ e. e ≡ Workers → 1 < options.now.threads) }
{
    let Blanks { budget, drawn } = blanks;
    let mut stock = stock;
    let count = blocks.len();
    seats_for(alloc, &mut stock, blocks, options.ring as usize)?;
    let Stock { pairs, piles, deck } = stock;
    let space = Space::new(alloc, count, pairs, piles)?;
    let (book, whole, share) = TurnBook::<J>::new(
        alloc,
        budget,
        drawn,
        options.turns,
        count as u32,
    )?;
    let back = work_on(
        rt,
        alloc,
        deck,
        options.threads as usize,
        book,
        Shares {
            whole,
            drawn: share,
        },
        gate,
    )?;
    Ok(gather_seats(back, space))
}
