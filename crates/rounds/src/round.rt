//! One round of running workers over the blocks of a state.
ghost use Rattle.std.specs.Prelude.{◌≡◌, ◌<◌, IfErr, IfOk};
ghost use Rattle.block_events.specs.Events.{IsQuiet};
ghost use Rattle.net_in_blocks.specs.Views.{IsLaid};
ghost use Rattle.block_state.specs.AllWays.{IsHeld};
ghost use Rattle.block_split.specs.Split.{whole_of};
ghost use Rattle.block_state.specs.Pieces.{state_in};
ghost use Rattle.block_workers.specs.declared.crew.RoundError.TheVariants.{Workers};
ghost use Rattle.worker_options.specs.Ranges.{AreInRange};
ghost use Rattle.rounds.specs.Short.{HasFewOnTheWay, IsShortRound};

use crate::blocks::{Blanks, run_blocks};
use crate::round_state::put_together;
use block_rings::Stock;
use block_split::Parts;
use block_state::{Pieces, State};
use block_workers::{Job, Ledgers, RoundError};
use std::alloc::Global;
use std::marker::Brand;
use std::sync::Wait;
use std::sync::ledger::{Blank, Ledger};
use std::thread::Threads;
use worker_options::{Gate, Options};

/// A round of the blocks of these pieces, and what it leaves for the next. Each blank becomes one
/// of the ledgers of the turns.
fn round_of<J: Job + Sync, R: Threads + Wait + Sync, G: Gate>(
    rt: &R,
    alloc: Global,
    pieces: Pieces,
    options: &Options,
    gate: &G,
    blanks: Blanks,
    stock: Stock,
) -> Result<(State, Stock), RoundError>
    requires laid { IsLaid (whole_of pieces.net pieces.parts) }
    requires held { IsHeld pieces.ways.rooms (state_in pieces) }
    requires quiet { IsQuiet (state_in pieces) }
    requires options { AreInRange options.now }
    requires budget { (blanks.budget.name ≡ J.Budget.name)
        × (blanks.budget.parts ≡ J.Budget.parts) }
    requires parts { 0 < blanks.budget.parts }
    requires drawn { (blanks.drawn.name ≡ J.Drawn.name) × (blanks.drawn.parts ≡ J.Drawn.parts) }
    requires threads { blanks.drawn.parts ≡ options.now.threads }
    ensures round { IfOk result
        (λ after. IsShortRound options.now.turns (state_in pieces) after.0) }
    ensures left { IfOk result (λ after. HasFewOnTheWay options.now.ring after.0) }
    ensures asked { IfErr result (λ e. e ≡ Workers → 1 < options.now.threads) }
{
    let Pieces {
        net,
        parts,
        mut ways,
        got: _,
    } = pieces;
    let Parts {
        blocks,
        firsts,
        slots,
    } = parts;
    let came = run_blocks::<J, R, G>(rt, alloc, blocks, options, gate, blanks, stock)?;
    let pairs = came.rings.drain(&mut ways);
    let parts = Parts {
        blocks: came.blocks,
        firsts,
        slots,
    };
    let stock = Stock {
        pairs,
        piles: came.piles,
        deck: came.deck,
    };
    Ok((put_together(net, parts, ways), stock))
}

/// The same with a ledger for each of the two blanks.
fn round_with<B: Ledger + Send + Sync, D: Ledger + Send + Sync, R: Threads + Wait + Sync, G: Gate>(
    rt: &R,
    alloc: Global,
    pieces: Pieces,
    options: &Options,
    gate: &G,
    blanks: Blanks,
    stock: Stock,
) -> Result<(State, Stock), RoundError>
    requires laid { IsLaid (whole_of pieces.net pieces.parts) }
    requires held { IsHeld pieces.ways.rooms (state_in pieces) }
    requires quiet { IsQuiet (state_in pieces) }
    requires options { AreInRange options.now }
    requires budget { (blanks.budget.name ≡ B.name) × (blanks.budget.parts ≡ B.parts) }
    requires parts { 0 < blanks.budget.parts }
    requires drawn { (blanks.drawn.name ≡ D.name) × (blanks.drawn.parts ≡ D.parts) }
    requires threads { blanks.drawn.parts ≡ options.now.threads }
    ensures round { IfOk result
        (λ after. IsShortRound options.now.turns (state_in pieces) after.0) }
    ensures left { IfOk result (λ after. HasFewOnTheWay options.now.ring after.0) }
    ensures asked { IfErr result (λ e. e ≡ Workers → 1 < options.now.threads) }
{
    round_of::<Ledgers<B, D>, R, G>(rt, alloc, pieces, options, gate, blanks, stock)
}

/// A round from a state with no message on the way: each block is moved to one of the workers, does
/// turns there, and comes back, and what is left in the rings between blocks goes to the ways.
/// Whatever the schedule is, what each block did is a list of its own enabled events, and a block
/// that could do something without taking a message did something. All lists together have at most
/// (blocks + turns) * (m + 16) events, where no block has more than m nodes and `turns` is the
/// number of turns in the options, and no more than `ring` messages are left on the way from one
/// block to another. No clause says in how many threads the turns are done. `blocks` and `rounds`
/// of the options are not looked at: the state is in blocks already, and this is one round.
///
/// All growths come before the first worker starts. A worker is refused only where more than one
/// was asked for: one that is alone works in the calling thread. Where a round does not come about,
/// the state is lost.
pub fn run_round<R: Threads + Wait + Sync, G: Gate>(
    rt: &R,
    alloc: Global,
    state: State,
    options: &Options,
    gate: &G,
) -> Result<State, RoundError>
    requires quiet { IsQuiet state }
    requires options { AreInRange options.now }
    ensures round { IfOk result (λ new. IsShortRound options.now.turns state new) }
    ensures left { IfOk result (λ new. HasFewOnTheWay options.now.ring new) }
    ensures asked { IfErr result (λ e. e ≡ Workers → 1 < options.now.threads) }
{
    let (state, _stock) = run_by(rt, alloc, state, options, gate, Stock::none(alloc))?;
    Ok(state)
}

/// The same by what the round before left, and with what it leaves itself.
pub(crate) fn run_by<R: Threads + Wait + Sync, G: Gate>(
    rt: &R,
    alloc: Global,
    state: State,
    options: &Options,
    gate: &G,
    stock: Stock,
) -> Result<(State, Stock), RoundError>
    requires quiet { IsQuiet state }
    requires options { AreInRange options.now }
    ensures round { IfOk result (λ after. IsShortRound options.now.turns state after.0) }
    ensures left { IfOk result (λ after. HasFewOnTheWay options.now.ring after.0) }
    ensures asked { IfErr result (λ e. e ≡ Workers → 1 < options.now.threads) }
{
    let blanks = Blanks {
        budget: Blank::new(1),
        drawn: Blank::new(options.threads as u64),
    };
    let pieces = state.into_pieces();
    round_with::<Brand, Brand, R, G>(rt, alloc, pieces, options, gate, blanks, stock)
}
