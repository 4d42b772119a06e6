//! The least cut of a net, found by rounds of workers.
ghost use Rattle.std.specs.Prelude.{◌≡◌, ◌<◌, ◌≤◌, IfErr, IfOk, OnOk, length};
ghost use Rattle.flow_network.specs.Limits.{capacity_limit};
ghost use Rattle.flow_network.specs.Cut.{nodes, set_of, IsSmallestLeastCut};
ghost use Rattle.flow_network.specs.Answer.{side_of, IsRightCut};
ghost use Rattle.block_events.specs.Events.{IsQuiet};
ghost use Rattle.block_net.specs.Limits.{arc_limit};
ghost use Rattle.worker_options.specs.Ranges.{AreInRange};
ghost use Rattle.rounds.specs.FinalState.{IsFinalState};
ghost use Rattle.rounds.specs.Refusals.{IsParallelRefusal};

use crate::ParallelError;
use crate::final_state::FinalState;
use crate::round::run_by;
use block_net::ARC_LIMIT;
use block_rings::Stock;
use block_state::State;
use cut_in_blocks::{push_first, take_in};
use distance_search::LabelSearch;
use flow_network::{Net, Solved};
use global_relabel::is_at_rest;
use std::alloc::Global;
use std::sync::Wait;
use std::thread::Threads;
use worker_options::{Gate, Options};

/// From so many nodes on, excess goes on within the blocks before the first round. In smaller nets
/// the rounds do all of it: there it takes less time than the workers' start.
const PUSHED_NODES: usize = 16_384;

/// Accepts options whose numbers are in their ranges, and a net of not too many arcs for blocks,
/// which counts as memory that runs out.
fn check(net: &Net, options: &Options) -> Result<(), ParallelError>
    ensures accepted { OnOk result (AreInRange options.now) }
    ensures arcs { OnOk result (length net.now.arcs ≤ arc_limit) }
    ensures refused { IfErr result (IsParallelRefusal net.now options.now) }
{
    match options.check() {
        Ok(()) => {}
        Err(_) => return Err(ParallelError::BadOptions),
    }
    if net.arcs().len() > ARC_LIMIT {
        return Err(ParallelError::OutOfMemory);
    }
    Ok(())
}

/// The state after first pushes within its blocks, where it has many nodes: side by side, in at
/// most so many threads. Takes no memory.
fn push_all<R: Threads + Sync>(rt: &R, state: State, threads: usize) -> State
    requires threads { 0 < threads }
    requires quiet { IsQuiet state }
    ensures net { result.net ≡ state.net }
    ensures quiet { IsQuiet result }
{
    if state.nodes() < PUSHED_NODES {
        return state;
    }
    push_first(rt, state, threads)
}

/// The state after at most so many rounds as the options tell. Each begins with exact labels, and
/// is made where by them a node with excess reaches the sink; what it leaves on the way is taken
/// in. Where a round does not come about, the state is lost.
fn rounds<R: Threads + Wait + Sync, G: Gate>(
    rt: &R,
    alloc: Global,
    state: State,
    options: &Options,
    gate: &G,
) -> Result<FinalState, ParallelError>
    requires quiet { IsQuiet state }
    requires options { AreInRange options.now }
    requires arcs { length state.net.arcs ≤ arc_limit }
    ensures net { IfOk result (λ ended. ended.state.net ≡ state.net) }
    ensures ended { IfOk result IsFinalState }
    ensures refused { IfErr result (IsParallelRefusal state.net options.now) }
{
    let threads = options.threads as usize;
    let mut state = push_all(rt, state, threads);
    let mut search = LabelSearch::reserve(alloc, &state, threads)?;
    let mut stock = Stock::none(alloc);
    'rounds: for _round in 0..options.rounds {
        search.find(rt, &state, threads);
        if is_at_rest(&state, search.workspace.labels.as_slice()) {
            return Ok(FinalState {
                state,
                workspace: search.into_workspace(),
                is_finished: true,
            });
        }
        state.raise_to(search.workspace.labels.as_slice());
        let (next, left) = run_by(rt, alloc, state, options, gate, stock)?;
        state = next;
        stock = left;
        take_in(&mut state);
    }
    Ok(FinalState {
        state,
        workspace: search.into_workspace(),
        is_finished: false,
    })
}

/// A least cut of the net, with the preflow that certifies it, found by workers that run side by
/// side over its blocks. Of all least cuts it is the smallest: its sink side lies within that of
/// every other. Its capacity, `value`, is at most `CAPACITY_LIMIT`.
///
/// The net is opened in `blocks` blocks, which may be more than it has nodes, and in a large net
/// excess goes on within each as far as it can. Then come at most `rounds` rounds. Each begins with
/// exact labels (Goldberg, Tarjan 1988, sections 2 to 4), is made where by them a node with excess
/// reaches the sink, and waits until all its workers have ended; what they left on the way is then
/// taken in. After the rounds `finish` goes on to the end on one thread, whatever they came to. So
/// the cut and its value are the same for all options, whatever the schedule is and whatever the
/// gate answers; which arc carries what may differ.
///
/// Takes every net, also of no nodes, with parallel and opposite arcs, and with arcs from a node to
/// itself. Refuses with `BadOptions` exactly where a number of the options is out of its range.
/// Else it refuses only where memory runs out, as which a net of more than `ARC_LIMIT` arcs counts,
/// and where the system does not start a worker of a round.
pub fn solve_parallel<R: Threads + Wait + Sync, G: Gate>(
    rt: &R,
    alloc: Global,
    net: &Net,
    options: &Options,
    gate: &G,
) -> Result<Solved, ParallelError>
    ensures certified { IfOk result (λ s. IsRightCut net.now s) }
    ensures smallest { IfOk result (λ s. IsSmallestLeastCut net.now (side_of s)) }
    ensures bound { IfOk result (λ s. s.value ≤ capacity_limit) }
    ensures accepted { OnOk result (AreInRange options.now) }
    ensures refused { IfErr result (IsParallelRefusal net.now options.now) }
{
    check(net, options)?;
    let (blocks, threads) = (options.blocks as usize, options.threads as usize);
    let state = State::open_by(rt, alloc, net, blocks, threads)?;
    let ended = rounds(rt, alloc, state, options, gate)?;
    Ok(ended.into_solved(alloc)?)
}

/// The sink side of the smallest least cut of the net, one bit for each node: that which
/// `solve_parallel` answers, found in the same way and refused for the same reasons. It takes the
/// net over, so that no second one is made, and makes no list of what arcs carry.
pub fn side_parallel<R: Threads + Wait + Sync, G: Gate>(
    rt: &R,
    alloc: Global,
    net: Net,
    options: &Options,
    gate: &G,
) -> Result<Vec<bool>, ParallelError>
    ensures bits { IfOk result (λ side. length side.items ≡ nodes net) }
    ensures smallest { IfOk result (λ side. IsSmallestLeastCut net (set_of side.items)) }
    ensures accepted { OnOk result (AreInRange options.now) }
    ensures refused { IfErr result (IsParallelRefusal net options.now) }
{
    check(&net, options)?;
    let (blocks, threads) = (options.blocks as usize, options.threads as usize);
    let state = State::of_net_by(rt, alloc, net, blocks, threads)?;
    let ended = rounds(rt, alloc, state, options, gate)?;
    Ok(ended.side(alloc)?)
}
