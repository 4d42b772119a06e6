//! The least cut of a net in blocks, on one thread.
ghost use Rattle.std.specs.Prelude.{◌≡◌, ◌<◌, ◌≤◌, IfOk, length};
ghost use Rattle.flow_network.specs.Limits.{capacity_limit};
ghost use Rattle.flow_network.specs.Cut.{nodes, set_of, IsSmallestLeastCut};
ghost use Rattle.flow_network.specs.Answer.{side_of, IsRightCut};
ghost use Rattle.block_events.specs.Reach.{AreExact};
ghost use Rattle.block_events.specs.Events.{IsQuiet};
ghost use Rattle.block_events.specs.Soundness.{IsSound, IsFinished, potential};

use crate::messages::take_in;
use crate::opening::open_if_new;
use crate::passes::work;
use crate::solution::{answer_of, least_side};
use block_net::ARC_LIMIT;
use block_state::State;
use flow_network::{Net, Solved};
use global_relabel::{Workspace, is_at_rest};
use std::alloc::{AllocError, Global};

/// The labels of a state that is not finished become the exact ones that are at hand, and excess
/// goes on.
fn advance(alloc: Global, state: State, workspace: &Workspace) -> Result<State, AllocError>
    requires sound { IsSound state }
    requires quiet { IsQuiet state }
    requires exact { AreExact state workspace.now.labels.items }
    requires unfinished { ¬ IsFinished state }
    ensures net { IfOk result (λ s. s.net ≡ state.net) }
    ensures less { IfOk result (λ s. potential s < potential state) }
{
    let mut state = state;
    state.raise_to(workspace.labels.as_slice());
    let node_blocks = workspace.node_blocks.as_slice();
    let next = work(alloc, state, node_blocks, workspace.order.as_slice())?;
    Ok(next)
}

/// The least cut that a state of a net comes to, with the preflow that certifies it: of all least
/// cuts the smallest, whatever the blocks did before. Messages may be on the way, and labels need
/// not be exact.
///
/// Where all labels are 0, excess first goes on within the blocks without regard to labels. Then it
/// works in rounds: each takes in what is on the way and finds the exact labels. Where by them no
/// node with excess reaches the sink, they tell the sink side as well; else they become the labels,
/// and the blocks have turns: of the nodes nearest to the sink that have twice what it can still
/// take, excess goes once down the order of the search for these labels, the farthest first, where
/// at least one in 16 of them has some, and then the nodes with excess are discharged one after
/// another (Goldberg, Tarjan 1988, sections 2 to 4). Refuses only where memory runs out, and drops
/// the state.
pub fn finish(alloc: Global, state: State) -> Result<Solved, AllocError>
    ensures certified { IfOk result (λ s. IsRightCut state.net s) }
    ensures smallest { IfOk result (λ s. IsSmallestLeastCut state.net (side_of s)) }
    ensures bound { IfOk result (λ s. s.value ≤ capacity_limit) }
{
    let mut state = open_if_new(state);
    let mut workspace = Workspace::reserve(alloc, state.net())?;
    'rounds: loop {
        take_in(&mut state);
        workspace.find(&state);
        if is_at_rest(&state, workspace.labels.as_slice()) {
            return answer_of(alloc, &state, workspace);
        }
        state = advance(alloc, state, &workspace)?;
    }
}

/// The sink side of the smallest least cut that a state of a net comes to, one bit for each node:
/// that which `finish` answers, found in the same way and refused for the same reasons. Makes no
/// list of what arcs carry.
pub fn finish_side(alloc: Global, state: State) -> Result<Vec<bool>, AllocError>
    ensures bits { IfOk result (λ side. length side.items ≡ nodes state.net) }
    ensures smallest { IfOk result (λ side. IsSmallestLeastCut state.net (set_of side.items)) }
{
    let mut state = open_if_new(state);
    let mut workspace = Workspace::reserve(alloc, state.net())?;
    'rounds: loop {
        take_in(&mut state);
        workspace.find(&state);
        if is_at_rest(&state, workspace.labels.as_slice()) {
            return least_side(alloc, &state, &workspace);
        }
        state = advance(alloc, state, &workspace)?;
    }
}

/// A least cut of the net, with the preflow that certifies it. Of all least cuts it is the
/// smallest: its sink side lies within that of every other. Its capacity, `value`, is at most
/// `CAPACITY_LIMIT`.
///
/// The net is opened in one block, and `finish` does the rest. Takes every net, also of no nodes,
/// with parallel and opposite arcs, and with arcs from a node to itself. Refuses only where memory
/// runs out; a net of more than `ARC_LIMIT` arcs counts as that.
pub fn solve(alloc: Global, net: &Net) -> Result<Solved, AllocError>
    ensures certified { IfOk result (λ s. IsRightCut net.now s) }
    ensures smallest { IfOk result (λ s. IsSmallestLeastCut net.now (side_of s)) }
    ensures bound { IfOk result (λ s. s.value ≤ capacity_limit) }
{
    if net.arcs().len() > ARC_LIMIT {
        return Err(AllocError);
    }
    finish(alloc, State::open(alloc, net, 1)?)
}
