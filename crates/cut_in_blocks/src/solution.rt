//! The answer of a finished state: its sink side, and the preflow that certifies it.
ghost use Rattle.std.specs.Prelude.{◌≡◌, ◌≤◌, IfOk, length};
ghost use Rattle.flow_network.specs.Limits.{capacity_limit};
ghost use Rattle.flow_network.specs.Cut.{nodes, set_of, IsSmallestLeastCut};
ghost use Rattle.flow_network.specs.Answer.{side_of, IsRightCut};
ghost use Rattle.block_events.specs.Soundness.{IsFinished};
ghost use Rattle.block_events.specs.Reach.{AreExact};

use crate::flow::flow_of;
use block_state::State;
use flow_network::Solved;
use global_relabel::Workspace;
use sink_distances::sink_side;
use std::alloc::{AllocError, Global};

/// The answer of a finished state whose exact labels are at hand: the nodes that reach the sink,
/// and the flow that the state shows. Refuses only where memory runs out.
pub fn answer_of(alloc: Global, state: &State, workspace: Workspace) -> Result<Solved, AllocError>
    requires exact { AreExact state.now workspace.labels.items }
    requires finished { IsFinished state.now }
    ensures certified { IfOk result (λ s. IsRightCut state.now.net s) }
    ensures smallest { IfOk result (λ s. IsSmallestLeastCut state.now.net (side_of s)) }
    ensures bound { IfOk result (λ s. s.value ≤ capacity_limit) }
{
    let side = sink_side(alloc, state.net().graph(), workspace.labels.as_slice())?;
    drop(workspace);
    let flow = flow_of(alloc, state)?;
    Ok(Solved {
        arc_flow: flow.0,
        sink_flow: flow.1,
        sink_side: side,
        value: state.got(),
    })
}

/// The nodes of a finished state that reach the sink, by its exact labels that are at hand, one bit
/// for each node. Refuses only where memory runs out.
pub fn least_side(
    alloc: Global,
    state: &State,
    workspace: &Workspace,
) -> Result<Vec<bool>, AllocError>
    requires exact { AreExact state.now workspace.now.labels.items }
    requires finished { IsFinished state.now }
    ensures bits { IfOk result (λ side. length side.items ≡ nodes state.now.net) }
    ensures smallest { IfOk result (λ side. IsSmallestLeastCut state.now.net (set_of side.items)) }
{
    let side = sink_side(alloc, state.net().graph(), workspace.labels.as_slice())?;
    Ok(side)
}
