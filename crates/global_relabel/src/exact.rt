//! The exact labels of a state, found on one thread.
ghost use Rattle.std.specs.Prelude.{◌≡◌, IfOk, OnOk, OnErr, length};
ghost use Rattle.flow_network.specs.Cut.{nodes, set_of};
ghost use Rattle.block_events.specs.declared.event.Event.TheVariants.{RaiseAll};
ghost use Rattle.block_events.specs.Reach.{AreExact, IsReachOf};
ghost use Rattle.block_events.specs.Events.{IsQuiet, Happens};

use crate::workspace::Workspace;
use block_state::State;
use std::alloc::{AllocError, Global};

/// The exact label of each node: the least number of residual directions that lead from it to the
/// sink, within blocks and between them, and two more than there are nodes where none lead there
/// (Goldberg, Tarjan 1988, section 3). Messages may be on the way.
///
/// Refuses only where memory runs out.
pub fn distances(alloc: Global, state: &State) -> Result<Vec<u32>, AllocError>
    ensures { IfOk result (λ labels. AreExact state.now labels.items) }
{
    let mut workspace = Workspace::reserve(alloc, state.net())?;
    workspace.find(state);
    Ok(workspace.labels)
}

/// The nodes that reach the sink over residual directions, one bit for each node. Messages may be
/// on the way.
///
/// Refuses only where memory runs out.
pub fn sink_side(alloc: Global, state: &State) -> Result<Vec<bool>, AllocError>
    ensures len { IfOk result (λ side. length side.items ≡ nodes state.now.net) }
    ensures reach { IfOk result (λ side. IsReachOf state.now (set_of side.items)) }
{
    let labels = distances(alloc, state)?;
    sink_distances::sink_side(alloc, state.net().graph(), labels.as_slice())
}

/// Each label becomes the exact one, and each direction to another block knows that of its far end,
/// where no message is on the way: the event that raises all labels.
///
/// Refuses only where memory runs out, and then nothing is changed.
pub fn raise_all(alloc: Global, state: &mut State) -> Result<(), AllocError>
    requires { IsQuiet state.old }
    ensures done { OnOk result (Happens state.old RaiseAll state.new) }
    ensures refused { OnErr result (state.new ≡ state.old) }
{
    let mut workspace = Workspace::reserve(alloc, state.net())?;
    workspace.raise(state);
    Ok(())
}
