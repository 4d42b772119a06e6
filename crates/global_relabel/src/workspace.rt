//! The lists of a search, kept from one search to the next.
ghost use Rattle.std.specs.Prelude.{IfOk};
ghost use Rattle.block_events.specs.declared.event.Event.TheVariants.{RaiseAll};
ghost use Rattle.block_events.specs.Reach.{AreExact};
ghost use Rattle.block_events.specs.Events.{IsQuiet, Happens};
ghost use Rattle.global_relabel.specs.NodeBlocks.{AreNodeBlocks};
ghost use Rattle.global_relabel.specs.Workspaces.{IsLabelOrder, Serves};

use crate::node_blocks::write_node_blocks;
use crate::search::write_exact;
use block_state::State;
use flow_network::Net;
use std::alloc::{AllocError, Global};

/// Lists that serve all states of one net, so that their exact labels are found again and again
/// without memory.
#[derive(Drop)]
pub struct Workspace {
    /// The exact label of each node in the last state that was looked at.
    pub labels: Vec<u32>,
    /// Room for the search: first the nodes that reach the sink in the last state, the nearest
    /// first.
    pub order: Vec<u32>,
    /// The block of each node in that state.
    pub node_blocks: Vec<u8>,
}

impl Workspace {
    /// Lists for the states of the net, 9 bytes a node. Refuses only where memory runs out.
    pub fn reserve(alloc: Global, net: &Net) -> Result<Workspace, AllocError>
        ensures { IfOk result (λ workspace. Serves net.now workspace) }
    {
        let nodes = net.nodes();
        Ok(Workspace {
            labels: vec![in alloc; 0; nodes]?,
            order: vec![in alloc; 0; nodes]?,
            node_blocks: vec![in alloc; 0; nodes]?,
        })
    }

    /// Finds the exact label of each node, the order of the nodes that reach the sink, and the
    /// block of each node. Messages may be on the way. Takes no memory.
    pub fn find(&mut self, state: &State)
        requires { Serves state.now.net self.old }
        ensures serves { Serves state.now.net self.new }
        ensures exact { AreExact state.now self.new.labels.items }
        ensures order { IsLabelOrder self.new.labels.items self.new.order.items }
        ensures node_blocks { AreNodeBlocks state.now.net state.now.blocks
            self.new.node_blocks.items }
    {
        self.order.as_mut_slice().fill(u32::MAX);
        write_node_blocks(state, self.node_blocks.as_mut_slice());
        write_exact(
            state,
            self.node_blocks.as_slice(),
            self.labels.as_mut_slice(),
            self.order.as_mut_slice(),
        );
    }

    /// Each label of the state becomes the exact one, and each direction to another block knows
    /// that of its far end: the event that raises all labels. The lists then hold what `find` finds
    /// in the state as it was. Takes no memory.
    pub fn raise(&mut self, state: &mut State)
        requires serves { Serves state.old.net self.old }
        requires quiet { IsQuiet state.old }
        ensures serves { Serves state.new.net self.new }
        ensures raised { Happens state.old RaiseAll state.new }
        ensures exact { AreExact state.old self.new.labels.items }
        ensures order { IsLabelOrder self.new.labels.items self.new.order.items }
        ensures node_blocks { AreNodeBlocks state.old.net state.old.blocks
            self.new.node_blocks.items }
    {
        self.find(state);
        state.raise_to(self.labels.as_slice());
    }
}
