//! The search for exact labels before each round: by blocks, or on one thread.
ghost use Rattle.std.specs.Prelude.{◌≡◌, ◌<◌, IfOk};
ghost use Rattle.block_events.specs.Reach.{AreExact};
ghost use Rattle.global_relabel.specs.Workspaces.{Serves};

use crate::by_blocks::{Crew, Share, reserve_shares, search_by_blocks};
use block_state::State;
use global_relabel::Workspace;
use std::alloc::{AllocError, Global};
use std::thread::Threads;

/// The fewest nodes of a net whose exact labels several threads search: in smaller nets one thread
/// has found them before others have started.
const SHARED_NODES: usize = 1 << 16;

/// What finds the exact labels of a net's states: lists for one thread, and in a large net lists
/// for each block, by which several threads find them side by side.
#[derive(Drop)]
pub struct LabelSearch {
    /// The lists for one thread, which hold the labels that were found last.
    pub workspace: Workspace,
    shares: Vec<Share>,
}

impl LabelSearch {
    /// Lists for the states of the state's net: 9 bytes a node, and where several threads are to
    /// search 8 more and 8 for each direction between blocks. Refuses only where memory runs out.
    pub fn reserve(alloc: Global, state: &State, threads: usize) -> Result<LabelSearch, AllocError>
        ensures { IfOk result (λ search. Serves state.now.net search.workspace) }
    {
        let workspace = Workspace::reserve(alloc, state.net())?;
        let parts = state.parts();
        let is_shared = threads > 1 && parts.blocks.len() > 1 && state.nodes() >= SHARED_NODES;
        let shares = if is_shared {
            reserve_shares(alloc, parts)?
        } else {
            Vec::new(alloc)
        };
        Ok(LabelSearch { workspace, shares })
    }

    /// Finds the exact label of each node. Messages may be on the way. Takes no memory.
    pub fn find<R: Threads + Sync>(&mut self, rt: &R, state: &State, threads: usize)
        requires threads { 0 < threads }
        requires serves { Serves state.now.net self.old.workspace }
        ensures serves { Serves state.now.net self.new.workspace }
        ensures exact { AreExact state.now self.new.workspace.labels.items }
    {
        let labels = self.workspace.labels.as_mut_slice();
        let shares = self.shares.as_mut_slice();
        let crew = Crew { rt, threads };
        if !shares.is_empty() && search_by_blocks(&crew, state, shares, labels) {
            return;
        }
        self.workspace.find(state);
    }

    /// The lists for one thread. The others are let go.
    pub fn into_workspace(self) -> Workspace
        ensures { result ≡ self.workspace }
    {
        let LabelSearch { workspace, shares } = self;
        drop(shares);
        workspace
    }
}
