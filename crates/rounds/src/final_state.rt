//! What the rounds end with, and the cut that it comes to.
ghost use Rattle.std.specs.Prelude.{◌≡◌, ◌≤◌, IfOk, length};
ghost use Rattle.flow_network.specs.Limits.{capacity_limit};
ghost use Rattle.flow_network.specs.Cut.{nodes, set_of, IsSmallestLeastCut};
ghost use Rattle.flow_network.specs.Answer.{side_of, IsRightCut};

use block_state::State;
use cut_in_blocks::{answer_of, finish, finish_side, least_side};
use flow_network::Solved;
use global_relabel::Workspace;
use std::alloc::{AllocError, Global};

/// A state after its rounds, and lists for its net: where it is known to be finished, they hold its
/// exact labels.
#[derive(Drop)]
pub(crate) struct FinalState {
    pub(crate) state: State,
    pub(crate) workspace: Workspace,
    pub(crate) is_finished: bool,
}

impl FinalState {
    ghost use Rattle.rounds.specs.FinalState.{IsFinalState};

    /// The least cut that the state comes to, on one thread. The only error is that memory runs
    /// out.
    pub(crate) fn into_solved(self, alloc: Global) -> Result<Solved, AllocError>
        requires { IsFinalState self }
        ensures certified { IfOk result (λ s. IsRightCut self.state.net s) }
        ensures smallest { IfOk result (λ s. IsSmallestLeastCut self.state.net (side_of s)) }
        ensures bound { IfOk result (λ s. s.value ≤ capacity_limit) }
    {
        let FinalState {
            state,
            workspace,
            is_finished,
        } = self;
        if is_finished {
            return answer_of(alloc, &state, workspace);
        }
        drop(workspace);
        finish(alloc, state)
    }

    /// Its sink side alone. The only error is that memory runs out.
    pub(crate) fn side(self, alloc: Global) -> Result<Vec<bool>, AllocError>
        requires { IsFinalState self }
        ensures bits { IfOk result (λ side. length side.items ≡ nodes self.state.net) }
        ensures smallest { IfOk result
            (λ side. IsSmallestLeastCut self.state.net (set_of side.items)) }
    {
        let FinalState {
            state,
            workspace,
            is_finished,
        } = self;
        if is_finished {
            return least_side(alloc, &state, &workspace);
        }
        drop(workspace);
        finish_side(alloc, state)
    }
}
