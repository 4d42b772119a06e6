//! Ways to cut a net, and the way on the thread of the caller.
ghost use Rattle.std.specs.Prelude.{◌≡◌, ◌≤◌, IfOk, IfErr, length};
ghost use Rattle.flow_network.specs.Answer.{side_of, IsRightCut};
ghost use Rattle.flow_network.specs.Cut.{nodes, set_of, IsSmallestLeastCut};
ghost use Rattle.flow_network.specs.Limits.{capacity_limit};
ghost use Rattle.cut_ways.specs.declared.solve_error.SolveError.{SolveError};
ghost use Rattle.cut_ways.specs.declared.solve_error.SolveError.TheVariants.{OutOfMemory};

use crate::SolveError;
use flow_network::{Net, Solved};
use plain_cut::Workspace;
use std::alloc::Global;

/// A way to cut a net: `ready` is what it asks of its caller, and `refuses` says which refusals may
/// come.
pub trait How {
    ghost ready: { Self → Type 0 };

    ghost refuses: { Self → SolveError → Type 0 };

    /// A least cut of the net, with the preflow that certifies it. Of all least cuts it is the
    /// smallest: its sink side lies within that of every other. Its capacity, `value`, is at most
    /// `CAPACITY_LIMIT`.
    fn solve(&self, alloc: Global, net: &Net) -> Result<Solved, SolveError>
        requires { ready self.now }
        ensures certified { IfOk result (λ s. IsRightCut net.now s) }
        ensures smallest { IfOk result (λ s. IsSmallestLeastCut net.now (side_of s)) }
        ensures bound { IfOk result (λ s. s.value ≤ capacity_limit) }
        ensures refused { IfErr result (refuses self.now) };

    /// The sink side of the cut that `solve` answers, one bit for each node. It takes the net over,
    /// so that its memory can serve the solver.
    fn side(&self, alloc: Global, net: Net) -> Result<Vec<bool>, SolveError>
        requires { ready self.now }
        ensures bits { IfOk result (λ side. length side.items ≡ nodes net) }
        ensures smallest { IfOk result (λ side. IsSmallestLeastCut net (set_of side.items)) }
        ensures refused { IfErr result (refuses self.now) }
    {
        match self.solve(alloc, &net) {
            Ok(solved) => Ok(solved.sink_side),
            Err(error) => Err(error),
        }
    }

    /// What `side` does, in a workspace that is kept from one net to the next. What the workspace
    /// holds changes no answer.
    fn side_in(
        &self,
        alloc: Global,
        net: Net,
        _space: &mut Workspace,
    ) -> Result<Vec<bool>, SolveError>
        requires { ready self.now }
        ensures bits { IfOk result (λ side. length side.items ≡ nodes net) }
        ensures smallest { IfOk result (λ side. IsSmallestLeastCut net (set_of side.items)) }
        ensures refused { IfErr result (refuses self.now) }
    {
        self.side(alloc, net)
    }
}

/// On the thread of the caller alone. It refuses only where memory runs out.
#[derive(Clone, Copy, Debug)]
pub struct Alone;

impl How for Alone {
    ghost ready = { λ _. Unit {0} };

    ghost refuses = { λ _ e. e ≡ OutOfMemory };

    fn solve(&self, alloc: Global, net: &Net) -> Result<Solved, SolveError> {
        match plain_cut::solve(alloc, net) {
            Ok(solved) => Ok(solved),
            Err(_) => Err(SolveError::OutOfMemory),
        }
    }

    fn side(&self, alloc: Global, net: Net) -> Result<Vec<bool>, SolveError> {
        match plain_cut::smallest_side(alloc, net) {
            Ok(side) => Ok(side),
            Err(_) => Err(SolveError::OutOfMemory),
        }
    }

    fn side_in(
        &self,
        alloc: Global,
        net: Net,
        space: &mut Workspace,
    ) -> Result<Vec<bool>, SolveError> {
        match plain_cut::smallest_side_in(alloc, net, space) {
            Ok(side) => Ok(side),
            Err(_) => Err(SolveError::OutOfMemory),
        }
    }
}
