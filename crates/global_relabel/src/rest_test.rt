//! Whether no node with excess reaches the sink.
ghost use Rattle.std.specs.Prelude.{◌↔◌, ◌+◌, ◌<◌, ℕ, IsTrue, length};
ghost use Rattle.block_events.specs.Events.{IsQuiet};
ghost use Rattle.block_events.specs.Reach.{AreExact};
ghost use Rattle.block_events.specs.Soundness.{IsFinished};
ghost use Rattle.block_net.specs.Views.{count};
ghost use Rattle.global_relabel.specs.Rest.{IsAtRest};

use block_net::Cells;
use block_state::State;

/// Whether no node of a block that has excess reaches the sink, by the exact labels of all nodes.
/// `first` is the block's first node.
fn is_block_at_rest(cells: &Cells, first: usize, labels: &[u32]) -> bool
    requires { (p : ℕ) → p < count cells.now → first + p < length labels.now }
    ensures { IsTrue result ↔ IsAtRest cells.now first labels.now }
{
    let top = cells.top();
    'nodes: for p in 0..cells.len() {
        if cells.excess(p) > 0 && labels[first + p] < top {
            return false;
        }
    }
    true
}

/// Whether a state with no message on the way is finished, by its exact labels: whether none of
/// them that belongs to a node with excess lies below the top one.
pub fn is_at_rest(state: &State, labels: &[u32]) -> bool
    requires quiet { IsQuiet state.now }
    requires exact { AreExact state.now labels.now }
    ensures { IsTrue result ↔ IsFinished state.now }
{
    let parts = state.parts();
    'each: for b in 0..parts.blocks.len() {
        if !is_block_at_rest(&parts.blocks[b], parts.firsts[b], labels) {
            return false;
        }
    }
    true
}
