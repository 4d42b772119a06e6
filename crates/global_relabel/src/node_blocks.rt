//! The block of each node.
ghost use Rattle.std.specs.Prelude.{◌≡◌, ◌+◌, ◌<◌, ◌≤◌, ℕ, length, slice_index};
ghost use Rattle.flow_network.specs.Cut.{nodes};
ghost use Rattle.global_relabel.specs.NodeBlocks.{AreNodeBlocks};

use block_state::State;

/// Writes the number of a block to each of its nodes, of which `first` is the first.
fn write_block(node_blocks: &mut [u8], first: usize, count: usize, block: u8)
    requires { (p : ℕ) → p < count → first + p < length node_blocks.old }
    ensures len { length node_blocks.new ≡ length node_blocks.old }
    ensures inside { (v : ℕ) → first ≤ v → v < first + count
        → slice_index node_blocks.new v ≡ block }
    ensures below { (v : ℕ) → v < first
        → slice_index node_blocks.new v ≡ slice_index node_blocks.old v }
    ensures above { (v : ℕ) → first + count ≤ v
        → slice_index node_blocks.new v ≡ slice_index node_blocks.old v }
{
    'nodes: for p in 0..count {
        node_blocks[first + p] = block;
    }
}

/// Writes of each node the number of its block: a table, since a node's block by its number takes a
/// division.
pub fn write_node_blocks(state: &State, node_blocks: &mut [u8])
    requires { length node_blocks.old ≡ nodes state.now.net }
    ensures { AreNodeBlocks state.now.net state.now.blocks node_blocks.new }
{
    let _few = state.blocks();
    let parts = state.parts();
    'each: for b in 0..parts.blocks.len() {
        write_block(node_blocks, parts.firsts[b], parts.blocks[b].len(), b as u8);
    }
}
