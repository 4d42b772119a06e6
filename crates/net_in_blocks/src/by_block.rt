//! The labels of a block's nodes, and those that its directions know.
ghost use Rattle.std.specs.Prelude.{◌≡◌, ◌<◌, ◌≤◌, ℕ, true, length, slice_index};
ghost use Rattle.flow_network.specs.Cut.{nodes};
ghost use Rattle.flow_network.specs.Progress.{top};
ghost use Rattle.block_events.specs.Directions.{far};
ghost use Rattle.block_net.specs.Whole.{block_at};
ghost use Rattle.block_split.specs.Split.{whole_of};
ghost use Rattle.net_in_blocks.specs.Views.{blocks_in, IsLaid, IsRow};
ghost use Rattle.net_in_blocks.specs.ByBlock.{direction_at, told_at, IsTelling, HasLabelsInBlock};

use crate::blocks::near_of;
use block_net::opposite_of;
use block_split::Parts;
use flow_network::Net;

/// The label of the far end of the direction at a place of a block, among those to other blocks.
/// The block of the far end is kept with the direction, so that nothing is divided.
fn far_label(net: &Net, parts: &Parts, block: usize, j: usize) -> u32
    requires laid { IsLaid (whole_of net.now parts.now) }
    requires block { block < length parts.now.blocks.items }
    requires place { j < length (block_at (whole_of net.now parts.now) block).borders }
    ensures row { IsRow (whole_of net.now parts.now)
        (direction_at (whole_of net.now parts.now) block j) true block j }
    ensures value { result ≡ slice_index (blocks_in (whole_of net.now parts.now)).labels
        (far net.now (direction_at (whole_of net.now parts.now) block j)) }
    ensures limit { result ≤ top net.now }
{
    let border = parts.blocks[block].border(j);
    let far = near_of(net, opposite_of(border.direction));
    let to = border.to as usize;
    parts.blocks[to].label(far - parts.firsts[to])
}

/// The direction at a place of a block, among those to other blocks, knows the label of its far
/// end.
fn tell_border(net: &Net, parts: &mut Parts, block: usize, j: usize)
    requires laid { IsLaid (whole_of net.now parts.old) }
    requires block { block < length parts.old.blocks.items }
    requires place { j < length (block_at (whole_of net.now parts.old) block).borders }
    ensures told { whole_of net.now parts.new ≡ told_at (whole_of net.now parts.old) block j }
    ensures laid { IsLaid (whole_of net.now parts.new) }
{
    let label = far_label(net, parts, block, j);
    parts.blocks[block].inform(j, label);
}

/// Each direction from a block to another knows the label of its far end.
pub fn tell_block(net: &Net, parts: &mut Parts, block: usize)
    requires laid { IsLaid (whole_of net.now parts.old) }
    requires block { block < length parts.old.blocks.items }
    ensures { IsTelling (whole_of net.now parts.old) (whole_of net.now parts.new) block
        (length (block_at (whole_of net.now parts.old) block).borders) }
{
    'borders: for j in 0..parts.blocks[block].borders() {
        tell_border(net, parts, block, j);
    }
}

/// The nodes of a block get the labels that stand at their numbers in the list, by one write of the
/// block's list.
pub fn label_block(net: &Net, parts: &mut Parts, block: usize, labels: &[u32])
    requires laid { IsLaid (whole_of net.now parts.old) }
    requires block { block < length parts.old.blocks.items }
    requires len { length labels.now ≡ nodes net.now }
    requires limit { (v : ℕ) → v < nodes net.now → slice_index labels.now v ≤ top net.now }
    ensures { HasLabelsInBlock (whole_of net.now parts.old) (whole_of net.now parts.new)
        block labels.now }
{
    let nodes = parts.blocks[block].len();
    if nodes == 0 {
        return;
    }
    let first = parts.firsts[block];
    let part = &labels[first..first + nodes];
    parts.blocks[block].write_labels(part);
}
