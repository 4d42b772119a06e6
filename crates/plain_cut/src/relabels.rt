//! New labels of a node.
ghost use Rattle.std.specs.Prelude.{◌≡◌, ◌⊎◌, ◌+◌, ◌<◌, ◌≤◌, slice_index};
ghost use Rattle.flow_network.specs.Cut.{nodes, IsNet};
ghost use Rattle.flow_network.specs.Progress.{top};
ghost use Rattle.sink_distances.specs.Rows.{head_at, residual_at, IsPlace};
ghost use Rattle.plain_cut.specs.State.{IsWork, IsStep, IsStuck, IsLowest};

use crate::work::Work;
use sink_distances::Outline;

/// The lesser of a label and one more than that to which the direction leads, where it can carry
/// more.
fn lower(net: &Outline, work: &Work, v: usize, p: usize, least: u32) -> u32
    requires work { IsWork net.now work.now }
    requires node { v < nodes net.now }
    requires place { IsPlace work.now.rows v p }
    ensures lower { result ≤ least }
    ensures lowest { 0 < residual_at work.now.rows p →
        result ≤ slice_index work.now.labels.items (head_at work.now.rows p) + 1 }
    ensures one { (result ≡ least) ⊎
        ((0 < residual_at work.now.rows p) ×
        (result ≡ slice_index work.now.labels.items (head_at work.now.rows p) + 1)) }
{
    let _nodes = net.nodes();
    let cell = work.rows.cell(p);
    if cell.residual > 0 && work.labels[cell.head as usize] < least {
        work.labels[cell.head as usize] + 1
    } else {
        least
    }
}

/// The highest label that fits a node from which no residual direction leads down.
fn highest_label(net: &Outline, work: &Work, v: usize) -> u32
    requires work { IsWork net.now work.now }
    requires node { v < nodes net.now }
    requires stuck { IsStuck work.now v }
    requires label { slice_index work.now.labels.items v < top net.now }
    ensures rises { slice_index work.now.labels.items v < result }
    ensures lowest { IsLowest net.now work.now v result }
    ensures limits { IsNet net.now }
{
    let mut least = net.top_label();
    'row: for p in work.rows.starts[v]..work.rows.ends[v] {
        least = lower(net, work, v, p as usize, least);
    }
    least
}

/// Gives the node, which has excess, the highest label that fits.
pub fn relabel(net: &Outline, work: &mut Work, v: usize)
    requires work { IsWork net.now work.old }
    requires node { v < nodes net.now }
    requires stuck { IsStuck work.old v }
    requires label { slice_index work.old.labels.items v < top net.now }
    requires some { 0 < slice_index work.old.excess.items v }
    ensures { IsStep net.now v work.old work.new }
{
    work.labels[v] = highest_label(net, work, v);
    work.relabels = work.relabels.saturating_add(1);
}
