//! First pushes, before there are labels.
ghost use Rattle.std.specs.Prelude.{◌≡◌, ◌≢◌, ◌⊎◌, ◌+◌, ◌<◌, ◌≤◌, IfOk, IsTrue, slice_index};
ghost use Rattle.flow_network.specs.Cut.{nodes, IsNet};
ghost use Rattle.sink_distances.specs.Rows.{head_at, residual_at, IsPlace, IsRows, CarryNothing};
ghost use Rattle.plain_cut.specs.State.{IsWork, IsUnlabelled};

use crate::pushes::{carry, try_push_sink};
use crate::wide::count_wide;
use crate::work::{Work, start};
use sink_distances::{Outline, Rows};
use std::alloc::AllocError;
use std::collections::VecDeque;

/// Sends along the direction what the node has and it can still carry. Answers what it has left.
fn send(net: &Outline, work: &mut Work, v: usize, p: usize, left: u64) -> u64
    requires work { IsUnlabelled net.now work.old }
    requires node { v < nodes net.now }
    requires place { IsPlace work.old.rows v p }
    requires other { head_at work.old.rows p ≢ v }
    requires residual { 0 < residual_at work.old.rows p }
    requires left { left ≡ slice_index work.old.excess.items v }
    ensures work { IsUnlabelled net.now work.new }
    ensures starts { work.new.rows.starts.items ≡ work.old.rows.starts.items }
    ensures ends { work.new.rows.ends.items ≡ work.old.rows.ends.items }
    ensures left { result ≡ slice_index work.new.excess.items v }
{
    let _nodes = net.nodes();
    let cell = work.rows.cell(p);
    let amount = u64::min(left, cell.residual);
    carry(work.excess.as_mut_slice(), v, cell.head, left, amount);
    work.rows.send(p, amount);
    left - amount
}

/// Whether the direction leads to one of the nodes from `low` to before `high`.
fn leads(net: &Outline, work: &Work, v: usize, p: usize, low: usize, high: usize) -> bool
    requires work { IsUnlabelled net.now work.now }
    requires node { v < nodes net.now }
    requires place { IsPlace work.now.rows v p }
    ensures { IsTrue result →
        (low ≤ head_at work.now.rows p) × (head_at work.now.rows p < high) }
{
    let _nodes = net.nodes();
    let head = work.rows.cell(p).head as usize;
    low <= head && head < high
}

/// Sends along the direction, where it leads to one of the nodes from `low` to before `high`, and
/// can carry more. Answers what the node has left.
fn try_send(
    net: &Outline,
    work: &mut Work,
    v: usize,
    p: usize,
    low: usize,
    high: usize,
    left: u64,
) -> u64
    requires work { IsUnlabelled net.now work.old }
    requires node { v < nodes net.now }
    requires place { IsPlace work.old.rows v p }
    requires others { (v < low) ⊎ (high ≤ v) }
    requires left { left ≡ slice_index work.old.excess.items v }
    ensures work { IsUnlabelled net.now work.new }
    ensures starts { work.new.rows.starts.items ≡ work.old.rows.starts.items }
    ensures ends { work.new.rows.ends.items ≡ work.old.rows.ends.items }
    ensures left { result ≡ slice_index work.new.excess.items v }
{
    let _nodes = net.nodes();
    if leads(net, work, v, p, low, high) && work.rows.cell(p).residual > 0 {
        send(net, work, v, p, left)
    } else {
        left
    }
}

/// Gives the sink what it can of the node's excess, and sends the rest along the node's directions
/// to higher nodes, the first before the others.
fn send_first(net: &Outline, work: &mut Work, v: usize)
    requires work { IsUnlabelled net.now work.old }
    requires node { v < nodes net.now }
    ensures { IsUnlabelled net.now work.new }
{
    if work.excess[v] == 0 {
        return;
    }
    try_push_sink(net, work, v);
    let mut left = work.excess[v];
    'row: for p in work.rows.starts[v]..work.rows.ends[v] {
        if left == 0 {
            return;
        }
        left = try_send(net, work, v, p as usize, v + 1, net.nodes(), left);
    }
}

/// Gives the sink what it can of the node's excess, and sends the rest along the node's directions
/// to the other nodes from `low` to before `high`, the last before the others.
fn send_last(net: &Outline, work: &mut Work, v: usize, low: usize, high: usize)
    requires work { IsUnlabelled net.now work.old }
    requires node { v < nodes net.now }
    requires others { (v < low) ⊎ (high ≤ v) }
    ensures { IsUnlabelled net.now work.new }
{
    if work.excess[v] == 0 {
        return;
    }
    try_push_sink(net, work, v);
    let mut left = work.excess[v];
    'row: for p in (work.rows.starts[v]..work.rows.ends[v]).rev() {
        if left == 0 {
            return;
        }
        left = try_send(net, work, v, p as usize, low, high, left);
    }
}

/// The work after the first pushes, which ask for no labels: once up from each node in their order,
/// once down from each in the reverse order, and once more up from each, along its last direction
/// first. Where the arcs lead from lower to higher nodes, all excess goes as far as it can in the
/// first pass, what the sink has not taken comes back in the second, and goes other ways in the
/// third. These ways do not lead to the last nodes if they are wide: what such a node gets there it
/// would have to give back in pushes along each of its many directions.
///
/// It takes the net's rows, sources and sinks over. Labels and queue stand in what these lists
/// stood in.
pub fn open(
    net: &Outline,
    rows: Rows,
    sources: Vec<u64>,
    sinks: Vec<u64>,
    labels: Vec<u32>,
    queue: VecDeque<u32>,
) -> Result<Work, AllocError>
    requires rows { IsRows net.now rows }
    requires empty { CarryNothing net.now rows }
    requires sources { sources.items ≡ net.now.sources }
    requires sinks { sinks.items ≡ net.now.sinks }
    ensures work { IfOk result (λ w. IsWork net.now w) }
    ensures limits { IsNet net.now }
{
    let mut work = start(net, rows, sources, sinks, labels, queue)?;
    'up: for v in 0..net.nodes() {
        send_first(net, &mut work, v);
    }
    'down: for v in (0..net.nodes()).rev() {
        send_last(net, &mut work, v, 0, v);
    }
    let narrow = net.nodes() - count_wide(net, &work.rows);
    'again: for v in 0..narrow {
        send_last(net, &mut work, v, v + 1, narrow);
    }
    Ok(work)
}
