//! Pushes of a node's excess to the sink and along its directions.
ghost use Rattle.std.specs.Prelude.{◌≡◌, ◌≢◌, ◌+◌, ◌-◌, ◌<◌, ◌≤◌, ◌^◌, ◌==◌, ◌++◌, ◌∷◌, [], ℕ};
ghost use Rattle.std.specs.Prelude.{IfOk, OnOk};
ghost use Rattle.std.specs.Prelude.{length, slice_index, slice_set, if◌then◌else◌};
ghost use Rattle.flow_network.specs.Cut.{nodes};
ghost use Rattle.sink_distances.specs.Rows.{head_at, residual_at, IsPlace};
ghost use Rattle.plain_cut.specs.State.{IsWork, IsStep, IsSteps, IsPush, ChangesOnly, IsSpent};
ghost use Rattle.plain_cut.specs.State.{ChangesAmong, IsStuck};

use crate::work::Work;
use sink_distances::Outline;
use std::alloc::{AllocError, Global};
use std::collections::VecDeque;

/// Takes an amount from the one node's excess, which is this one, and gives it to the other's.
pub fn carry(excess: &mut [u64], from: usize, to: u32, left: u64, amount: u64)
    requires from { from < length excess.old }
    requires to { to < length excess.old }
    requires other { from ≢ to }
    requires left { left ≡ slice_index excess.old from }
    requires enough { amount ≤ slice_index excess.old from }
    requires small { slice_index excess.old to + amount < 2 ^ 64 }
    ensures { excess.new ≡
        slice_set (slice_set excess.old from (slice_index excess.old from - amount))
        to (slice_index excess.old to + amount) }
{
    excess[from] = left - amount;
    excess[to as usize] += amount;
}

/// Takes an amount from the one node's excess, which is this one, and gives it to the other's,
/// which is queued if it had none.
fn shift(
    excess: &mut [u64],
    queue: &mut VecDeque<u32>,
    from: usize,
    to: u32,
    left: u64,
    amount: u64,
) -> Result<(), AllocError>
    requires from { from < length excess.old }
    requires to { to < length excess.old }
    requires other { from ≢ to }
    requires left { left ≡ slice_index excess.old from }
    requires enough { amount ≤ slice_index excess.old from }
    requires small { slice_index excess.old to + amount < 2 ^ 64 }
    ensures excess { OnOk result (excess.new ≡
        slice_set (slice_set excess.old from (slice_index excess.old from - amount))
        to (slice_index excess.old to + amount)) }
    ensures queue { OnOk result (queue.new.items ≡
        (if slice_index excess.old to == 0 then queue.old.items ++ to ∷ [] else queue.old.items)) }
{
    if excess[to as usize] == 0 {
        queue.push_back(to)?;
    }
    carry(excess, from, to, left, amount);
    Ok(())
}

/// Pushes along the direction what the node has and it can still carry. Answers what it has left.
fn push_along(
    net: &Outline,
    work: &mut Work,
    v: usize,
    p: usize,
    left: u64,
) -> Result<u64, AllocError>
    requires work { IsWork net.now work.old }
    requires node { v < nodes net.now }
    requires place { IsPlace work.old.rows v p }
    requires left { left ≡ slice_index work.old.excess.items v }
    requires residual { 0 < residual_at work.old.rows p }
    requires down { slice_index work.old.labels.items v ≡
        slice_index work.old.labels.items (head_at work.old.rows p) + 1 }
    requires some { 0 < slice_index work.old.excess.items v }
    ensures step { OnOk result (IsStep net.now v work.old work.new) }
    ensures push { OnOk result (IsPush v work.old work.new) }
    ensures others { OnOk result (ChangesOnly v p work.old work.new) }
    ensures spent { OnOk result (IsSpent work.new v p) }
    ensures left { IfOk result (λ rest. rest ≡ slice_index work.new.excess.items v) }
{
    let _nodes = net.nodes();
    let cell = work.rows.cell(p);
    let amount = u64::min(left, cell.residual);
    shift(
        work.excess.as_mut_slice(),
        &mut work.queue,
        v,
        cell.head,
        left,
        amount,
    )?;
    work.rows.send(p, amount);
    Ok(left - amount)
}

/// Gives the sink what the node has and its sink arc can still carry.
fn push_sink(net: &Outline, work: &mut Work, v: usize)
    requires work { IsWork net.now work.old }
    requires node { v < nodes net.now }
    requires residual { 0 < slice_index work.old.rooms.items v }
    requires some { 0 < slice_index work.old.excess.items v }
    ensures step { IsStep net.now v work.old work.new }
    ensures rows { work.new.rows ≡ work.old.rows }
    ensures labels { work.new.labels.items ≡ work.old.labels.items }
    ensures spent { 0 < slice_index work.new.excess.items v
        → slice_index work.new.rooms.items v ≡ 0 }
{
    let _nodes = net.nodes();
    let amount = u64::min(work.excess[v], work.rooms[v]);
    work.excess[v] -= amount;
    work.rooms[v] -= amount;
}

/// Gives the sink what the node has, where its sink arc has room.
pub fn try_push_sink(net: &Outline, work: &mut Work, v: usize)
    requires work { IsWork net.now work.old }
    requires node { v < nodes net.now }
    ensures steps { IsSteps net.now v work.old work.new }
    ensures rows { work.new.rows ≡ work.old.rows }
    ensures labels { work.new.labels.items ≡ work.old.labels.items }
    ensures spent { 0 < slice_index work.new.excess.items v
        → slice_index work.new.rooms.items v ≡ 0 }
{
    if work.rooms[v] > 0 && work.excess[v] > 0 {
        push_sink(net, work, v);
    }
}

/// Pushes along the direction, where the node has excess, it can carry more, and it leads down.
/// Answers what the node has left.
fn try_push(
    net: &Outline,
    work: &mut Work,
    v: usize,
    p: usize,
    left: u64,
) -> Result<u64, AllocError>
    requires work { IsWork net.now work.old }
    requires node { v < nodes net.now }
    requires place { IsPlace work.old.rows v p }
    requires left { left ≡ slice_index work.old.excess.items v }
    ensures steps { OnOk result (IsSteps net.now v work.old work.new) }
    ensures push { OnOk result (IsPush v work.old work.new) }
    ensures others { OnOk result (ChangesOnly v p work.old work.new) }
    ensures spent { OnOk result (IsSpent work.new v p) }
    ensures left { IfOk result (λ rest. rest ≡ slice_index work.new.excess.items v) }
{
    let _nodes = net.nodes();
    let cell = work.rows.cell(p);
    if left == 0 || cell.residual == 0 || work.labels[v] <= work.labels[cell.head as usize] {
        return Ok(left);
    }
    push_along(net, work, v, p, left)
}

/// Pushes along those of the node's directions that stand from the first place to before the last,
/// while it has excess. Answers the place at which it had none left, or the last.
fn push_places(
    net: &Outline,
    work: &mut Work,
    v: usize,
    first: u32,
    last: u32,
) -> Result<u32, AllocError>
    requires work { IsWork net.now work.old }
    requires node { v < nodes net.now }
    requires places { (p : ℕ) → first ≤ p → p < last → IsPlace work.old.rows v p }
    ensures steps { OnOk result (IsSteps net.now v work.old work.new) }
    ensures push { OnOk result (IsPush v work.old work.new) }
    ensures others { OnOk result (ChangesAmong v first last work.old work.new) }
    ensures spent { OnOk result ((p : ℕ) → first ≤ p → p < last → IsSpent work.new v p) }
{
    let mut left = work.excess[v];
    'row: for p in first..last {
        if left == 0 {
            return Ok(p);
        }
        left = try_push(net, work, v, p as usize, left)?;
    }
    Ok(last)
}

/// Pushes along the node's directions, while it has excess.
fn push_row(net: &Outline, work: &mut Work, v: usize) -> Result<(), AllocError>
    requires work { IsWork net.now work.old }
    requires node { v < nodes net.now }
    ensures steps { OnOk result (IsSteps net.now v work.old work.new) }
    ensures push { OnOk result (IsPush v work.old work.new) }
    ensures spent { OnOk result ((p : ℕ) → IsPlace work.old.rows v p → IsSpent work.new v p) }
{
    let first = work.rows.starts[v];
    let last = work.rows.ends[v];
    push_places(net, work, v, first, last)?;
    Ok(())
}

/// Pushes along the node's directions, while it has excess: from the place at which its pushes
/// stopped the last time, and then from its first place to that one. It tells where they stop now.
fn push_round(net: &Outline, work: &mut Work, v: usize, stop: &mut u32) -> Result<(), AllocError>
    requires work { IsWork net.now work.old }
    requires node { v < nodes net.now }
    ensures steps { OnOk result (IsSteps net.now v work.old work.new) }
    ensures push { OnOk result (IsPush v work.old work.new) }
    ensures spent { OnOk result ((p : ℕ) → IsPlace work.old.rows v p → IsSpent work.new v p) }
{
    let first = work.rows.starts[v];
    let last = work.rows.ends[v];
    let from = u32::min(u32::max(*stop, first), last);
    *stop = push_places(net, work, v, from, last)?;
    if work.excess[v] > 0 {
        *stop = push_places(net, work, v, first, from)?;
    }
    Ok(())
}

/// Pushes to the sink and along each direction of the node that leads down, while it has excess.
/// `stops` tells of each of the last nodes where its pushes stopped.
pub fn push_all(
    net: &Outline,
    work: &mut Work,
    v: usize,
    stops: &mut [u32],
) -> Result<(), AllocError>
    requires work { IsWork net.now work.old }
    requires node { v < nodes net.now }
    requires stops { length stops.old ≤ nodes net.now }
    ensures steps { OnOk result (IsSteps net.now v work.old work.new) }
    ensures labels { OnOk result (work.new.labels.items ≡ work.old.labels.items) }
    ensures stuck { OnOk result (0 < slice_index work.new.excess.items v → IsStuck work.new v) }
{
    let first = net.nodes() - stops.len();
    try_push_sink(net, work, v);
    if v < first {
        push_row(net, work, v)?;
    } else {
        push_round(net, work, v, &mut stops[v - first])?;
    }
    Ok(())
}
