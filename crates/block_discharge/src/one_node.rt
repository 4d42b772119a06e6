//! One node, discharged: its excess goes on, and then it is relabelled.
ghost use Rattle.std.specs.Prelude.{◌≡◌, ◌<◌, ◌≤◌, ℕ};
ghost use Rattle.block_net.specs.Views.{count};
ghost use Rattle.block_discharge.specs.Seen.{WaysView};
ghost use Rattle.block_discharge.specs.Steps.{IsStepEnabled, IsSure, Push, Give, Relabel, Send};
ghost use Rattle.block_discharge.specs.Works.{DoesEvents, IsIdle, IsStuckInBlock};

use crate::acts::{try_give, try_push, try_relabel, try_send};
use crate::{Bucketed, Ways};

/// A node's excess goes to the sink, where that is enabled: at most `limit` events.
fn give_once(cells: &mut Bucketed, v: usize, limit: u32) -> u32
    requires { v < count cells.old.block }
    ensures few { result ≤ limit }
    ensures still { result ≡ 0 → cells.new ≡ cells.old }
    ensures does { (s : WaysView) → DoesEvents cells.old.block s result cells.new.block s }
    ensures idle { result ≡ 0 → 0 < limit → ¬ IsStepEnabled cells.old.block (Give v) }
{
    if limit == 0 || !cells.is_active(v) {
        return 0;
    }
    try_give(cells, v)
}

/// A node gets a higher label, where that is enabled: at most `limit` events.
fn relabel_once(cells: &mut Bucketed, v: usize, limit: u32) -> u32
    requires { v < count cells.old.block }
    ensures few { result ≤ limit }
    ensures still { result ≡ 0 → cells.new ≡ cells.old }
    ensures does { (s : WaysView) → DoesEvents cells.old.block s result cells.new.block s }
    ensures idle { result ≡ 0 → 0 < limit → ¬ IsStepEnabled cells.old.block (Relabel v) }
{
    if limit == 0 || !cells.is_active(v) {
        return 0;
    }
    try_relabel(cells, v)
}

/// A node's excess goes along its directions within the block, where that is enabled: at most
/// `limit` events.
fn push_all(cells: &mut Bucketed, v: usize, limit: u32) -> u32
    requires node { v < count cells.old.block }
    ensures few { result ≤ limit }
    ensures still { result ≡ 0 → cells.new ≡ cells.old }
    ensures does { (s : WaysView) → DoesEvents cells.old.block s result cells.new.block s }
    ensures idle { result ≡ 0 → 0 < limit → (j : ℕ) → ¬ IsStepEnabled cells.old.block (Push v j) }
{
    let mut count = 0;
    let (first, end) = cells.range(v);
    'lanes: for j in first..end {
        if count == limit {
            return count;
        }
        if !cells.is_active(v) {
            return count;
        }
        count += try_push(cells, v, j);
    }
    count
}

/// A node's excess leaves along its directions to other blocks, where that is enabled and there is
/// room: at most `limit` events.
fn send_all<W: Ways>(cells: &mut Bucketed, ways: &mut W, v: usize, limit: u32) -> u32
    requires { v < count cells.old.block }
    ensures identity { W.identity ways.new ≡ W.identity ways.old }
    ensures few { result ≤ limit }
    ensures still { result ≡ 0 → cells.new ≡ cells.old }
    ensures does { DoesEvents cells.old.block (W.seen ways.old) result cells.new.block
        (W.seen ways.new) }
    ensures idle { result ≡ 0 → 0 < limit → (j : ℕ)
        → ¬ IsSure cells.old.block (W.seen ways.old) (Send v j) }
{
    let mut count = 0;
    let (first, end) = cells.border_range(v);
    'borders: for j in first..end {
        if count == limit {
            return count;
        }
        if !cells.is_active(v) {
            return count;
        }
        count += try_send(cells, ways, v, j);
    }
    count
}

/// What a node has goes on, in this order: to the sink, along its directions within the block, and
/// to other blocks. At most `limit` events.
pub(crate) fn push_on<W: Ways>(cells: &mut Bucketed, ways: &mut W, v: usize, limit: u32) -> u32
    requires node { v < count cells.old.block }
    ensures identity { W.identity ways.new ≡ W.identity ways.old }
    ensures few { result ≤ limit }
    ensures still { result ≡ 0 → cells.new ≡ cells.old }
    ensures does { DoesEvents cells.old.block (W.seen ways.old) result cells.new.block
        (W.seen ways.new) }
    ensures stuck { result ≡ 0 → 0 < limit → IsStuckInBlock cells.old.block (W.seen ways.old) v }
{
    let gifts = give_once(cells, v, limit);
    let pushes = push_all(cells, v, limit - gifts);
    let sends = send_all(cells, ways, v, limit - gifts - pushes);
    gifts + pushes + sends
}

/// What a node has goes on, and what stays gives it a new label: how many events, at most `limit`,
/// and how many of them were new labels.
pub(crate) fn visit<W: Ways>(cells: &mut Bucketed, ways: &mut W, v: usize, limit: u32) -> (u32, u32)
    requires node { v < count cells.old.block }
    ensures identity { W.identity ways.new ≡ W.identity ways.old }
    ensures few { result.0 ≤ limit }
    ensures still { result.0 ≡ 0 → cells.new ≡ cells.old }
    ensures rises { result.1 ≤ result.0 }
    ensures does { DoesEvents cells.old.block (W.seen ways.old) result.0 cells.new.block
        (W.seen ways.new) }
    ensures idle { result.0 ≡ 0 → 0 < limit → IsIdle cells.old.block (W.seen ways.old) v }
{
    let pushes = push_on(cells, ways, v, limit);
    let rises = relabel_once(cells, v, limit - pushes);
    (pushes + rises, rises)
}
