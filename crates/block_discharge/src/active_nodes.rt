//! The active nodes of a block, discharged one after another.
ghost use Rattle.std.specs.Prelude.{◌≡◌, ◌<◌, ◌≤◌};
ghost use Rattle.block_net.specs.Views.{count};
ghost use Rattle.block_discharge.specs.Works.{DoesEvents, AreIdle};

use crate::one_node::{push_on, visit};
use crate::{Bucketed, Ways};

/// A node passes on what it has, where it is an active node of the block: at most `limit` events.
fn push_if_active<W: Ways>(cells: &mut Bucketed, ways: &mut W, v: usize, limit: u32) -> u32
    ensures identity { W.identity ways.new ≡ W.identity ways.old }
    ensures few { result ≤ limit }
    ensures still { result ≡ 0 → cells.new ≡ cells.old }
    ensures does { DoesEvents cells.old.block (W.seen ways.old) result cells.new.block
        (W.seen ways.new) }
{
    if v >= cells.len() {
        return 0;
    }
    if !cells.is_active(v) {
        return 0;
    }
    push_on(cells, ways, v, limit)
}

/// The nodes of an order pass on what they have, the last of the order first, one after another and
/// without new labels: at most `limit` events. What is no node of the block is passed over.
pub(crate) fn push_wave<W: Ways>(
    cells: &mut Bucketed,
    ways: &mut W,
    order: &[u32],
    limit: u32,
) -> u32
    ensures identity { W.identity ways.new ≡ W.identity ways.old }
    ensures few { result ≤ limit }
    ensures still { result ≡ 0 → cells.new ≡ cells.old }
    ensures does { DoesEvents cells.old.block (W.seen ways.old) result cells.new.block
        (W.seen ways.new) }
{
    let mut count = 0;
    'wave: for place in (0..order.len()).rev() {
        count += push_if_active(cells, ways, order[place] as usize, limit - count);
    }
    count
}

/// A node is set aside, where it is active and is not.
fn rest(cells: &mut Bucketed, v: usize)
    requires { v < count cells.old.block }
    ensures { cells.new.block ≡ cells.old.block }
{
    if cells.is_active(v) && !cells.is_aside(v) {
        cells.set_aside(v);
    }
}

/// The events of the first node that has one, those of the highest bucket first: how many, at most
/// `limit`, and how many of them were new labels. The nodes before it are set aside, and so is it
/// where it got a new label: what can not reach the sink would rise again and again before others.
fn pass<W: Ways>(cells: &mut Bucketed, ways: &mut W, limit: u32) -> (u32, u32)
    ensures identity { W.identity ways.new ≡ W.identity ways.old }
    ensures few { result.0 ≤ limit }
    ensures rises { result.1 ≤ result.0 }
    ensures does { DoesEvents cells.old.block (W.seen ways.old) result.0 cells.new.block
        (W.seen ways.new) }
    ensures idle { result.0 ≡ 0 → 0 < limit → AreIdle cells.old (W.seen ways.old) }
{
    'nodes: while let Some(v) = cells.highest() {
        let (did, rises) = visit(cells, ways, v, limit);
        if rises > 0 {
            rest(cells, v);
            return (did, rises);
        }
        if did > 0 {
            return (did, rises);
        }
        cells.set_aside(v);
    }
    (0, 0)
}

/// Events of a block that take no message, until each active node is set aside, or there are
/// `limit`, or more than `most` new labels: how many, and how many of them were new labels.
fn sweep<W: Ways>(cells: &mut Bucketed, ways: &mut W, limit: u32, most: usize) -> (u32, u32)
    ensures identity { W.identity ways.new ≡ W.identity ways.old }
    ensures few { result.0 ≤ limit }
    ensures rises { result.1 ≤ result.0 }
    ensures does { DoesEvents cells.old.block (W.seen ways.old) result.0 cells.new.block
        (W.seen ways.new) }
    ensures idle { result.0 ≡ 0 → 0 < limit → AreIdle cells.old (W.seen ways.old) }
{
    let mut all_rises = 0;
    let mut count = 0;
    'passes: for i in 0..limit {
        if count == limit {
            return (count, all_rises);
        }
        let (did, rises) = pass(cells, ways, limit - count);
        if did == 0 {
            return (count, all_rises);
        }
        count += did;
        all_rises += rises;
        if all_rises as usize > most {
            return (count, all_rises);
        }
    }
    (count, all_rises)
}

/// Events of a block that take no message, until each active node is set aside, or there are
/// `limit`, or more than `most` new labels: how many, and how many of them were new labels. Where
/// it is told to go on, all nodes that were set aside stand again then, as long as some got new
/// labels since they stood last: so a node gets a second one only once each other was looked at.
pub(crate) fn work<W: Ways>(
    cells: &mut Bucketed,
    ways: &mut W,
    limit: u32,
    most: usize,
    again: bool,
) -> (u32, u32)
    ensures identity { W.identity ways.new ≡ W.identity ways.old }
    ensures few { result.0 ≤ limit }
    ensures rises { result.1 ≤ result.0 }
    ensures does { DoesEvents cells.old.block (W.seen ways.old) result.0 cells.new.block
        (W.seen ways.new) }
    ensures idle { result.0 ≡ 0 → 0 < limit → AreIdle cells.old (W.seen ways.old) }
{
    let mut all_rises = 0;
    let mut count = 0;
    'sweeps: for i in 0..limit {
        let left = most.saturating_sub(all_rises as usize);
        let (did, rises) = sweep(cells, ways, limit - count, left);
        count += did;
        all_rises += rises;
        if rises == 0 {
            return (count, all_rises);
        }
        if all_rises as usize > most {
            return (count, all_rises);
        }
        if !again {
            return (count, all_rises);
        }
        cells.restore_aside();
    }
    (count, all_rises)
}
