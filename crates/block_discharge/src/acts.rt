//! One event of a node, tried.
ghost use Rattle.std.specs.Prelude.{◌≡◌, ◌<◌, ◌≤◌, length};
ghost use Rattle.block_net.specs.Views.{label_in, room_in, MayPush, highest};
ghost use Rattle.block_discharge.specs.Seen.{WaysView};
ghost use Rattle.block_discharge.specs.Active.{IsActiveInBlock};
ghost use Rattle.block_discharge.specs.Steps.{IsOfNode, IsBorderOfNode, IsSure, Push, Give};
ghost use Rattle.block_discharge.specs.Steps.{Relabel};
ghost use Rattle.block_discharge.specs.Steps.{Send};
ghost use Rattle.block_discharge.specs.Calls.{Performs};
ghost use Rattle.block_discharge.specs.Works.{DoesEvents};

use crate::{Bucketed, Letter, Ways};

/// Excess of an active node goes to the sink, where that is enabled.
pub(crate) fn try_give(cells: &mut Bucketed, v: usize) -> u32
    requires { IsActiveInBlock cells.old.block v }
    ensures few { result ≤ 1 }
    ensures still { result ≡ 0 → cells.new ≡ cells.old }
    ensures does { (s : WaysView) → DoesEvents cells.old.block s result cells.new.block s }
    ensures done { 0 < result → (s : WaysView)
        → Performs cells.old.block s (Give v) cells.new.block s }
    ensures idle { result ≡ 0
        → ¬ ((0 < room_in cells.old.block v) × (label_in cells.old.block v ≡ 1)) }
{
    if !cells.cells().may_give(v) {
        return 0;
    }
    cells.give(v);
    1
}

/// Excess of an active node goes along a direction within the block, where that is enabled.
pub(crate) fn try_push(cells: &mut Bucketed, v: usize, j: usize) -> u32
    requires active { IsActiveInBlock cells.old.block v }
    requires lane { IsOfNode cells.old.block v j }
    requires place { j < length cells.old.block.lanes }
    ensures few { result ≤ 1 }
    ensures still { result ≡ 0 → cells.new ≡ cells.old }
    ensures does { (s : WaysView) → DoesEvents cells.old.block s result cells.new.block s }
    ensures done { 0 < result → (s : WaysView)
        → Performs cells.old.block s (Push v j) cells.new.block s }
    ensures idle { result ≡ 0 → ¬ MayPush cells.old.block v j }
{
    if !cells.cells().may_push(v, j) {
        return 0;
    }
    cells.push(v, j);
    1
}

/// Excess of an active node leaves for another block, where that is enabled and there is room.
pub(crate) fn try_send<W: Ways>(cells: &mut Bucketed, ways: &mut W, v: usize, j: usize) -> u32
    requires active { IsActiveInBlock cells.old.block v }
    requires border { IsBorderOfNode cells.old.block v j }
    requires place { j < length cells.old.block.borders }
    ensures identity { W.identity ways.new ≡ W.identity ways.old }
    ensures few { result ≤ 1 }
    ensures still { result ≡ 0 → cells.new ≡ cells.old }
    ensures does { DoesEvents cells.old.block (W.seen ways.old) result cells.new.block
        (W.seen ways.new) }
    ensures done { 0 < result
        → Performs cells.old.block (W.seen ways.old) (Send v j) cells.new.block (W.seen ways.new) }
    ensures idle { result ≡ 0 → ¬ IsSure cells.old.block (W.seen ways.old) (Send v j) }
{
    if !cells.cells().may_send(v, j) {
        return 0;
    }
    let border = cells.border(j);
    if !ways.room(border.to) {
        return 0;
    }
    let letter = Letter {
        message: cells.send(v, j),
        place: border.opposite,
    };
    ways.put(border.to, letter);
    1
}

/// An active node gets the highest label that it may have, where that is higher.
pub(crate) fn try_relabel(cells: &mut Bucketed, v: usize) -> u32
    requires { IsActiveInBlock cells.old.block v }
    ensures few { result ≤ 1 }
    ensures still { result ≡ 0 → cells.new ≡ cells.old }
    ensures does { (s : WaysView) → DoesEvents cells.old.block s result cells.new.block s }
    ensures done { 0 < result → (s : WaysView)
        → Performs cells.old.block s (Relabel v) cells.new.block s }
    ensures idle { result ≡ 0 → ¬ (label_in cells.old.block v < highest cells.old.block v) }
{
    let label = cells.highest_label(v);
    if label <= cells.label(v) {
        return 0;
    }
    cells.relabel(v, label);
    1
}
