//! Messages that are on the way, taken in by their blocks.
ghost use Rattle.std.specs.Prelude.{◌≡◌, ◌<◌, IsFalse, []};
ghost use Rattle.block_events.specs.States.{IsWay, way_at};
ghost use Rattle.block_events.specs.Events.{IsQuiet};
ghost use Rattle.block_events.specs.Soundness.{IsSound};
ghost use Rattle.cut_in_blocks.specs.Lowers.{IsAfter};
ghost use Rattle.cut_in_blocks.specs.Takes.{IsTakenIn, TookIn, IsRowEmpty};

use block_events::Event;
use block_state::State;

/// The message in front of a way is taken; no where none is there, and nothing changes.
fn take_front(state: &mut State, from: u32, to: u32) -> bool
    ensures taken { IsTakenIn state.old state.new result }
    ensures none { IsFalse result → IsWay state.old from to → way_at state.old.ways from to ≡ [] }
{
    if state.perform(Event::Accept { from, to }) {
        return true;
    }
    if state.perform(Event::Refuse { from, to }) {
        return true;
    }
    state.perform(Event::Settle { from, to })
}

/// All messages of a way are taken; no where none is there, and nothing changes.
pub(crate) fn take_way(state: &mut State, from: u32, to: u32) -> bool
    ensures taken { IsTakenIn state.old state.new result }
    ensures none { IsWay state.new from to → way_at state.new.ways from to ≡ [] }
{
    let mut some = false;
    'messages: while take_front(state, from, to) {
        some = true;
    }
    some
}

/// The messages from a block are taken; no where none is there, and nothing changes.
fn take_row(state: &mut State, from: u32) -> bool
    requires { from < state.old.blocks }
    ensures taken { IsTakenIn state.old state.new result }
    ensures none { IsFalse result → IsRowEmpty state.new from state.new.blocks }
{
    let mut some = false;
    let blocks = state.blocks();
    'ways: for to in 0..blocks {
        if take_way(state, from, to as u32) {
            some = true;
        }
    }
    some
}

/// The messages that are on the way are taken, each way once; no where no message is on the way,
/// and nothing changes.
pub(crate) fn take_all(state: &mut State) -> bool
    ensures taken { IsTakenIn state.old state.new result }
    ensures none { IsFalse result → IsQuiet state.new }
    ensures sound { IsSound state.new }
{
    let blocks = state.blocks();
    if state.is_quiet() {
        return false;
    }
    let mut some = false;
    'rows: for from in 0..blocks {
        if take_row(state, from as u32) {
            some = true;
        }
    }
    some
}

/// Takes all that is on the way: each parcel is taken or sent back, and each answer ends its
/// flight, until no message is left. The labels stay. Takes no memory.
pub fn take_in(state: &mut State)
    ensures quiet { IsQuiet state.new }
    ensures took { TookIn state.old state.new }
    ensures sound { IsSound state.new }
    ensures after { IsAfter state.old state.new }
    ensures blocks { state.new.blocks ≡ state.old.blocks }
    ensures labels { state.new.labels ≡ state.old.labels }
{
    'rounds: while take_all(state) {}
}
