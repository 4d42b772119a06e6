//! First pushes within a block, before there are labels.
ghost use Rattle.std.specs.Prelude.{◌≡◌, ◌↔◌, ◌+◌, ◌<◌, ℕ, IsTrue, length, slice_index_or};
ghost use Rattle.block_events.specs.Events.{IsQuiet};
ghost use Rattle.block_state.specs.AllWays.{IsHeld};
ghost use Rattle.block_state.specs.Pieces.{state_in};
ghost use Rattle.block_net.specs.Views.{CellsView, count, lane_in};
ghost use Rattle.block_discharge.specs.Steps.{IsOfNode};
ghost use Rattle.cut_in_blocks.specs.Opening.{Opens, AreOpening, AreLabelsZero, IsFlat, HaveGiven};
ghost use Rattle.cut_in_blocks.specs.Opening.{AllBlocksGave, AllHaveGiven};

use crate::messages::take_in;
use block_net::Cells;
use block_state::{Pieces, State};
use std::snapshot::Snapshot;
use std::thread;
use std::thread::Threads;

/// Gives the sink what it can take of the node's excess.
fn give(cells: &mut Cells, v: usize)
    requires { v < count cells.old }
    ensures opens { Opens cells.old cells.new }
    ensures gave { HaveGiven v cells.old → HaveGiven (v + 1) cells.new }
{
    cells.give(v);
}

/// Sends along the direction at a place what its node has and the direction can still carry.
fn send(cells: &mut Cells, v: usize, j: usize)
    requires node { v < count cells.old }
    requires place { j < length cells.old.lanes }
    requires lane { IsOfNode cells.old v j }
    ensures opens { Opens cells.old cells.new }
    ensures gave { v < (lane_in cells.old j).far
        → HaveGiven (v + 1) cells.old → HaveGiven (v + 1) cells.new }
{
    let lane = cells.lane(j);
    if lane.residual > 0 && lane.far as usize != v {
        cells.push(v, j);
    }
}

/// Gives the sink what it can take of the node's excess, and sends the rest to higher nodes.
fn send_up(cells: &mut Cells, v: usize)
    requires { v < count cells.old }
    ensures { Opens cells.old cells.new }
{
    if cells.excess(v) == 0 {
        return;
    }
    give(cells, v);
    let (first, end) = cells.range(v);
    'lanes: for j in first..end {
        if cells.excess(v) == 0 {
            return;
        }
        if cells.lane(j).far as usize > v {
            send(cells, v, j);
        }
    }
}

/// Gives the sink what it can take of the node's excess, and sends the rest to higher nodes, or to
/// lower ones, by its last direction first.
fn send_back(cells: &mut Cells, v: usize, to_higher: bool)
    requires { v < count cells.old }
    ensures opens { Opens cells.old cells.new }
    ensures gave { IsTrue to_higher → HaveGiven v cells.old → HaveGiven (v + 1) cells.new }
{
    if cells.excess(v) == 0 {
        return;
    }
    give(cells, v);
    let (first, end) = cells.range(v);
    'lanes: for j in (first..end).rev() {
        if cells.excess(v) == 0 {
            return;
        }
        if (cells.lane(j).far as usize > v) == to_higher {
            send(cells, v, j);
        }
    }
}

/// Three passes over the nodes of a block: by rising nodes, each sends on to higher ones; then by
/// falling nodes, each to lower ones; then by rising nodes again; the last two by each node's last
/// direction first. So excess goes as far as it can one way, what the sink has not taken then the
/// other way, and what is left goes other ways.
fn open_block(cells: &mut Cells)
    ensures opens { Opens cells.old cells.new }
    ensures gave { HaveGiven (count cells.new) cells.new }
{
    'up: for v in 0..cells.len() {
        send_up(cells, v);
    }
    'down: for v in (0..cells.len()).rev() {
        send_back(cells, v, false);
    }
    'again: for v in 0..cells.len() {
        send_back(cells, v, true);
    }
}

/// The passes over each of the blocks.
fn open_blocks(old: &Snapshot<Pieces>, blocks: &mut Vec<Cells>)
    requires { AreOpening old.now.value blocks.old.items }
    ensures { AreOpening old.now.value blocks.new.items }
{
    'each: for b in 0..blocks.len() {
        open_block(&mut blocks[b]);
    }
}

/// The passes over each of the blocks, side by side, by at most so many threads.
fn open_each<R: Threads + Sync>(rt: &R, threads: usize, blocks: &mut [Cells])
    requires { 0 < threads }
    ensures opens { (b : ℕ) (d : CellsView) → b < length blocks.old
        → Opens (slice_index_or blocks.old b d) (slice_index_or blocks.new b d) }
    ensures gave { AllBlocksGave blocks.new }
{
    thread::for_each_mut(rt, blocks, threads, &|_block, cells| open_block(cells));
}

/// The same for the blocks of a state.
fn open_side_by_side<R: Threads + Sync>(
    rt: &R,
    threads: usize,
    old: &Snapshot<Pieces>,
    blocks: &mut [Cells],
)
    requires threads { 0 < threads }
    requires opening { AreOpening old.now.value blocks.old }
    ensures opening { AreOpening old.now.value blocks.new }
    ensures gave { AllBlocksGave blocks.new }
{
    open_each(rt, threads, blocks);
}

/// The state that the pieces make with what the sink got by what the blocks hold. Takes no memory.
fn state_of(old: &Snapshot<Pieces>, pieces: Pieces) -> State
    requires held { IsHeld old.now.value.ways.rooms (state_in old.now.value) }
    requires same { pieces ≡ record old.now.value
        { parts = record old.now.value.parts { blocks = pieces.parts.blocks } } }
    requires opening { AreOpening old.now.value pieces.parts.blocks.items }
    ensures net { result.net ≡ old.now.value.net }
    ensures quiet { IsQuiet (state_in old.now.value) → IsQuiet result }
    ensures gave { AllBlocksGave pieces.parts.blocks.items → AllHaveGiven result }
{
    let mut pieces = pieces;
    pieces.got = pieces.sink_total();
    pieces.into_state()
}

/// Whether all labels of a block are 0.
fn is_flat(cells: &Cells) -> bool
    ensures { IsTrue result ↔ IsFlat cells.now }
{
    'nodes: for v in 0..cells.len() {
        if cells.label(v) != 0 {
            return false;
        }
    }
    true
}

/// Whether all labels are 0: block by block, so that no node's block is looked up.
fn are_labels_zero(state: &State) -> bool
    ensures zero { IsTrue result → AreLabelsZero state.now }
    ensures all { AreLabelsZero state.now → IsTrue result }
{
    let parts = state.parts();
    'each: for b in 0..parts.blocks.len() {
        if !is_flat(&parts.blocks[b]) {
            return false;
        }
    }
    true
}

/// The state after the first pushes within its blocks, with no message on the way: each node gives
/// the sink what it takes, and what is left goes on to neighbours within the block and by them to
/// the sink, where all labels are 0; else the flow stays as it is. Before a first search from the
/// sink this is worth several of them. Each node that has excess left then has given the sink all
/// that it takes; how far the rest goes no clause says.
///
/// The blocks do so side by side, in at most so many threads. A thread that the system does not
/// start leaves its blocks to the one that asked for it. Takes no memory.
pub fn push_first<R: Threads + Sync>(rt: &R, state: State, threads: usize) -> State
    requires { 0 < threads }
    ensures net { result.net ≡ state.net }
    ensures quiet { IsQuiet result }
    ensures gave { AreLabelsZero state → AllHaveGiven result }
{
    let mut state = state;
    take_in(&mut state);
    open_new_side_by_side(rt, state, threads)
}

/// The state after the first pushes within its blocks, side by side, where all labels are 0; else
/// the state as it is.
fn open_new_side_by_side<R: Threads + Sync>(rt: &R, state: State, threads: usize) -> State
    requires { 0 < threads }
    ensures net { result.net ≡ state.net }
    ensures quiet { IsQuiet state → IsQuiet result }
    ensures gave { AreLabelsZero state → AllHaveGiven result }
{
    if are_labels_zero(&state) {
        open_by_threads(rt, state, threads)
    } else {
        state
    }
}

/// The state after the first pushes within its blocks, by at most so many threads.
fn open_by_threads<R: Threads + Sync>(rt: &R, state: State, threads: usize) -> State
    requires threads { 0 < threads }
    requires zero { AreLabelsZero state }
    ensures net { result.net ≡ state.net }
    ensures quiet { IsQuiet state → IsQuiet result }
    ensures gave { AllHaveGiven result }
{
    let mut pieces = state.into_pieces();
    let old = Snapshot::of(&pieces);
    open_side_by_side(rt, threads, &old, pieces.parts.blocks.as_mut_slice());
    state_of(&old, pieces)
}

/// The state after the first pushes within its blocks, where all labels are 0; else the state as it
/// is. Takes no memory.
pub(crate) fn open_if_new(state: State) -> State
    ensures { result.net ≡ state.net }
{
    if are_labels_zero(&state) {
        open(state)
    } else {
        state
    }
}

/// The state after the first pushes within its blocks, in which excess goes on without regard to
/// labels: while all of them are 0, they fit every flow. Takes no memory.
fn open(state: State) -> State
    requires { AreLabelsZero state }
    ensures { result.net ≡ state.net }
{
    let mut pieces = state.into_pieces();
    let old = Snapshot::of(&pieces);
    open_blocks(&old, &mut pieces.parts.blocks);
    state_of(&old, pieces)
}
