//! The events of a block, one call each.
ghost use Rattle.std.specs.Prelude.{◌≡◌, MatchBool};
ghost use Rattle.block_discharge.specs.declared.letter.Letter.{Letter};
ghost use Rattle.block_discharge.specs.Seen.{WaysView};
ghost use Rattle.block_discharge.specs.Steps.{IsStepEnabled, IsSure, Push, Give, Relabel, Send};
ghost use Rattle.block_discharge.specs.Steps.{Accept};
ghost use Rattle.block_discharge.specs.Steps.{Refuse};
ghost use Rattle.block_discharge.specs.Steps.{Settle};
ghost use Rattle.block_discharge.specs.Calls.{Performs, IsUnchanged, HasReceived, HasSettled};

use crate::acts::{try_give, try_push, try_relabel, try_send};
use crate::messages::{receive_accepted, receive_parcel, receive_refused};
use crate::{Block, Ways};
use block_events::{Flight, Message};

/// Excess of a node goes along one of its directions within the block: as much as the direction can
/// carry (Goldberg, Tarjan 1988, section 2). `v` is the node's place in the block, and `j` that of
/// the direction. Answers yes if the event is enabled, and then does it. Else it answers no, and
/// nothing changes. Takes no memory.
pub fn push_inner(block: &mut Block, v: usize, j: usize) -> bool
    ensures { MatchBool result
        ((s : WaysView) → Performs block.old s (Push v j) block.new s)
        ((¬ IsStepEnabled block.old (Push v j)) × (block.new ≡ block.old)) }
{
    if v >= block.cells.len() || !block.cells.is_active(v) {
        return false;
    }
    let (first, end) = block.cells.range(v);
    if j < first || end <= j {
        return false;
    }
    try_push(&mut block.cells, v, j) > 0
}

/// Excess of a node goes to the sink: as much as the node can still give it. `v` is the node's
/// place in the block. Answers yes if the event is enabled, and then does it. Else it answers no,
/// and nothing changes. Takes no memory.
pub fn push_sink(block: &mut Block, v: usize) -> bool
    ensures { MatchBool result
        ((s : WaysView) → Performs block.old s (Give v) block.new s)
        ((¬ IsStepEnabled block.old (Give v)) × (block.new ≡ block.old)) }
{
    if v >= block.cells.len() || !block.cells.is_active(v) {
        return false;
    }
    try_give(&mut block.cells, v) > 0
}

/// A node gets the highest label that it may have. `v` is the node's place in the block. Answers
/// yes if the event is enabled, and then does it. Else it answers no, and nothing changes. Takes no
/// memory.
pub fn relabel(block: &mut Block, v: usize) -> bool
    ensures { MatchBool result
        ((s : WaysView) → Performs block.old s (Relabel v) block.new s)
        ((¬ IsStepEnabled block.old (Relabel v)) × (block.new ≡ block.old)) }
{
    if v >= block.cells.len() || !block.cells.is_active(v) {
        return false;
    }
    try_relabel(&mut block.cells, v) > 0
}

/// Excess of a node leaves in a parcel along one of its directions to other blocks: as much as the
/// direction can carry. `v` is the node's place in the block, and `j` that of the direction.
/// Answers yes if the event is enabled and the way has room, and then does it. Else it answers no,
/// and nothing changes. Takes no memory.
pub fn send<W: Ways>(block: &mut Block, ways: &mut W, v: usize, j: usize) -> bool
    ensures identity { W.identity ways.new ≡ W.identity ways.old }
    ensures sent { MatchBool result
        (Performs block.old (W.seen ways.old) (Send v j) block.new (W.seen ways.new))
        ((¬ IsSure block.old (W.seen ways.old) (Send v j))
        × IsUnchanged block.old (W.seen ways.old) block.new (W.seen ways.new)) }
{
    if v >= block.cells.len() || !block.cells.is_active(v) {
        return false;
    }
    let (first, end) = block.cells.border_range(v);
    if j < first || end <= j {
        return false;
    }
    try_send(&mut block.cells, ways, v, j) > 0
}

/// Takes the parcel in front from another block, or sends it back, and puts the answer. Answers yes
/// if one of the two is enabled and the way back has room. Else it answers no, and nothing changes.
/// Takes no memory.
pub fn receive<W: Ways>(block: &mut Block, ways: &mut W, from: u32) -> bool
    ensures identity { W.identity ways.new ≡ W.identity ways.old }
    ensures received { MatchBool result
        (HasReceived block.old (W.seen ways.old) from block.new (W.seen ways.new))
        (((l : Letter) → (¬ IsSure block.old (W.seen ways.old) (Accept from l))
        × (¬ IsSure block.old (W.seen ways.old) (Refuse from l)))
        × IsUnchanged block.old (W.seen ways.old) block.new (W.seen ways.new)) }
{
    let Some(letter) = ways.front(from) else {
        return false;
    };
    let Message::Parcel {
        direction,
        amount,
        label,
    } = letter.message
    else {
        return false;
    };
    let cells = &mut block.cells;
    receive_parcel(cells, ways, from, letter.place, direction, amount, label) > 0
}

/// Takes the answer in front from another block. Its flight is over, and what a refused parcel had
/// comes back. Answers yes if that is enabled. Else it answers no, and nothing changes. Takes no
/// memory.
pub fn settle<W: Ways>(block: &mut Block, ways: &mut W, from: u32) -> bool
    ensures identity { W.identity ways.new ≡ W.identity ways.old }
    ensures ended { MatchBool result
        (HasSettled block.old (W.seen ways.old) from block.new (W.seen ways.new))
        (((l : Letter) → ¬ IsSure block.old (W.seen ways.old) (Settle from l))
        × IsUnchanged block.old (W.seen ways.old) block.new (W.seen ways.new)) }
{
    let Some(letter) = ways.front(from) else {
        return false;
    };
    let cells = &mut block.cells;
    let place = letter.place;
    match letter.message {
        Message::Parcel { .. } => false,
        Message::Accepted { direction, amount } => {
            receive_accepted(cells, ways, from, place, direction, amount) > 0
        }
        Message::Refused {
            direction,
            amount,
            label,
            told,
        } => {
            let flight = Flight { amount, label };
            receive_refused(cells, ways, from, place, direction, flight, told) > 0
        }
    }
}
