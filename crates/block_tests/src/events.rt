//! The six calls of a block, each where its event is enabled and where it is not, worked by hand by
//! the rules of push-relabel (Goldberg, Tarjan 1988, section 2), and a turn of one event.
use crate::building::{Row, net_of, parts_of};
use crate::ends::OneLetter;
use crate::rows::{expect, hold, take_ok};
use block_net::Cells;
use discharge::{Block, push_inner, push_sink, receive, relabel, send, settle, turn};
use parcel::{Direction, Flight, Letter, Message};
use std::process::Abort;

/// The one arc from its tail to its head.
const FORWARD: Direction = Direction {
    arc: 0,
    back: false,
};

/// An arc of capacity 4 from the first of two nodes to the second.
const ARC: &[Row] = &[(0, 1, 4)];

/// The blocks of two nodes with such an arc, of which the second can give the sink 3.
fn blocks_of(rt: &(impl Abort + AllocGlobal), sources: &[u64], blocks: usize) -> Vec<Cells> {
    let net = net_of(rt, sources, &[0, 3], ARC);
    parts_of(rt, &net, blocks).blocks
}

/// The last of a list of blocks, which it leaves.
fn last_of(rt: &(impl Abort + AllocGlobal), blocks: &mut Vec<Cells>) -> Block {
    let cells = blocks.pop().expect(rt, "a block");
    take_ok(rt, Block::new(rt.alloc(), cells))
}

/// A call within a block: of a node, and with it the place of one of the block's directions.
#[derive(Clone, Copy)]
enum Call {
    Push(usize, usize),
    Give(usize),
    Rise(usize),
}

/// What two nodes in one block hold: the excess and the label of each, what the second can still
/// give the sink, and what the arc can still carry to its head and back.
#[derive(Clone, Copy, PartialEq)]
struct Nodes {
    excess: [u64; 2],
    labels: [u32; 2],
    room: u64,
    residual: [u64; 2],
}

/// What the call answers.
fn answer_of(block: &mut Block, call: Call) -> bool {
    match call {
        Call::Push(v, j) => push_inner(block, v, j),
        Call::Give(v) => push_sink(block, v),
        Call::Rise(v) => relabel(block, v),
    }
}

/// What two nodes hold. The direction to the head is at the first place, and that back at the
/// second.
fn nodes_of(rt: &impl Abort, cells: &Cells) -> Nodes {
    hold(rt, cells.len() == 2);
    let (_, end) = cells.range(1);
    hold(rt, end == 2);
    Nodes {
        excess: [cells.excess(0), cells.excess(1)],
        labels: [cells.label(0), cells.label(1)],
        room: cells.room(1),
        residual: [cells.lane(0).residual, cells.lane(1).residual],
    }
}

/// What the two nodes hold at the opening.
const OPENING: Nodes = Nodes {
    excess: [5, 0],
    labels: [0, 0],
    room: 3,
    residual: [4, 0],
};

/// Calls that are not enabled at the opening: no label is above another, the first node cannot give
/// the sink anything, the second has no excess, and there is no third node.
const REFUSED: &[Call] = &[
    Call::Push(0, 0),
    Call::Push(2, 0),
    Call::Give(0),
    Call::Give(1),
    Call::Give(2),
    Call::Rise(1),
    Call::Rise(2),
];

/// And once the first node has risen.
const RISEN: Nodes = Nodes {
    labels: [1, 0],
    ..OPENING
};

/// A call that is enabled, what the nodes then hold, and calls that are not enabled there.
type Step = (Call, Nodes, &'static [Call]);

/// One after another. The label of a node that is cut off is 4.
const STEPS: &[Step] = &[
    // One above the head, to which the arc can carry 4.
    (
        Call::Rise(0),
        RISEN,
        // A second time, and along a direction that leaves the other node.
        &[Call::Rise(0), Call::Push(0, 1)],
    ),
    // As much as the arc can carry.
    (
        Call::Push(0, 0),
        Nodes {
            excess: [1, 4],
            labels: [1, 0],
            room: 3,
            residual: [0, 4],
        },
        // The arc is full, and to give the sink something a node needs the label 1.
        &[Call::Push(0, 0), Call::Give(1)],
    ),
    // One above the sink, which is lower than one above the tail.
    (
        Call::Rise(1),
        Nodes {
            excess: [1, 4],
            labels: [1, 1],
            room: 3,
            residual: [0, 4],
        },
        &[Call::Rise(1), Call::Push(1, 1)],
    ),
    // As much as the node can give the sink.
    (
        Call::Give(1),
        Nodes {
            excess: [1, 1],
            labels: [1, 1],
            room: 0,
            residual: [0, 4],
        },
        &[Call::Give(1), Call::Push(1, 1)],
    ),
    // Now only the way back is left.
    (
        Call::Rise(1),
        Nodes {
            excess: [1, 1],
            labels: [1, 2],
            room: 0,
            residual: [0, 4],
        },
        &[Call::Rise(1), Call::Push(1, 0)],
    ),
    // As much as the node has.
    (
        Call::Push(1, 1),
        Nodes {
            excess: [2, 0],
            labels: [1, 2],
            room: 0,
            residual: [1, 3],
        },
        &[Call::Push(1, 1), Call::Rise(1)],
    ),
    (
        Call::Rise(0),
        Nodes {
            excess: [2, 0],
            labels: [3, 2],
            room: 0,
            residual: [1, 3],
        },
        &[Call::Rise(0)],
    ),
    (
        Call::Push(0, 0),
        Nodes {
            excess: [1, 1],
            labels: [3, 2],
            room: 0,
            residual: [0, 4],
        },
        &[Call::Push(0, 0), Call::Push(1, 1)],
    ),
    // Nothing leads out of the first node: it is cut off, and rises no more.
    (
        Call::Rise(0),
        Nodes {
            excess: [1, 1],
            labels: [4, 2],
            room: 0,
            residual: [0, 4],
        },
        &[Call::Rise(0), Call::Push(0, 0)],
    ),
];

/// Whether the call answers this, after which the nodes hold this.
fn is_call(rt: &impl Abort, block: &mut Block, call: Call, answer: bool, wanted: Nodes) -> bool {
    answer_of(block, call) == answer && nodes_of(rt, block.cells()) == wanted
}

/// Whether each call answers no, and the nodes hold what they held.
fn are_noes(rt: &impl Abort, block: &mut Block, calls: &[Call], wanted: Nodes) -> bool {
    for call in calls {
        if !is_call(rt, block, *call, false, wanted) {
            return false;
        }
    }
    true
}

/// Whether the call of a step is enabled, and none of those that are not.
fn is_step(rt: &impl Abort, block: &mut Block, step: &Step) -> bool {
    is_call(rt, block, step.0, true, step.1) && are_noes(rt, block, step.2, step.1)
}

/// The two nodes in one block, of which the first gets 5.
fn one_block(rt: &(impl Abort + AllocGlobal)) -> Block {
    last_of(rt, &mut blocks_of(rt, &[5, 0], 1))
}

#[test]
fn events_within_a_block(rt: HostRuntime) {
    let mut block = one_block(&rt);
    hold(&rt, are_noes(&rt, &mut block, REFUSED, OPENING));
    for (place, step) in STEPS.iter().enumerate() {
        expect(&rt, place, is_step(&rt, &mut block, step));
    }
}

/// A turn of no event changes nothing. Of one event it does the only one that is enabled at the
/// opening: the first node rises to 1.
#[test]
fn turns_of_one_block(rt: HostRuntime) {
    let mut block = one_block(&rt);
    let mut ways = OneLetter::with(None);
    hold(&rt, turn(&mut block, &mut ways, 0) == 0);
    hold(&rt, nodes_of(&rt, block.cells()) == OPENING);
    hold(&rt, turn(&mut block, &mut ways, 1) == 1);
    hold(&rt, nodes_of(&rt, block.cells()) == RISEN);
    hold(&rt, ways.put.is_none() && ways.taken.is_none());
}

/// What a block of one node with one direction to another block holds: the excess and the label,
/// what the direction can still carry, the label known of its far end, and the parcel that is out.
#[derive(Clone, Copy, PartialEq)]
struct Edge {
    excess: u64,
    label: u32,
    residual: u64,
    known: u32,
    flight: Option<Flight>,
}

/// What such a block holds.
fn edge_of(rt: &impl Abort, cells: &Cells) -> Edge {
    hold(rt, cells.len() == 1 && cells.borders() == 1);
    let border = cells.border(0);
    Edge {
        excess: cells.excess(0),
        label: cells.label(0),
        residual: border.residual,
        known: border.known,
        flight: border.flight,
    }
}

/// Whether a block holds what is wanted.
fn holds(rt: &impl Abort, block: &Block, wanted: Edge) -> bool {
    edge_of(rt, block.cells()) == wanted
}

/// Two blocks of one node each. The first gets 4, which its arc can carry to the second, and that
/// gets 1 and can give the sink 3.
fn two_blocks(rt: &(impl Abort + AllocGlobal)) -> (Block, Block) {
    let mut blocks = blocks_of(rt, &[4, 1], 2);
    let second = last_of(rt, &mut blocks);
    (last_of(rt, &mut blocks), second)
}

/// What the first block holds once its node has risen, and once it has sent what it had.
const FIRST: Edge = Edge {
    excess: 4,
    label: 1,
    residual: 4,
    known: 0,
    flight: None,
};

const SENT: Edge = Edge {
    excess: 0,
    residual: 0,
    flight: Some(Flight {
        amount: 4,
        label: 1,
    }),
    ..FIRST
};

/// What the second block holds at the opening.
const SECOND: Edge = Edge {
    excess: 1,
    label: 0,
    residual: 0,
    known: 0,
    flight: None,
};

/// What a letter says.
#[derive(Clone, Copy, PartialEq)]
enum Content {
    /// An amount is offered, by a node with this label.
    Parcel(u64, u32),
    /// It was taken.
    Accepted(u64),
    /// It is sent back from the label that it met to a node with the label before that.
    Refused(u64, u32, u32),
}

/// What a letter about the arc says that names the first place; nothing of another.
fn content_of(letter: Option<Letter>) -> Option<Content> {
    let letter = letter?;
    let (direction, content) = match letter.message {
        Message::Parcel {
            direction,
            amount,
            label,
        } => (direction, Content::Parcel(amount, label)),
        Message::Accepted { direction, amount } => (direction, Content::Accepted(amount)),
        Message::Refused {
            direction,
            amount,
            label,
            told,
        } => (direction, Content::Refused(amount, label, told)),
    };
    if direction == FORWARD && letter.place == 0 {
        Some(content)
    } else {
        None
    }
}

/// What the letter says that was put for this block; nothing where another was asked.
fn content_for(ways: &OneLetter, to: u32) -> Option<Content> {
    if ways.put_for == to {
        content_of(ways.put)
    } else {
        None
    }
}

/// Whether no letter was put or taken.
fn are_unused(ways: &OneLetter) -> bool {
    ways.put.is_none() && ways.taken.is_none()
}

/// Whether the first block's node, which sends nothing from the label 0, rises to 1.
fn rises(rt: &impl Abort, block: &mut Block, ways: &mut OneLetter) -> bool {
    !send(block, ways, 0, 0) && relabel(block, 0) && holds(rt, block, FIRST)
}

/// Whether it sends nothing along a direction or from a node that is not there.
fn sends_nothing_else(block: &mut Block, ways: &mut OneLetter) -> bool {
    !send(block, ways, 0, 1) && !send(block, ways, 1, 0) && are_unused(ways)
}

/// Whether it sends all that it has, once.
fn sends_all(rt: &impl Abort, block: &mut Block, ways: &mut OneLetter) -> bool {
    send(block, ways, 0, 0) && holds(rt, block, SENT) && !send(block, ways, 0, 0)
}

/// The first block's letter to the second: a parcel of 4 with the label 1. Nothing else is sent.
fn send_parcel(rt: &impl Abort, block: &mut Block) -> Option<Letter> {
    let mut ways = OneLetter::with(None);
    hold(rt, rises(rt, block, &mut ways));
    hold(rt, sends_nothing_else(block, &mut ways));
    hold(rt, sends_all(rt, block, &mut ways));
    hold(rt, content_for(&ways, 1) == Some(Content::Parcel(4, 1)));
    ways.put
}

/// Whether nothing is taken where nothing came.
fn takes_nothing(rt: &impl Abort, block: &mut Block, other: u32, wanted: Edge) -> bool {
    let mut ways = OneLetter::with(None);
    !receive(block, &mut ways, other)
        && !settle(block, &mut ways, other)
        && are_unused(&ways)
        && holds(rt, block, wanted)
}

/// Whether a parcel that came from the first block ends no flight.
fn is_no_answer(block: &mut Block, ways: &mut OneLetter) -> bool {
    !settle(block, ways, 0) && ways.taken.is_none()
}

/// Whether it is taken or sent back, after which the block holds what is wanted.
fn is_received(rt: &impl Abort, block: &mut Block, ways: &mut OneLetter, wanted: Edge) -> bool {
    receive(block, ways, 0) && ways.taken.is_some() && holds(rt, block, wanted)
}

/// The second block's answer to a parcel from the first, where it says what is told.
fn answer_to(
    rt: &impl Abort,
    block: &mut Block,
    parcel: Option<Letter>,
    meeting: &Meeting,
) -> Option<Letter> {
    let mut ways = OneLetter::with(parcel);
    let is_right = is_no_answer(block, &mut ways)
        && is_received(rt, block, &mut ways, meeting.met)
        && content_for(&ways, 0) == Some(meeting.told);
    if is_right { ways.put } else { None }
}

/// Whether an answer that came from the second block is no parcel to take.
fn is_no_parcel(block: &mut Block, ways: &mut OneLetter) -> bool {
    !receive(block, ways, 1) && ways.taken.is_none()
}

/// Whether it ends the first block's flight, after which that block holds what is wanted.
fn ends_flight(rt: &impl Abort, block: &mut Block, answer: Option<Letter>, wanted: Edge) -> bool {
    let mut ways = OneLetter::with(answer);
    is_no_parcel(block, &mut ways)
        && settle(block, &mut ways, 1)
        && ways.taken.is_some()
        && ways.put.is_none()
        && holds(rt, block, wanted)
}

/// How a parcel from the label 1 meets the second block: whether its node rises first, what its
/// answer says, what the block then holds, and what the first block holds once the answer ended the
/// flight.
struct Meeting {
    rises: bool,
    told: Content,
    met: Edge,
    ended: Edge,
}

const MEETINGS: &[Meeting] = &[
    // The label 0 is one below: the parcel is taken. Its arc can then carry 4 back, and the label
    // known of the tail is 1.
    Meeting {
        rises: false,
        told: Content::Accepted(4),
        met: Edge {
            excess: 5,
            residual: 4,
            known: 1,
            ..SECOND
        },
        ended: Edge {
            flight: None,
            ..SENT
        },
    },
    // The label 1 is not below: the parcel is sent back, with the label that it met.
    Meeting {
        rises: true,
        told: Content::Refused(4, 1, 1),
        met: Edge { label: 1, ..SECOND },
        ended: Edge { known: 1, ..FIRST },
    },
];

/// Whether the second block, to which nothing came, is as the meeting begins.
fn is_ready(rt: &impl Abort, block: &mut Block, meeting: &Meeting) -> bool {
    takes_nothing(rt, block, 0, SECOND) && (!meeting.rises || relabel(block, 0))
}

/// Whether a parcel goes from the first block to the second, and the answer back.
fn do_meet(rt: &impl Abort, first: &mut Block, second: &mut Block, meeting: &Meeting) -> bool {
    let parcel = send_parcel(rt, first);
    if !takes_nothing(rt, first, 1, SENT) || !is_ready(rt, second, meeting) {
        return false;
    }
    let answer = answer_to(rt, second, parcel, meeting);
    answer.is_some() && ends_flight(rt, first, answer, meeting.ended)
}

/// Whether two new blocks do so.
fn is_meeting(rt: &(impl Abort + AllocGlobal), meeting: &Meeting) -> bool {
    let (mut first, mut second) = two_blocks(rt);
    do_meet(rt, &mut first, &mut second, meeting)
}

#[test]
fn parcels_are_taken_or_sent_back(rt: HostRuntime) {
    for (place, meeting) in MEETINGS.iter().enumerate() {
        expect(&rt, place, is_meeting(&rt, meeting));
    }
}
