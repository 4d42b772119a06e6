//! A block with what its turns need, and its turn.
ghost use Rattle.std.specs.Prelude.{◌≡◌, ◌<◌, ◌≤◌, IfOk};
ghost use Rattle.block_net.specs.Views.{count};
ghost use Rattle.block_discharge.specs.Steps.{IsSure, Step, DoesMany, turn_view};
ghost use Rattle.block_discharge.specs.Turns.{IsKnown};

use crate::active_nodes::{push_wave, work};
use crate::messages::receive_all;
use crate::{Bucketed, Ways};
use block_net::Cells;
use std::alloc::{AllocError, Global};
use std::marker::Model;

/// A block whose active nodes stand in buckets, the blocks that its directions lead to, the order
/// from whose end its nodes pass on what they have in its next turn, the number of new labels after
/// more than which each of its turns ends, and how many are left for all its turns.
#[derive(Drop)]
pub struct Block {
    pub(crate) cells: Bucketed,
    others: Vec<u32>,
    order: Vec<u32>,
    most_rises: usize,
    rises_left: usize,
}

impl Model for Block {
    ghost use Rattle.block_net.specs.Views.{CellsView};
    ghost use Rattle.block_discharge.specs.Turns.{IsKnown};

    ghost Value = { CellsView };

    ghost view = { λ b. b.cells.block };

    ghost invariant = { λ b. IsKnown b.cells.block b.others.items };
}

/// The blocks that the directions of a block lead to, each once, in a list that loses what it has.
fn others_of(cells: &Cells, room: Vec<u32>) -> Result<Vec<u32>, AllocError>
    ensures { IfOk result (λ others. IsKnown cells.now others.items) }
{
    let mut all = room;
    all.clear();
    all.reserve(cells.borders())?;
    'borders: for j in 0..cells.borders() {
        all.push_reserved(cells.border(j).to);
    }
    all.sort_unstable();
    all.dedup();
    Ok(all)
}

impl Block {
    /// A block, whose nodes that have excess and are not cut off stand in buckets, with no order
    /// and no bound on new labels. Refuses only where memory runs out.
    pub fn new(alloc: Global, cells: Cells) -> Result<Block, AllocError>
        ensures { IfOk result (λ block. block ≡ cells) }
    {
        Block::with_order(alloc, cells, Vec::new(alloc), usize::MAX, usize::MAX)
    }

    /// The same with an order and two bounds, which guide the block's turns. Any are right: what
    /// `turn` promises does not depend on them, and no clause says which events a turn does. In its
    /// first turn the nodes of the order, numbered from the block's first node, pass on what they
    /// have before others, and the order is walked from its end: best are the nearest to the sink
    /// first in it, as a search from the sink finds them, so that each node has got all that comes
    /// to it. What is no node is passed over. Each turn ends after more than `most_rises` new
    /// labels, too: where labels become exact again soon, more of them are done in vain. There are
    /// `all_rises` of them for all turns together: once they are done, each turn takes its messages
    /// and does one event of its nodes.
    pub fn with_order(
        alloc: Global,
        cells: Cells,
        order: Vec<u32>,
        most_rises: usize,
        all_rises: usize,
    ) -> Result<Block, AllocError>
        ensures { IfOk result (λ block. block ≡ cells) }
    {
        Block::in_room(alloc, cells, order, most_rises, all_rises, Vec::new(alloc))
    }

    /// The same, and the blocks that its directions lead to are kept in this list, which loses what
    /// it has. Asks for no memory where the list and the block have room.
    pub fn in_room(
        alloc: Global,
        cells: Cells,
        order: Vec<u32>,
        most_rises: usize,
        all_rises: usize,
        room: Vec<u32>,
    ) -> Result<Block, AllocError>
        ensures { IfOk result (λ block. block ≡ cells) }
    {
        let others = others_of(&cells, room)?;
        let bucketed = Bucketed::new(alloc, cells)?;
        Ok(Block {
            cells: bucketed,
            others,
            order,
            most_rises,
            rises_left: all_rises,
        })
    }

    /// The block itself, whose readers tell its excess, labels, residuals and borders.
    pub fn cells(&self) -> &Cells
        ensures { result.now ≡ self.now }
    {
        self.cells.cells()
    }

    /// The block alone. Takes no memory.
    pub fn into_cells(self) -> Cells
        ensures { result ≡ self }
    {
        self.cells.into_cells()
    }

    /// The block, and a list for the next. Takes no memory.
    pub fn into_parts(self) -> (Cells, Vec<u32>)
        ensures { result.0 ≡ self }
    {
        (self.cells.into_cells(), self.others)
    }
}

/// How many events the nodes of a block may do in a turn that has so many left: one, where no new
/// label is left for its turns.
fn events_left(rises_left: usize, limit: u32) -> u32
    ensures few { result ≤ limit }
    ensures some { 0 < limit → 0 < result }
{
    if rises_left == 0 {
        return u32::min(limit, 1);
    }
    limit
}

/// Does a list of the block's own enabled events and answers how many: at most `limit`, and at
/// least one where an event is enabled, room is seen for what it puts, and what it takes is seen in
/// front. The block has as many nodes as before. Takes no memory.
///
/// First the messages that came are taken, as long as they are enabled; then, in its first turn,
/// the nodes of the block's order pass on what they have, the last of it first; then the active
/// nodes are discharged, those of the highest label first (Goldberg, Tarjan 1988, section 4), until
/// each is set aside, there are `limit` events, or more new labels than the block was made for;
/// where none are left for all its turns, one event is done. A node is set aside where it has no
/// enabled event, and where it got a new label: what can not reach the sink would rise again and
/// again before what can. Where each turn has a bound of new labels of its own, all nodes stand
/// again once each is set aside, if some got new labels since they stood last: so the turn goes on
/// to its bound, and exact labels are asked for less often. Where there is none, blocks hear from
/// one another before their nodes rise again.
pub fn turn<W: Ways>(block: &mut Block, ways: &mut W, limit: u32) -> u32
    ensures identity { W.identity ways.new ≡ W.identity ways.old }
    ensures few { result ≤ limit }
    ensures does { DoesMany (turn_view block.old (W.seen ways.old)) result
        (turn_view block.new (W.seen ways.new)) }
    ensures some { 0 < limit → (e : Step) → IsSure block.old (W.seen ways.old) e → 0 < result }
    ensures nodes { count block.new ≡ count block.old }
{
    block.cells.restore_aside();
    let takes = receive_all(&mut block.cells, ways, block.others.as_slice(), limit);
    let pushes = push_wave(
        &mut block.cells,
        ways,
        block.order.as_slice(),
        limit - takes,
    );
    block.order.clear();
    let (rest, rises) = work(
        &mut block.cells,
        ways,
        events_left(block.rises_left, limit - takes - pushes),
        usize::min(block.most_rises, block.rises_left),
        block.most_rises < usize::MAX,
    );
    block.rises_left = block.rises_left.saturating_sub(rises as usize);
    takes + pushes + rest
}
