//! For how many messages each way has room.
ghost use Rattle.std.specs.Prelude.{◌≡◌, ◌+◌, ◌<◌, ◌≤◌, IfOk, OnOk, length, replicate};
ghost use Rattle.std.specs.Prelude.{slice_index_or, []};
ghost use Rattle.flow_network.specs.Cut.{nodes};
ghost use Rattle.block_events.specs.States.{block_of};
ghost use Rattle.block_split.specs.Split.{node_blocks_made};
ghost use Rattle.block_state.specs.AllWays.{room_at};
ghost use Rattle.block_state.specs.Counting.{put_room, IsCounted};

use block_events::Direction;
use net_in_blocks::Blocks;
use std::alloc::{AllocError, Global};
use std::marker::Model;

/// For how many messages each way has to have room.
#[derive(Drop)]
pub struct Rooms {
    rows: Vec<Vec<usize>>,
}

impl Model for Rooms {
    ghost use Rattle.std.specs.Prelude.{List, ℕ, map};

    ghost Value = { List (List ℕ) };

    ghost view = { λ r. map (λ row. row.items) r.rows.items };
}

/// The block of a node, by the list of all.
fn node_block_in(blocks: &Blocks, node_blocks: &[u8], v: usize) -> usize
    requires some { 1 ≤ blocks.now.blocks }
    requires node_blocks { node_blocks.now ≡ node_blocks_made blocks.now.net blocks.now.blocks }
    requires node { v < nodes blocks.now.net }
    ensures value { result ≡ block_of blocks.now.net blocks.now.blocks v }
    ensures block { result < blocks.now.blocks }
{
    node_blocks[v] as usize
}

impl Rooms {
    /// No room between so many blocks.
    pub fn new(alloc: Global, blocks: usize) -> Result<Rooms, AllocError>
        ensures { IfOk result (λ rooms. rooms ≡ replicate blocks (replicate blocks 0)) }
    {
        let mut rows = Vec::with_capacity(alloc, blocks)?;
        'rows: for _row in 0..blocks {
            rows.push(vec![in alloc; 0; blocks]?)?;
        }
        Ok(Rooms { rows })
    }

    /// How many blocks.
    pub fn len(&self) -> usize
        ensures { result ≡ length self.now }
    {
        self.rows.len()
    }

    /// The rooms of the ways from a block.
    pub fn row(&self, from: usize) -> &[usize]
        requires { from < length self.now }
        ensures { result.now ≡ slice_index_or self.now from [] }
    {
        self.rows[from].as_slice()
    }

    /// A way has so much room from now on.
    fn set_room(&mut self, from: usize, to: usize, room: usize)
        requires from { from < length self.old }
        requires to { to < length (slice_index_or self.old from []) }
        ensures { self.new ≡ put_room self.old from to room }
    {
        self.rows[from][to] = room;
    }

    /// A way has room for two messages more. Refused where no list can have so much room.
    fn add_two(&mut self, from: usize, to: usize) -> Result<(), AllocError>
        requires from { from < length self.old }
        requires to { to < length (slice_index_or self.old from []) }
        ensures { OnOk result (self.new
            ≡ put_room self.old from to (room_at self.old from to + 2)) }
    {
        let room = self.row(from)[to];
        let Some(more) = room.checked_add(2) else {
            return Err(AllocError);
        };
        self.set_room(from, to, more);
        Ok(())
    }

    /// The ways between the blocks of an arc's ends have room for a message of each of its
    /// directions.
    fn count_arc(
        &mut self,
        blocks: &Blocks,
        node_blocks: &[u8],
        arc: usize,
    ) -> Result<(), AllocError>
        requires some { 1 ≤ blocks.now.blocks }
        requires node_blocks { node_blocks.now ≡ node_blocks_made blocks.now.net blocks.now.blocks }
        requires arc { arc < length blocks.now.net.arcs }
        requires counted { IsCounted blocks.now arc self.old }
        ensures { OnOk result (IsCounted blocks.now (arc + 1) self.new) }
    {
        let forward = Direction { arc, back: false };
        let from = node_block_in(blocks, node_blocks, blocks.near(forward));
        let to = node_block_in(blocks, node_blocks, blocks.far(forward));
        if from == to {
            return Ok(());
        }
        self.add_two(from, to)?;
        self.add_two(to, from)?;
        Ok(())
    }

    /// Each way has room for a message of each direction between its blocks. One block has no way
    /// to another, and no arc is read.
    pub fn count(alloc: Global, blocks: &Blocks) -> Result<Rooms, AllocError>
        ensures { IfOk result (IsCounted blocks.now (length blocks.now.net.arcs)) }
    {
        let mut rooms = Rooms::new(alloc, blocks.count())?;
        if blocks.count() == 1 {
            return Ok(rooms);
        }
        let node_blocks = blocks.node_blocks(alloc)?;
        'arcs: for arc in 0..blocks.arcs() {
            rooms.count_arc(blocks, node_blocks.as_slice(), arc)?;
        }
        Ok(rooms)
    }
}
