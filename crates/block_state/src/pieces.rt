//! A state in its pieces.
ghost use Rattle.std.specs.Prelude.{◌≡◌, ◌+◌, ◌<◌, ◌≤◌, ℕ, length, slice_index, sum};
ghost use Rattle.flow_network.specs.Cut.{nodes};
ghost use Rattle.block_events.specs.States.{room_of};
ghost use Rattle.net_in_blocks.specs.Views.{blocks_in, IsLaid};
ghost use Rattle.block_state.specs.AllWays.{IsHeld};
ghost use Rattle.block_split.specs.Split.{whole_of};
ghost use Rattle.block_state.specs.Pieces.{state_in, given_by};

use crate::all_ways::AllWays;
use crate::state::State;
use block_split::Parts;
use flow_network::Net;

/// A state in its pieces, so that each block can be worked on by itself, and the ways between them.
///
/// `State::into_pieces` takes a state apart, and `Pieces::into_state` puts together what is a state
/// again.
#[derive(Drop)]
pub struct Pieces {
    /// The net.
    pub net: Net,
    /// Its blocks, and where each node and each direction stands in them.
    pub parts: Parts,
    /// The messages on the way.
    pub ways: AllWays,
    /// What the sink got.
    pub got: u64,
}

impl Pieces {
    /// The state that the pieces make, where each node and each direction has its place in them and
    /// the state is sound and its ways have room. Takes no memory.
    pub fn into_state(self) -> State
        requires laid { IsLaid (whole_of self.net self.parts) }
        requires held { IsHeld self.ways.rooms (state_in self) }
        ensures { result ≡ state_in self }
    {
        State::of_pieces(self)
    }

    /// What the sink got by what the blocks hold: of each node, what it could give the sink at the
    /// opening less what it still can. In a sound state that is what the sink got. Takes time
    /// linear in the number of nodes.
    pub fn sink_total(&self) -> u64
        requires laid { IsLaid (whole_of self.now.net self.now.parts) }
        requires rooms { (v : ℕ) → v < nodes self.now.net
            → room_of (state_in self.now) v ≤ slice_index self.now.net.sinks v }
        ensures { result + sum (state_in self.now).rooms ≡ sum self.now.net.sinks }
    {
        let mut given = 0;
        'each: for block in 0..self.parts.blocks.len() {
            given += given_in(&self.net, &self.parts, block);
        }
        given
    }
}

/// What the nodes of a block gave the sink. They follow one another, so that no node's block is
/// looked up.
fn given_in(net: &Net, parts: &Parts, block: usize) -> u64
    requires laid { IsLaid (whole_of net.now parts.now) }
    requires block { block < length parts.now.blocks.items }
    requires rooms { (v : ℕ) → v < nodes net.now
        → slice_index (blocks_in (whole_of net.now parts.now)).rooms v
        ≤ slice_index net.now.sinks v }
    ensures { result ≡ given_by (whole_of net.now parts.now) block }
{
    let cells = &parts.blocks[block];
    let sinks = net.sinks();
    let first = parts.firsts[block];
    let mut given = 0;
    'places: for place in 0..cells.len() {
        given += sinks[first + place] - cells.room(place);
    }
    given
}
