//! The state of the blocks and messages after a round.
ghost use Rattle.std.specs.Prelude.{◌≡◌};
ghost use Rattle.net_in_blocks.specs.Views.{IsLaid};
ghost use Rattle.block_state.specs.AllWays.{IsHeld};
ghost use Rattle.block_split.specs.Split.{whole_of};
ghost use Rattle.rounds.specs.Together.{gathered_state};

use block_split::Parts;
use block_state::{AllWays, Pieces, State};
use flow_network::Net;

/// The state that the blocks show with the messages on the way. What the sink got is what the rooms
/// lack. Takes no memory.
pub(crate) fn put_together(net: Net, parts: Parts, ways: AllWays) -> State
    requires laid { IsLaid (whole_of net parts) }
    requires held { IsHeld ways.rooms (gathered_state net parts ways.messages) }
    ensures { result ≡ gathered_state net parts ways.messages }
{
    let mut pieces = Pieces {
        net,
        parts,
        ways,
        got: 0,
    };
    pieces.got = pieces.sink_total();
    pieces.into_state()
}
