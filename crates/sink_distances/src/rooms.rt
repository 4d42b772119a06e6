//! Whether numbers can be what nodes can still give the sink.
ghost use Rattle.std.specs.Prelude.{◌↔◌, IsTrue};
ghost use Rattle.flow_network.specs.Preflow.{AreRooms};

use flow_network::Net;

/// Whether the numbers can be what each node can still give the sink, the condition of
/// `write_distances`: one for each node, none above what the node can give the sink at all. It may
/// be asked of any numbers.
pub fn are_rooms(net: &Net, rooms: &[u64]) -> bool
    ensures { IsTrue result ↔ AreRooms net.now rooms.now }
{
    if rooms.len() != net.nodes() {
        return false;
    }
    let sinks = net.sinks();
    'nodes: for v in 0..rooms.len() {
        if sinks[v] < rooms[v] {
            return false;
        }
    }
    true
}
