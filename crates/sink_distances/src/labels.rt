//! The label of a node that is cut off from the sink.
ghost use Rattle.std.specs.Prelude.{◌≡◌};
ghost use Rattle.flow_network.specs.Cut.{IsNet};
ghost use Rattle.flow_network.specs.Progress.{top};

use flow_network::Graph;

/// The label of a node that is cut off from the sink: two more than there are nodes, which is above
/// the length of every path to the sink.
pub fn top_label(net: &Graph) -> u32
    ensures value { result ≡ top net.now }
    ensures limits { IsNet net.now }
{
    net.nodes() as u32 + 2
}
