//! Nodes of many directions, as those are that stand for what labels cost.
ghost use Rattle.std.specs.Prelude.{◌≤◌};
ghost use Rattle.flow_network.specs.Cut.{nodes};
ghost use Rattle.sink_distances.specs.Rows.{IsRows};

use sink_distances::{Outline, Rows};

/// A node of more directions than this is wide.
const NARROW: u32 = 64;

/// Among the last nodes, one in so many of all, wide ones are looked for.
const NODES_A_WIDE_ONE: usize = 64;

/// How many nodes there are from the first wide one on, among the last nodes. Of these the solver
/// keeps where their pushes stopped: a wide node whose pushes each began at its first direction
/// would look at all directions that are used up once for each push.
pub fn count_wide(net: &Outline, rows: &Rows) -> usize
    requires rows { IsRows net.now rows.now }
    ensures { result ≤ nodes net.now }
{
    let nodes = net.nodes();
    let mut count = 0;
    'nodes: for behind in 0..nodes / NODES_A_WIDE_ONE {
        let v = nodes - 1 - behind;
        if rows.ends[v].saturating_sub(rows.starts[v]) > NARROW {
            count = behind + 1;
        }
    }
    count
}
