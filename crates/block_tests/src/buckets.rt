//! The active nodes of a block by their labels, and set aside.
ghost use Rattle.std.specs.Prelude.{◌≡◌};
ghost use Rattle.discharge.specs.Views.{count};

use crate::building::{net_of, parts_of};
use crate::rows::{hold, take_ok};
use block_discharge::Bucketed;
use block_net::Cells;
use std::alloc::{AllocError, Global};
use std::process::Abort;

/// Four nodes in one block. Each has excess but the second; the third can give the sink 3.
fn four_nodes(rt: &(impl Abort + AllocGlobal)) -> Cells
    ensures count { count result ≡ 4 }
    ensures top { result.top ≡ 6 }
{
    let net = net_of(rt, &[5, 0, 3, 2], &[0, 0, 3, 0], &[]);
    let mut parts = parts_of(rt, &net, 1);
    let cells = parts.blocks.pop().expect(rt, "a block");
    hold(rt, cells.len() == 4);
    hold(rt, cells.top() == 6);
    cells
}

/// The active nodes from the highest bucket down, each of which is set aside.
fn set_aside_all(alloc: Global, block: &mut Bucketed) -> Result<Vec<usize>, AllocError> {
    let mut order = Vec::new(alloc);
    for _node in 0..block.len() {
        let Some(node) = block.highest() else {
            return Ok(order);
        };
        block.set_aside(node);
        order.push(node)?;
    }
    Ok(order)
}

/// Whether these are the active nodes from the highest bucket down. Each is set aside.
fn stand_in_order(rt: &(impl Abort + AllocGlobal), block: &mut Bucketed, order: &[usize]) -> bool {
    take_ok(rt, set_aside_all(rt.alloc(), block)).as_slice() == order
}

/// Of four nodes the second has no excess, and the last is cut off; then the third gives the sink
/// what it has. The rows go with the block: a second time they are taken as they were left.
#[test]
fn active_nodes_by_their_labels(rt: HostRuntime) {
    let mut block = take_ok(&rt, Bucketed::new(rt.alloc(), four_nodes(&rt)));
    block.relabel(2, 3);
    block.relabel(3, 6);
    hold(&rt, stand_in_order(&rt, &mut block, &[2, 0]));
    block.restore_aside();
    hold(&rt, block.len() == 4);
    hold(&rt, block.highest() == Some(2));
    hold(&rt, block.excess(2) == 3 && block.room(2) == 3);
    block.give(2);
    hold(&rt, block.highest() == Some(0));
    let mut again = take_ok(&rt, Bucketed::new(rt.alloc(), block.into_cells()));
    hold(&rt, stand_in_order(&rt, &mut again, &[0]));
}
