//! Nets split into blocks.
use crate::building::{net_of, parts_of};
use crate::rows::{expect, hold};
use block_net::Border;
use block_split::Parts;
use parcel::Direction;
use std::process::Abort;

/// A number of blocks, and of each block the number of its nodes and of its directions to other
/// blocks.
type Sizes = (usize, &'static [usize], &'static [usize]);

/// The parts of a chain from node 0 over node 1 to node 2, with a fourth node apart.
const SIZES: &[Sizes] = &[
    (1, &[4], &[0]),
    (2, &[2, 2], &[1, 1]),
    (3, &[2, 1, 1], &[1, 1, 0]),
    (6, &[1, 1, 0, 1, 1, 0], &[1, 2, 0, 1, 0, 0]),
];

/// The chain in so many blocks.
fn chain_in(rt: &(impl Abort + AllocGlobal), blocks: usize) -> Parts {
    let net = net_of(rt, &[4, 0, 0, 0], &[0, 0, 1, 0], &[(0, 1, 4), (1, 2, 4)]);
    parts_of(rt, &net, blocks)
}

/// Whether the blocks have so many nodes and so many directions to other blocks.
fn are_sizes(parts: &Parts, nodes: &[usize], borders: &[usize]) -> bool {
    if parts.blocks.len() != nodes.len() || parts.blocks.len() != borders.len() {
        return false;
    }
    for (index, block) in parts.blocks.iter().enumerate() {
        if block.len() != nodes[index] || block.borders() != borders[index] {
            return false;
        }
    }
    true
}

#[test]
fn a_chain_in_blocks(rt: HostRuntime) {
    for (place, sizes) in SIZES.iter().enumerate() {
        let parts = chain_in(&rt, sizes.0);
        expect(&rt, place, are_sizes(&parts, sizes.1, sizes.2));
    }
}

/// Whether a direction is that back along the second arc, from the first node of its block to block
/// 0, and carries nothing yet.
fn is_way_back(border: &Border) -> bool {
    border.direction == Direction { arc: 1, back: true }
        && border.near == 0
        && border.to == 0
        && border.capacity == 4
        && border.residual == 0
}

#[test]
fn the_border_of_two_blocks(rt: HostRuntime) {
    let parts = chain_in(&rt, 2);
    hold(&rt, parts.firsts.as_slice() == [0, 2].as_slice());
    hold(&rt, parts.blocks.len() == 2);
    let block = &parts.blocks[1];
    hold(&rt, block.borders() == 1 && block.top() == 6);
    hold(&rt, is_way_back(&block.border(0)));
}
