//! A block with its ends for each place of a round.
ghost use Rattle.std.specs.Prelude.{◌≡◌, ◌<◌, ◌≤◌, ◌^◌, IfOk, OnOk, map, vec_capacity, vec_len};
ghost use Rattle.flow_network.specs.Limits.{node_limit};
ghost use Rattle.block_net.specs.Views.{count};
ghost use Rattle.block_workers.specs.Turns.{IsNewSeat};
ghost use Rattle.rounds.specs.Seated.{AreSeated, AreBlocksSmall, blocks_of, ends_of_seats};
ghost use Rattle.rounds.specs.Seated.{ports_of};

use crate::turned::{take_next, turn_round};
use block_discharge::Block;
use block_net::Cells;
use block_rings::{Pile, Piles};
use block_workers::{Ends, Port, Seat};
use std::alloc::{AllocError, Global};

/// A round makes one new label for so many nodes, and each block its part of them. In a round no
/// labels become exact, and what was cut off from the sink in it climbs by new labels that are done
/// in vain.
const NODES_A_RISE: usize = 4;

/// A block before its first turn, with its ends. Its turns together make one new label for
/// `NODES_A_RISE` of its nodes, the first of them as many as they can: then a turn takes its
/// messages and does one event. The block gets a list for its room.
fn seat_of(
    alloc: Global,
    number: u32,
    cells: Cells,
    ends: Ends,
    room: Vec<u32>,
) -> Result<Seat, AllocError>
    requires { count cells ≤ node_limit }
    ensures { IfOk result (λ seat. IsNewSeat number cells ends seat) }
{
    let nodes = cells.len() as u32;
    let rises = cells.len() / NODES_A_RISE;
    let block = Block::in_room(alloc, cells, Vec::new(alloc), usize::MAX, rises, room)?;
    Ok(Seat::new(number, block, nodes, ends))
}

/// The blocks before their first turn, each with its ends and a list of the pile. The list of seats
/// loses what it has. The only error is that memory runs out.
pub(crate) fn seats_of(
    alloc: Global,
    pile: &mut Pile<u32>,
    seats: &mut Vec<Seat>,
    blocks: Vec<Cells>,
    ends: Vec<Ends>,
) -> Result<(), AllocError>
    requires many { vec_len ends ≡ vec_len blocks }
    requires few { vec_len blocks < 2 ^ 32 }
    requires small { AreBlocksSmall blocks.items }
    ensures { OnOk result (AreSeated blocks.items ends.items seats.new.items) }
{
    seats.clear();
    seats.reserve(blocks.len())?;
    let mut rest = ends.into_iter();
    let mut number = 0;
    for cells in blocks {
        let Some(ends) = rest.next() else {
            unreachable!()
        };
        let room = pile.take(alloc, 0)?;
        seats.push_reserved(seat_of(alloc, number, cells, ends, room)?);
        number += 1;
    }
    Ok(())
}

/// The blocks of seats, and of each block the ports. Both go into room that was made before. The
/// lists that are left go to their piles. No seat is left, and the list keeps its room.
pub(crate) fn apart(
    seats: &mut Vec<Seat>,
    blocks: &mut Vec<Cells>,
    lists: &mut Vec<Vec<Port>>,
    piles: &mut Piles,
)
    requires no_block { vec_len blocks.old ≡ 0 }
    requires no_list { vec_len lists.old ≡ 0 }
    requires blocks { vec_len seats.old ≤ vec_capacity blocks.old }
    requires lists { vec_len seats.old ≤ vec_capacity lists.old }
    ensures blocks { blocks.new.items ≡ blocks_of seats.old.items }
    ensures lists { map (λ l. l.items) lists.new.items
        ≡ ports_of (ends_of_seats seats.old.items) }
{
    turn_round(seats);
    let count = seats.len();
    for _seat in 0..count {
        let (block, ends) = take_next(seats).into_parts();
        let (cells, others) = block.into_parts();
        let (ports, places) = ends.into_parts();
        blocks.push_reserved(cells);
        lists.push_reserved(ports);
        piles.others.keep(others);
        piles.places.keep(places);
    }
}
