//! Rings between all blocks that have a direction between them.
ghost use Rattle.std.specs.Prelude.{◌≡◌, ◌+◌, ◌^◌, ◌<◌, [], IfOk, OnOk, length, map};
ghost use Rattle.std.specs.Prelude.{replicate, vec_len, slice_index_or};
ghost use Rattle.block_workers.specs.Ends.{ports};
ghost use Rattle.block_workers.specs.Seeing.{AreRising};
ghost use Rattle.block_rings.specs.Joined.{AreJoined};
ghost use Rattle.block_rings.specs.Joining.{AreBegun, AreSquare, HasPair};

use crate::kept_rings::ports_between;
use crate::linked_blocks::{all_scanned, are_linked};
use crate::pair::PortPair;
use crate::pile::Pile;
use crate::stock::Stock;
use block_net::Cells;
use block_workers::{Ends, Port};
use std::alloc::{AllocError, Global};

/// Two blocks get rings to one another, of the kept ones or new: each a port more. The only error
/// is that memory runs out.
fn join_two(
    alloc: Global,
    kept: &mut Vec<PortPair>,
    lists: &mut Vec<Vec<Port>>,
    b: u32,
    c: u32,
    ring: usize,
) -> Result<(), AllocError>
    requires order { b < c }
    requires blocks { c < vec_len lists.old }
    ensures { OnOk result (HasPair ring b c (map (λ l. l.items) lists.old.items)
        (map (λ l. l.items) lists.new.items)) }
{
    let (first, second) = ports_between(alloc, kept, b, c, ring)?;
    lists[b as usize].push(first)?;
    lists[c as usize].push(second)?;
    Ok(())
}

/// Block c gets rings to those blocks before it to which or from which a direction of it leads.
fn join_row(
    alloc: Global,
    kept: &mut Vec<PortPair>,
    rows: &Vec<Vec<bool>>,
    lists: &mut Vec<Vec<Port>>,
    c: u32,
    ring: usize,
) -> Result<(), AllocError>
    requires square { AreSquare (length rows.now.items) (map (λ row. row.items) rows.now.items) }
    requires few { length rows.now.items < 2 ^ 32 }
    requires block { c < length rows.now.items }
    requires begun { AreBegun ring (length rows.now.items) 0 c
        (map (λ row. row.items) rows.now.items)
        (map (λ l. l.items) lists.old.items) }
    ensures { OnOk result (AreBegun ring (length rows.now.items) 0 (c + 1)
        (map (λ row. row.items) rows.now.items) (map (λ l. l.items) lists.new.items)) }
{
    for b in 0..c {
        if are_linked(rows, b as usize, c as usize) {
            join_two(alloc, kept, lists, b, c, ring)?;
        }
    }
    Ok(())
}

/// So many blocks with no port. The lists are of the pile.
fn empty_lists(
    alloc: Global,
    pile: &mut Pile<Port>,
    blocks: usize,
) -> Result<Vec<Vec<Port>>, AllocError>
    ensures { IfOk result (λ lists. map (λ l. l.items) lists.items ≡ replicate blocks []) }
{
    let mut lists = Vec::with_capacity(alloc, blocks)?;
    for _block in 0..blocks {
        lists.push(pile.take(alloc, 0)?)?;
    }
    Ok(lists)
}

/// The ports of all blocks: two rings for each two between which a direction leads. The lists and
/// what rings serve again are of the stock. Rings are asked for by rising numbers of the higher
/// block, then of the lower one: so the next that serves is the last of the stock.
fn join_rows(
    alloc: Global,
    stock: &mut Stock,
    rows: &Vec<Vec<bool>>,
    ring: usize,
) -> Result<Vec<Vec<Port>>, AllocError>
    requires square { AreSquare (length rows.now.items) (map (λ row. row.items) rows.now.items) }
    requires few { length rows.now.items < 2 ^ 32 }
    ensures { IfOk result (λ lists. let blocks = length rows.now.items in
        AreBegun ring blocks 0 blocks (map (λ row. row.items) rows.now.items)
        (map (λ l. l.items) lists.items)) }
{
    let mut lists = empty_lists(alloc, &mut stock.piles.ports, rows.len())?;
    for c in 0..rows.len() as u32 {
        join_row(alloc, &mut stock.pairs, rows, &mut lists, c, ring)?;
    }
    Ok(lists)
}

/// Ends with these ports, of each block. The lists of places are of the pile.
fn ends_of(
    alloc: Global,
    pile: &mut Pile<u32>,
    lists: Vec<Vec<Port>>,
    blocks: u32,
) -> Result<Vec<Ends>, AllocError>
    requires { (b : _) → AreRising blocks (slice_index_or (map (λ l. l.items) lists.items) b []) }
    ensures { IfOk result (λ ends. map (λ e. ports e) ends.items ≡ map (λ l. l.items) lists.items) }
{
    let mut all = Vec::with_capacity(alloc, lists.len())?;
    for list in lists {
        let room = pile.take(alloc, 0)?;
        all.push(Ends::in_room(list, blocks, room)?)?;
    }
    Ok(all)
}

/// Of each block the ends of its rings to the others: for each two blocks between which a direction
/// leads two rings, one each way, with room for `ring` letters each. Directions to no block of
/// these are passed over. The only error is that memory runs out.
///
/// Takes time linear in the number of directions between blocks and in the square of that of the
/// blocks.
pub fn join_all(alloc: Global, cells: &[Cells], ring: usize) -> Result<Vec<Ends>, AllocError>
    requires { length cells.now < 2 ^ 32 }
    ensures { IfOk result (λ ends. AreJoined ring cells.now (map (λ e. ports e) ends.items)) }
{
    join_by(alloc, &mut Stock::none(alloc), cells, ring)
}

/// The lists of flags go to their pile. Takes no memory.
fn keep_flags(pile: &mut Pile<bool>, rows: Vec<Vec<bool>>) {
    for row in rows {
        pile.keep(row);
    }
}

/// The same by lists and rings of a stock.
pub fn join_by(
    alloc: Global,
    stock: &mut Stock,
    cells: &[Cells],
    ring: usize,
) -> Result<Vec<Ends>, AllocError>
    requires { length cells.now < 2 ^ 32 }
    ensures { IfOk result (λ ends. AreJoined ring cells.now (map (λ e. ports e) ends.items)) }
{
    let rows = all_scanned(alloc, &mut stock.piles.flags, cells)?;
    let lists = join_rows(alloc, stock, &rows, ring)?;
    let ends = ends_of(alloc, &mut stock.piles.places, lists, cells.len() as u32)?;
    keep_flags(&mut stock.piles.flags, rows);
    Ok(ends)
}
