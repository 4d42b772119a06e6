//! Between which blocks a direction leads.
ghost use Rattle.std.specs.Prelude.{◌≡◌, ◌<◌, ◌||◌, IfOk, false, length, map, replicate};
ghost use Rattle.block_rings.specs.Joining.{AreScanned, AreSquare, IsScanned, flag};

use crate::pile::Pile;
use block_net::Cells;
use std::alloc::{AllocError, Global};

/// So many flags, none of them set, in a list of the pile.
fn blank_flags(alloc: Global, pile: &mut Pile<bool>, blocks: usize) -> Result<Vec<bool>, AllocError>
    ensures { IfOk result (λ flags. flags.items ≡ replicate blocks false) }
{
    let mut flags = pile.take(alloc, blocks)?;
    flags.resize(blocks, false)?;
    Ok(flags)
}

/// For each block below `blocks` whether a direction of this block leads there. Directions that
/// lead to no block below `blocks` are passed over. The list is of the pile.
fn scan_cells(
    alloc: Global,
    pile: &mut Pile<bool>,
    cells: &Cells,
    blocks: usize,
) -> Result<Vec<bool>, AllocError>
    ensures { IfOk result (λ flags. IsScanned blocks cells.now flags.items) }
{
    let mut flags = blank_flags(alloc, pile, blocks)?;
    for j in 0..cells.borders() {
        let to = cells.border(j).to as usize;
        if to < blocks {
            flags[to] = true;
        }
    }
    Ok(flags)
}

/// Of each block the flags of the blocks that its directions lead to. Reads each direction once.
pub(crate) fn all_scanned(
    alloc: Global,
    pile: &mut Pile<bool>,
    cells: &[Cells],
) -> Result<Vec<Vec<bool>>, AllocError>
    ensures { IfOk result (λ rows. AreScanned cells.now (map (λ row. row.items) rows.items)) }
{
    let mut rows = Vec::with_capacity(alloc, cells.len())?;
    for b in 0..cells.len() {
        rows.push(scan_cells(alloc, pile, &cells[b], cells.len())?)?;
    }
    Ok(rows)
}

/// The flag of a row at a place.
fn flag_at(rows: &Vec<Vec<bool>>, b: usize, c: usize) -> bool
    requires square { AreSquare (length rows.now.items) (map (λ row. row.items) rows.now.items) }
    requires first { b < length rows.now.items }
    requires second { c < length rows.now.items }
    ensures { result ≡ flag (map (λ row. row.items) rows.now.items) b c }
{
    rows[b][c]
}

/// Whether a direction leads from the one block to the other, or back.
pub(crate) fn are_linked(rows: &Vec<Vec<bool>>, b: usize, c: usize) -> bool
    requires square { AreSquare (length rows.now.items) (map (λ row. row.items) rows.now.items) }
    requires first { b < length rows.now.items }
    requires second { c < length rows.now.items }
    ensures { let flags = map (λ row. row.items) rows.now.items in
        result ≡ (flag flags b c || flag flags c b) }
{
    flag_at(rows, b, c) || flag_at(rows, c, b)
}
