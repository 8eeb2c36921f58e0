// Ways back by trial: a place where all pieces of one next row have one cell.
use crate::nexts::Pieces;
use std::alloc::{AllocError, Global};

// A way back: its table has for each row of `width` cells the cell at `place` of every piece with that next row.
#[derive(Drop)]
pub struct WayBack {
    pub width: u32,
    pub place: u32,
    pub table: Vec<u32>,
}

// The first place that the next rows tell.
pub fn find_way_back(heap: Global, pieces: Pieces) -> Result<Option<WayBack>, AllocError> {
    // A `for`, which carries the `?` out of the search.
    for place in 0..pieces.length {
        if let Some(table) = told_cells(heap, pieces, place)? {
            return Ok(Some(WayBack {
                width: pieces.next_length,
                place,
                table,
            }));
        }
    }
    Ok(None)
}

// The cell at a place that each next row tells, unless two pieces of one next row have different cells there. A number that is no
// cell stands where no piece has the next row; such a row is found as an orphan as well.
fn told_cells(heap: Global, pieces: Pieces, place: u32) -> Result<Option<Vec<u32>>, AllocError> {
    let behind = pieces.length.saturating_sub(place).saturating_sub(1);
    let weight = pieces.kinds.saturating_pow(behind) as usize;
    if weight == 0 {
        return Ok(None);
    }
    let mut told = vec![in heap; None; pieces.rows()]?;
    for (piece, next) in pieces.nexts.iter().enumerate() {
        let cell = (piece / weight % pieces.kinds as usize) as u32;
        if let Some(first) = told.get_mut(*next as usize)
            && *first.get_or_insert(cell) != cell
        {
            return Ok(None);
        }
    }
    let table = told.iter().map(|cell| cell.unwrap_or(pieces.kinds));
    Ok(Some(table.collect(heap)?))
}
