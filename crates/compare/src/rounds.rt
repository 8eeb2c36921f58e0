// Rows by rounds: rows that are repeated endlessly, so that they stand on a ring.
use crate::digits::cells_of;
use crate::nexts::Pieces;
use std::alloc::{AllocError, Global};

// Two different rows that, repeated endlessly, have the same next row.
#[derive(Drop)]
pub struct Rounds {
    pub one: Vec<u32>,
    pub other: Vec<u32>,
}

// The first two rows, as long as the pieces' next rows, that have one next row on the ring.
pub fn find_rounds(heap: Global, pieces: Pieces) -> Result<Option<Rounds>, AllocError> {
    let mut firsts = vec![in heap; None; pieces.rows()]?;
    // A `for`, which carries the `?` out of the search.
    for row in 0..pieces.rows() {
        if let Some(first) = same_next(pieces, row, firsts.as_mut_slice()) {
            return Ok(Some(Rounds {
                one: cells_of(heap, pieces.kinds, pieces.next_length, first)?,
                other: cells_of(heap, pieces.kinds, pieces.next_length, row)?,
            }));
        }
    }
    Ok(None)
}

// The first row with the same next row on the ring as `row`, if there is one before it; else `row` is noted as the first.
fn same_next(pieces: Pieces, row: usize, firsts: &mut [Option<usize>]) -> Option<usize> {
    let next = pieces.nexts.get(unroll(pieces, row))?;
    let first = *firsts.get_mut(*next as usize)?.get_or_insert(row);
    (first != row).then_some(first)
}

// The piece that is seen from a row on the ring: behind its last cell come its first ones again. The cell to come is the one
// that stands as many cells from the end as the row is long.
fn unroll(pieces: Pieces, row: usize) -> usize {
    let kinds = pieces.kinds as usize;
    let weight = kinds.saturating_pow(pieces.next_length.saturating_sub(1));
    (pieces.next_length..pieces.length).fold(row, |piece, _| {
        let cell = piece.checked_div(weight).unwrap_or(0) % kinds;
        piece.wrapping_mul(kinds).wrapping_add(cell)
    })
}
