// Orphans by trial: a row is one where no piece has it as its next row.
use crate::digits::cells_of;
use crate::nexts::Pieces;
use std::alloc::{AllocError, Global};

// The first row, by its digits, that is the next row of none of the pieces.
pub fn find_orphan(heap: Global, pieces: Pieces) -> Result<Option<Vec<u32>>, AllocError> {
    let mut marks = vec![in heap; false; pieces.rows()]?;
    mark_nexts(pieces, marks.as_mut_slice());
    let first = marks.iter().position(|mark| !*mark);
    first
        .map(|row| cells_of(heap, pieces.kinds, pieces.next_length, row))
        .transpose()
}

fn mark_nexts(pieces: Pieces, marks: &mut [bool]) {
    for next in pieces.nexts {
        if let Some(mark) = marks.get_mut(*next as usize) {
            *mark = true;
        }
    }
}
