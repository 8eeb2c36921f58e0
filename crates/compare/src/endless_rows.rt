// Two rows that are told to have the same next row: they are run, with some copies of their ends.
use crate::compared::Rule;
use crate::digits::number_of;
use std::alloc::{AllocError, Global};
use std::iter::{once, repeat_n};

// How many cells the parts of a row have.
#[derive(Clone, Copy)]
pub struct Lengths {
    pub left: usize,
    pub middle: usize,
    pub right: usize,
}

// A row: the left part repeated endlessly, the middle, and the right part repeated endlessly.
#[derive(Clone, Copy)]
struct Row<'a> {
    left: &'a [u32],
    middle: &'a [u32],
    right: &'a [u32],
}

impl<'a> Row<'a> {
    // The row that the cells begin with, and the cells behind it.
    fn cut(lengths: Lengths, cells: &'a [u32]) -> Option<(Row<'a>, &'a [u32])> {
        let (left, rest) = cells.split_at_checked(lengths.left)?;
        let (middle, rest) = rest.split_at_checked(lengths.middle)?;
        let (right, rest) = rest.split_at_checked(lengths.right)?;
        Some((
            Row {
                left,
                middle,
                right,
            },
            rest,
        ))
    }

    // The middle, with so many copies of the ends.
    fn piece(self, heap: Global, copies: usize) -> Result<Vec<u32>, AllocError> {
        repeat_n(self.left, copies)
            .chain(once(self.middle))
            .chain(repeat_n(self.right, copies))
            .flatten()
            .copied()
            .collect(heap)
    }
}

// Whether the told cells are two rows, each by its parts of these lengths, that differ in their middles and have the same next
// row. With as many copies of the ends as a window has cells, every window of the endless rows is seen.
pub fn are_twins(
    heap: Global,
    rule: &Rule,
    lengths: Lengths,
    told: &[u32],
) -> Result<bool, AllocError> {
    let Some((one, rest)) = Row::cut(lengths, told) else {
        return Ok(false);
    };
    let Some((other, _)) = Row::cut(lengths, rest) else {
        return Ok(false);
    };
    if one.left.is_empty() || one.right.is_empty() || one.middle == other.middle {
        return Ok(false);
    }
    for copies in 0..=rule.wide as usize {
        if !same_next(heap, rule, one, other, copies)? {
            return Ok(false);
        }
    }
    Ok(true)
}

// Whether the next rows of the pieces with so many copies of the ends are the same.
fn same_next(
    heap: Global,
    rule: &Rule,
    one: Row,
    other: Row,
    copies: usize,
) -> Result<bool, AllocError> {
    let of_one = next_row(heap, rule, one.piece(heap, copies)?.as_slice())?;
    let of_other = next_row(heap, rule, other.piece(heap, copies)?.as_slice())?;
    Ok(of_one.is_some() && of_one == of_other)
}

// The next row of a piece, unless a cell is no kind.
fn next_row(heap: Global, rule: &Rule, piece: &[u32]) -> Result<Option<Vec<u32>>, AllocError> {
    piece
        .windows((rule.wide as usize).max(1))
        .map(|window| look_up(rule, window))
        .collect(heap)
}

fn look_up(rule: &Rule, window: &[u32]) -> Option<u32> {
    if window.iter().any(|cell| *cell >= rule.kinds) {
        return None;
    }
    rule.table.get(number_of(rule.kinds, window)).copied()
}
