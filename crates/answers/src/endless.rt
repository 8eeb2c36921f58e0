// Endless rows, by their parts, and the pieces of them that are looked at.
ghost use Rattle.std.specs.Prelude.{◌≡◌, take, drop, IfOk};
ghost use Rattle.rules.specs.Rules.{copies, part};
ghost use Rattle.answers.specs.Endless.{behind, row_of, row_at};

use std::alloc::{AllocError, Global};
use twins::Lengths;

// What a row has again and again to the left, its middle, and what it has again and again to the right.
#[derive(Clone, Copy)]
pub struct EndlessRow<'a> {
    pub left: &'a [u32],
    pub mid: &'a [u32],
    pub right: &'a [u32],
}

impl EndlessRow<'_> {
    // The middle with so many copies on either side.
    pub fn piece(self, heap: Global, copies: usize) -> Result<Vec<u32>, AllocError>
        ensures { IfOk result (λ v. v.items ≡ part (row_of self.entry) copies) }
    {
        let mut piece = self.left.repeat(heap, copies)?;
        let right = self.right.repeat(heap, copies)?;
        piece.extend_from_slice(self.mid)?;
        piece.extend_from_slice(right.as_slice())?;
        Ok(piece)
    }
}

// Two rows that stand first in `out`, one behind the other, by the lengths that their parts have.
pub fn two_rows(lengths: Lengths, out: &[u32]) -> (EndlessRow<'_>, EndlessRow<'_>)
    ensures first { row_of result.0 ≡ row_at lengths.left lengths.mid lengths.right out.now }
    ensures second { row_of result.1 ≡ row_at lengths.left lengths.mid lengths.right (behind lengths.left lengths.mid lengths.right out.now) }
{
    let (first, rest) = split_row(lengths, out);
    let (second, _) = split_row(lengths, rest);
    (first, second)
}

// The row that stands first in the cells, and the cells behind it.
fn split_row(lengths: Lengths, cells: &[u32]) -> (EndlessRow<'_>, &[u32])
    ensures row { row_of result.0 ≡ row_at lengths.left lengths.mid lengths.right cells.now }
    ensures rest { result.1.now ≡ behind lengths.left lengths.mid lengths.right cells.now }
{
    let (left, cells) = split_front(cells, lengths.left);
    let (mid, cells) = split_front(cells, lengths.mid);
    let (right, cells) = split_front(cells, lengths.right);
    (EndlessRow { left, mid, right }, cells)
}

// So many cells from the front, and the rest; all and none where there are not so many.
pub fn split_front(cells: &[u32], n: usize) -> (&[u32], &[u32])
    ensures front { result.0.now ≡ take n cells.now }
    ensures rest { result.1.now ≡ drop n cells.now }
{
    cells.split_at(n.min(cells.len()))
}
