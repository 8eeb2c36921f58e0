// An answer of `decide` in words, with the cells that it tells.
use crate::digits::Cells;
use std::fmt;
use undone::Decided;

// An answer to a rule of so many kinds, and the cells that begin with what is told.
#[derive(Clone, Copy)]
pub struct Told<'a> {
    pub kinds: u32,
    pub answer: Decided,
    pub cells: &'a [u32],
}

fn first(cells: &[u32], count: usize) -> Cells<'_> {
    Cells(cells.get(..count).unwrap_or(&[]))
}

impl fmt::Display for Told<'_> {
    fn fmt<W: fmt::Write>(&self, f: &mut fmt::Formatter<W>) -> fmt::Result {
        match self.answer {
            Decided::Undone(width, place) => {
                let table = first(self.cells, (self.kinds as usize).saturating_pow(width));
                write!(f, "undone {width} {place} {table}")
            }
            Decided::Twins(left, middle, right) => {
                let row = left.saturating_add(middle).saturating_add(right);
                let rows = first(self.cells, row.saturating_mul(2));
                write!(f, "twins {left} {middle} {right} {rows}")
            }
            Decided::Orphan(length) => write!(f, "orphan {}", first(self.cells, length)),
            Decided::UndoneFull(width, place) => write!(f, "undone {width} {place} full"),
            Decided::TwinsFull => write!(f, "twins full"),
            Decided::OrphanFull(length) => write!(f, "orphan of {length} cells"),
            Decided::NoRule => write!(f, "no rule"),
            Decided::Few => write!(f, "few words of work"),
        }
    }
}
