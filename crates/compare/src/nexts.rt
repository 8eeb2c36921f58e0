// The next rows of all pieces of one length, by the pieces' numbers.
ghost use Rattle.std.specs.Prelude.{◌≡◌, ◌^◌, ◌<◌};

use crate::compared::Rule;
use std::alloc::{AllocError, Global};
use std::mem;

// A length of which there are more pieces than these is not gone through.
const MOST_PIECES: u32 = 4_194_304;

// All pieces of `length` cells, whose next rows have `next_length` cells: `nexts` has for each the number of its next row.
#[derive(Clone, Copy)]
pub struct Pieces<'a> {
    pub kinds: u32,
    pub length: u32,
    pub next_length: u32,
    pub nexts: &'a [u32],
    ghost some: { 0 < kinds },
}

impl Pieces<'_> {
    // How many rows are as long as a next row.
    pub fn rows(&self) -> usize
        ensures { self.now.kinds ^ self.now.next_length < 2 ^ 32 → result ≡ self.now.kinds ^ self.now.next_length }
    {
        self.kinds.saturating_pow(self.next_length) as usize
    }
}

// Room for the numbers of the next rows of all pieces of a length, and of all pieces of one cell less.
#[derive(Drop)]
pub struct Room {
    nexts: Vec<u32>,
    shorter: Vec<u32>,
}

impl Room {
    pub fn new(heap: Global) -> Result<Room, AllocError> {
        Ok(Room {
            nexts: vec![in heap; 0; MOST_PIECES as usize]?,
            shorter: vec![in heap; 0; MOST_PIECES as usize]?,
        })
    }

    // Begins with the pieces of one cell less than a window: their next rows are empty.
    pub fn begin(&mut self, rule: &Rule) {
        let pieces = rule.table.len().min(self.nexts.len());
        self.nexts.as_mut_slice()[..pieces].fill(0);
    }

    // Goes on from next rows of one cell less to those of `next_length` cells, unless the pieces are too many.
    pub fn lengthen(&mut self, rule: &Rule, next_length: u32) -> Option<Pieces<'_>> {
        let length = next_length.saturating_add(rule.wide).saturating_sub(1);
        let count = rule.kinds.saturating_pow(length);
        if count > MOST_PIECES {
            return None;
        }
        mem::swap(&mut self.nexts, &mut self.shorter);
        let rows = rule.kinds.saturating_pow(next_length.saturating_sub(1));
        prepend(
            rule,
            rows,
            self.shorter.as_slice(),
            self.nexts.as_mut_slice(),
        );
        Some(Pieces {
            kinds: rule.kinds,
            length,
            next_length,
            nexts: self.nexts.as_slice().get(..count as usize)?,
        })
    }
}

// Puts each cell in front of each shorter piece. `rows` are as long as the shorter pieces' next rows.
fn prepend(rule: &Rule, rows: u32, shorter: &[u32], longer: &mut [u32]) {
    let blocks = rule.table.len() / rule.kinds as usize;
    let size = blocks.saturating_mul(rows as usize);
    if size == 0 {
        return;
    }
    let groups = rule.table.as_slice().chunks(blocks);
    for (cells, longer) in groups.zip(longer.chunks_mut(size)) {
        prepend_cell(cells, rows, shorter, longer);
    }
}

// Puts one cell in front of each shorter piece. `cells` come of the windows that begin with it, in order; each is the highest
// digit of the next rows of all pieces that begin with its window.
fn prepend_cell(cells: &[u32], rows: u32, shorter: &[u32], longer: &mut [u32]) {
    let size = rows as usize;
    if size == 0 {
        return;
    }
    let parts = shorter.chunks(size).zip(longer.chunks_mut(size));
    for (cell, (shorter, longer)) in cells.iter().zip(parts) {
        prepend_digit(cell.wrapping_mul(rows), shorter, longer);
    }
}

fn prepend_digit(digit: u32, shorter: &[u32], longer: &mut [u32]) {
    for (less, more) in shorter.iter().zip(longer.iter_mut()) {
        *more = less.wrapping_add(digit);
    }
}
