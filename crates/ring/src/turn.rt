// One second on a ring. The window's number rolls along the row: a cell comes in at the right, and one goes at the left,
// by shifts where the kinds are all numbers of some bits, and else by products.
ghost use Rattle.std.specs.Prelude.{◌≡◌, ℕ, ◌+◌, ◌-◌, ◌%◌, ◌^◌, ◌<◌, List, ◌++◌, length, drop, slice_index, MatchOption};
ghost use Rattle.rules.specs.Local.{the_rule};
ghost use Rattle.rules.specs.Rules.{Piece, digits, next};
ghost use Rattle.ring.specs.Ring.{EndsIn, unrolled, ring_from, ring};

use crate::RingRule;
use rules::cells::{Kind, Window};
use rules::local::LocalRule;

impl<'a> RingRule<'a> {
    // Writes the row of the next second to `to`, which is as long as `from`.
    pub(crate) fn turn(self, from: &[u32], to: &mut [u32])
        requires cells { Piece (the_rule self.rule) from.now }
        requires some { 0 < length from.now }
        requires long { length to.old ≡ length from.now }
        ensures { to.new ≡ ring (the_rule self.entry.rule) self.entry.place from.now }
    {
        let rule = self.rule;
        let n = from.len();
        let first = (n - self.place % n) % n;
        let row = Ring { rule, cells: from };
        let (block, last) = row.block_from(first);
        match bits_of(rule.kinds()) {
            Some(bits) => {
                let middle = shift_through(rule, bits, block.0, &from[last..], &mut to[..n - last]);
                shift_through(rule, bits, middle, &from[..last], &mut to[n - last..]);
            }
            None => row.multiply_through(first, block, last, to),
        }
    }
}

// How many bits a cell takes, where the kinds are all numbers of so many bits. Other kinds only take longer.
fn bits_of(kinds: u32) -> Option<u32>
    ensures { MatchOption result Unit (λ s. kinds ≡ 2 ^ s) }
{
    match kinds {
        2 => Some(1),
        4 => Some(2),
        8 => Some(3),
        16 => Some(4),
        _ => None,
    }
}

// Writes the next row of a block and the cells of `from` behind it, and gives the block at their end. The cells are shifted
// into one number, whose lowest bits are the window: the others are not looked at, so no cell is taken out. A proof knows
// nothing of what is written by a zip with `to.iter_mut()`, so `to` is written by its index.
fn shift_through(rule: LocalRule, bits: u32, block: usize, from: &[u32], to: &mut [u32]) -> usize
    requires cells { Piece (the_rule rule) from.now }
    requires long { length to.old ≡ length from.now }
    requires bits { rule.kinds ≡ 2 ^ bits }
    ensures row { (b : List ℕ) → EndsIn (the_rule rule.entry) block b → to.new ≡ next (the_rule rule.entry) (b ++ from.now) }
    ensures block { (b : List ℕ) → EndsIn (the_rule rule.entry) block b → EndsIn (the_rule rule.entry) result (drop (length from.now) (b ++ from.now)) }
{
    let mask = rule.blocks() * rule.kinds() as usize - 1;
    let mut number = block;
    for (i, cell) in from.iter().enumerate() {
        number = number << bits | *cell as usize;
        to[i] = rule.cell(Window(number & mask)).0;
    }
    number
}

// A row in a ring, of at least one cell, all of the kinds of a rule.
#[derive(Clone, Copy)]
struct Ring<'a> {
    rule: LocalRule<'a>,
    cells: &'a [u32],
    ghost some: { 0 < length cells.now },
    ghost each: { (i : ℕ) → i < length cells.now → slice_index cells.now i < rule.kinds },
}

impl<'a> Ring<'a> {
    // Writes the whole row for any kinds: a cell comes in by one product, and goes by another. The two places go round by hand:
    // iterators that cycle would be zipped with `iter_mut`, and what is written through that no invariant can name.
    fn multiply_through(self, mut first: usize, mut block: Window, mut last: usize, to: &mut [u32])
        requires inside { first < length self.cells.now }
        requires long { length to.old ≡ length self.cells.now }
        requires number { block.0 ≡ digits self.rule.kinds 0 (unrolled first (self.rule.wide - 1) self.cells.now) }
        requires behind { last ≡ (first + (self.rule.wide - 1)) % length self.cells.now }
        ensures { to.new ≡ ring_from (the_rule self.entry.rule) first self.entry.cells.now }
    {
        for cell in to.iter_mut() {
            let window = block.push(self.rule.kinds(), Kind(self.cells[last]));
            *cell = self.rule.cell(window).0;
            block = window.pop(self.rule.blocks(), Kind(self.cells[first]));
            first = self.after(first);
            last = self.after(last);
        }
    }

    // The block that starts at `first`, and the place of the cell behind it.
    fn block_from(self, first: usize) -> (Window, usize)
        requires { first < length self.cells.now }
        ensures number { result.0.0 ≡ digits self.entry.rule.kinds 0 (unrolled first (self.entry.rule.wide - 1) self.entry.cells.now) }
        ensures behind { result.1 ≡ (first + (self.entry.rule.wide - 1)) % length self.entry.cells.now }
    {
        let mut block = Window(0);
        let mut last = first;
        for _i in 0..self.rule.wide() - 1 {
            block = block.push(self.rule.kinds(), Kind(self.cells[last]));
            last = self.after(last);
        }
        (block, last)
    }

    // The place after i, round the ring.
    fn after(self, i: usize) -> usize
        requires { i < length self.cells.now }
        ensures { result ≡ (i + 1) % length self.entry.cells.now }
    {
        if i + 1 == self.cells.len() { 0 } else { i + 1 }
    }
}
