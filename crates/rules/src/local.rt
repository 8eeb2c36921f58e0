// A table that fits its kinds and its width, and may be looked up.
ghost use Rattle.std.specs.Prelude.{◌≡◌, ℕ, ◌-◌, ◌^◌, ◌<◌, ◌≤◌, length, slice_index};
ghost use Rattle.rules.specs.Rules.{rule_of, Formed};

use crate::cells::{Kind, Window};

// A rule, or a way back of one: what comes of each window, in order of the window's number.
#[derive(Clone, Copy)]
pub struct LocalRule<'a> {
    kinds: u32,
    wide: u32,
    // How many pieces there are of one cell less than a window.
    blocks: usize,
    table: &'a [u32],
    ghost two: { 2 ≤ kinds },
    ghost some: { 1 ≤ wide },
    ghost fewer: { blocks ≡ kinds ^ (wide - 1) },
    ghost full: { length table.now ≡ kinds ^ wide },
    ghost each: { (i : ℕ) → i < length table.now → slice_index table.now i < kinds },
}

impl<'a> LocalRule<'a> {
    pub fn new(kinds: u32, wide: u32, table: &'a [u32]) -> LocalRule<'a>
        requires { Formed (rule_of kinds wide table.now) }
        ensures kinds { result.kinds ≡ kinds }
        ensures wide { result.wide ≡ wide }
        ensures table { result.table.now ≡ table.now }
    {
        let blocks = table.len() / kinds as usize;
        LocalRule {
            kinds,
            wide,
            blocks,
            table,
        }
    }

    pub fn kinds(self) -> u32
        ensures { result ≡ self.entry.kinds }
    {
        self.kinds
    }

    pub fn wide(self) -> u32
        ensures { result ≡ self.entry.wide }
    {
        self.wide
    }

    pub fn blocks(self) -> usize
        ensures { result ≡ self.entry.kinds ^ (self.entry.wide - 1) }
    {
        self.blocks
    }

    // What comes of a window.
    pub fn cell(self, window: Window) -> Kind
        requires { window.0 < self.kinds ^ self.wide }
        ensures { result.0 ≡ slice_index self.entry.table.now window.0 }
    {
        Kind(self.table[window.0])
    }
}
