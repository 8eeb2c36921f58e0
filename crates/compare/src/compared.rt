// Rules that are compared: the worked ones, and all of a shape.
ghost use Rattle.std.specs.Prelude.{◌<◌};

use crate::digits::{Cells, cells_of};
use std::alloc::{AllocError, Global};
use std::fmt;

// A rule: for each window, in order of its digits, the cell that comes of it.
#[derive(Drop)]
pub struct Rule {
    pub kinds: u32,
    pub wide: u32,
    pub table: Vec<u32>,
    ghost some: { 0 < kinds },
}

impl fmt::Display for Rule {
    fn fmt<W: fmt::Write>(&self, f: &mut fmt::Formatter<W>) -> fmt::Result {
        let table = Cells(self.table.as_slice());
        write!(f, "{} {} {table}", self.kinds, self.wide)
    }
}

// The second of two cells, the sum of two, 1 only of two 1, four kinds that undo themselves, always 0, the sum of three kinds,
// the second of four cells turned exactly between 1 and 0 0, and sixteen kinds of two halves.
pub fn worked_rules(heap: Global) -> Result<Vec<Rule>, AllocError> {
    Ok(vec![in heap;
        read_rule(heap, 2, 2, "0101")?,
        read_rule(heap, 2, 2, "0110")?,
        read_rule(heap, 2, 2, "0001")?,
        read_rule(heap, 4, 2, "0011110022333322")?,
        read_rule(heap, 2, 2, "0000")?,
        read_rule(heap, 3, 2, "012120201")?,
        read_rule(heap, 2, 4, "0000111110000111")?,
        halves(heap)?,
    ]?)
}

fn read_rule(heap: Global, kinds: u32, wide: u32, digits: &str) -> Result<Rule, AllocError>
    requires { 0 < kinds }
{
    let table = digits
        .chars()
        .map(|digit| digit.to_digit(16).unwrap_or(0))
        .collect(heap)?;
    Ok(Rule { kinds, wide, table })
}

// The upper half stays, and the lower half comes from the right neighbour.
fn halves(heap: Global) -> Result<Rule, AllocError> {
    let table = (0..256)
        .map(|window| window / 64 * 4 + window % 4)
        .collect(heap)?;
    Ok(Rule {
        kinds: 16,
        wide: 2,
        table,
    })
}

// Every rule of two kinds and of a width.
pub fn all_of_two_kinds(heap: Global, wide: u32) -> Result<Vec<Rule>, AllocError> {
    let windows = 2u32.checked_pow(wide).unwrap_or(0);
    (0..2usize.checked_pow(windows).unwrap_or(0))
        .map(|number| numbered_rule(heap, wide, windows, number))
        .try_collect(heap)
}

// The rule of two kinds whose cells are the digits of a number, one for each window.
fn numbered_rule(heap: Global, wide: u32, windows: u32, number: usize) -> Result<Rule, AllocError> {
    let table = cells_of(heap, 2, windows, number)?;
    Ok(Rule {
        kinds: 2,
        wide,
        table,
    })
}
