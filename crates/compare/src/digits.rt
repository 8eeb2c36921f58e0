// Cells as the digits of a number, the first cell the highest.
ghost use Rattle.std.specs.Prelude.{◌<◌};

use std::alloc::{AllocError, Global};
use std::fmt;

// Cells that are printed, a digit each.
#[derive(Clone, Copy)]
pub struct Cells<'a>(pub &'a [u32]);

impl fmt::Display for Cells<'_> {
    fn fmt<W: fmt::Write>(&self, f: &mut fmt::Formatter<W>) -> fmt::Result {
        for &cell in self.0 {
            write!(f, "{cell:x}")?;
        }
        Ok(())
    }
}

// The cells of a number. That there is a kind is a clause here and in two more small functions: a type for one number above 0
// would be made at each call.
pub fn cells_of(
    heap: Global,
    kinds: u32,
    length: u32,
    number: usize,
) -> Result<Vec<u32>, AllocError>
    requires { 0 < kinds }
{
    (0..length)
        .rev()
        .map(|place| digit(kinds, number, place))
        .collect(heap)
}

// The digit of a number that stands so many places before its last.
fn digit(kinds: u32, number: usize, place: u32) -> u32
    requires { 0 < kinds }
{
    let kinds = kinds as usize;
    let weight = kinds.checked_pow(place).unwrap_or(0);
    (number.checked_div(weight).unwrap_or(0) % kinds) as u32
}

// The number of some cells, modulo 2^64.
pub fn number_of(kinds: u32, cells: &[u32]) -> usize {
    let kinds = kinds as usize;
    cells.iter().fold(0usize, |number, cell| {
        number.wrapping_mul(kinds).wrapping_add(*cell as usize)
    })
}
