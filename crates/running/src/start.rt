// The row that a run begins with.
ghost use Rattle.std.specs.Prelude.{◌≡◌, ◌≤◌, IfOk, MatchResult};
ghost use Rattle.running.specs.Starts.{BadLength, FirstRow, NoFirstRow, single_cell};

use faults::fault::Fault;
use faults::name::Name;
use reading::cells::read_cells;
use ring::NoRing;
use rows::random::random_cells;
use std::alloc::{AllocError, Global};

/// A row that is run has at most so many cells: two such rows, a line of their text and the largest table fit in 4 MiB.
pub const MOST_CELLS: usize = 262_144;

/// The row that a run begins with, by its cells in a word, or by how it is made.
#[derive(Drop)]
pub enum Start {
    /// One digit a cell.
    Given(String),
    /// So many cells, drawn at random from the seed.
    Random { cells: usize, seed: u64 },
    /// So many cells of kind 0, but for one of kind 1 at place `cells / 2`.
    Single { cells: usize },
}

/// The row at the start. One without a cell, or of more than `MOST_CELLS`, is refused, and no such row is drawn.
pub fn first_row(heap: Global, kinds: u32, start: &Start) -> Result<Vec<u32>, Fault>
    requires { 2 ≤ kinds }
    ensures { MatchResult result (λ v. FirstRow kinds start.now v.items) (NoFirstRow kinds start.now) }
{
    match start {
        Start::Given(word) => {
            let row = read_cells(heap, Name::Row, kinds, word.as_str()).map_err(Fault::Cells)?;
            check_length(row.len())?;
            Ok(row)
        }
        Start::Random { cells, seed } => {
            check_length(*cells)?;
            Ok(random_cells(heap, kinds, *cells, *seed)?)
        }
        Start::Single { cells } => {
            check_length(*cells)?;
            Ok(single_row(heap, *cells)?)
        }
    }
}

// Whether a row of so many cells can be run.
fn check_length(cells: usize) -> Result<(), Fault>
    ensures { MatchResult result (λ _. (1 ≤ cells) × (cells ≤ 262144)) (BadLength cells) }
{
    if cells == 0 {
        return Err(Fault::Ring(NoRing::Empty));
    }
    if cells > MOST_CELLS {
        return Err(Fault::LongRow);
    }
    Ok(())
}

// A row of kind 0 with one cell of kind 1.
fn single_row(heap: Global, cells: usize) -> Result<Vec<u32>, AllocError>
    requires { 1 ≤ cells }
    ensures { IfOk result (λ v. v.items ≡ single_cell cells) }
{
    let mut row = vec![in heap; 0; cells]?;
    row[cells / 2] = 1;
    Ok(row)
}
