// What a picture is drawn on, line by line from the top down.
ghost use Rattle.std.specs.Prelude.{IfErr, MatchResult};
ghost use Rattle.faults.specs.Failure.{Failure, NotShown};
ghost use Rattle.rules.specs.Rules.{Cells};

use faults::fault::Fault;

// Only a failure stops the drawing, where each cell is of a kind that has a sign.
pub trait Canvas {
    fn words(&mut self, words: &str) -> Result<(), Fault>
        ensures { IfErr result Failure };

    // A row in a ring after so many seconds, and how it came about.
    fn second(&mut self, second: u32, row: &[u32], note: &str) -> Result<(), Fault>
        ensures { MatchResult result (λ _. Cells 16 row.now) (NotShown row.now) };

    // Of each block the cell at one place. The blocks stand side by side, as in `set`.
    fn digits(&mut self, label: &str, digits: &[usize]) -> Result<(), Fault>
        ensures { IfErr result Failure };

    // Which blocks a set has, after so many cells of a piece, the last of which is given if there is one.
    fn set(
        &mut self,
        cells: usize,
        last: Option<u32>,
        members: &[bool],
        note: &str,
    ) -> Result<(), Fault>
        ensures { IfErr result Failure };

    // What is shown of an endless row.
    fn endless(&mut self, label: &str, cells: &[u32]) -> Result<(), Fault>
        ensures { MatchResult result (λ _. Cells 16 cells.now) (NotShown cells.now) };

    // Marks in some columns of endless rows.
    fn marks(&mut self, label: &str, mark: char, marks: &[bool]) -> Result<(), Fault>
        ensures { IfErr result Failure };
}
