// From words to rows.
ghost use Rattle.std.specs.Prelude.{map, string_bytes, MatchResult};
ghost use Rattle.faults.specs.Failure.{Failure};
ghost use Rattle.running.specs.Asked.{AskedFrom, NotAskedFrom, rows_of};

use crate::find::find_table;
use crate::output::Rows;
use crate::ready::ReadyRun;
use crate::run::{Run, add_each, add_last};
use crate::source::StartSource;
use faults::fault::Fault;
use rows::ring_row::RingRow;
use std::alloc::Global;

/// What the words ask to be run so, from the row at the start. Nothing is run yet. Where the start comes from is asked only of
/// words by which something runs.
pub fn prepare<S: StartSource + Drop>(
    heap: Global,
    words: &[String],
    run: &Run,
    start: S,
) -> Result<ReadyRun, Fault>
    ensures { MatchResult result
        (λ ready. AskedFrom (S.gives start) (map string_bytes words.now) run.now (rows_of ready))
        (NotAskedFrom (S.gives start) (S.fails start) (map string_bytes words.now) run.now) }
{
    let table = find_table(heap, words, run)?;
    let row = start.first_row(heap, table.kinds())?;
    Ok(ReadyRun {
        table,
        row,
        steps: run.steps,
        last: run.last,
    })
}

/// Runs what is ready, and adds its rows, the oldest first.
pub fn run_rows<R: Rows>(ready: ReadyRun, rows: &mut R) -> Result<(), Fault>
    ensures { MatchResult result (λ _. R.grows rows.old (rows_of ready) rows.new) Failure }
{
    let cells = ready.cells();
    let ReadyRun {
        table,
        row,
        steps,
        last,
    } = ready;
    let rule = table.ring_rule(cells);
    let mut row = RingRow::new(row)?;
    if last {
        return add_last(rule, &mut row, steps, rows);
    }
    add_each(rule, &mut row, steps, rows)
}
