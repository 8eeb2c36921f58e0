// Runs of a rule, or of a way back, on a row in a ring.
ghost use Rattle.std.specs.Prelude.{◌≤◌, [], ◌∷◌, length, MatchResult};
ghost use Rattle.faults.specs.Failure.{Failure};
ghost use Rattle.rules.specs.Local.{the_rule};
ghost use Rattle.running.specs.Runs.{rows_until};
ghost use Rattle.ring.specs.Ring.{rings};
ghost use Rattle.ring.specs.Seconds.{IsRing};

use crate::output::Rows;
use faults::fault::Fault;
use ring::RingRule;
use rows::ring_row::RingRow;

/// What of the words is run, and which way.
#[derive(Clone, Copy, PartialEq, Eq, Debug)]
pub enum Mode {
    /// They are a rule, which is run.
    Forwards,
    /// They are a rule, whose least way back is run.
    Backwards,
    /// They are a way back at this place.
    WayBack(usize),
}

/// How a row is run.
#[derive(Clone, Copy, PartialEq, Eq, Debug)]
pub struct Run {
    pub mode: Mode,
    /// Whether each next row is moved to the middle of its windows. At `WayBack` it changes nothing.
    pub centre: bool,
    /// For so many seconds.
    pub steps: u64,
    /// Whether the last row alone is told.
    pub last: bool,
}

// So many updates of cells take a moment.
const MOST_UPDATES: usize = 4_194_304;

// Adds each row, the first too.
pub(crate) fn add_each<R: Rows>(
    rule: RingRule,
    row: &mut RingRow,
    steps: u64,
    rows: &mut R,
) -> Result<(), Fault>
    requires digits { rule.rule.kinds ≤ 16 }
    requires ring { IsRing (the_rule rule.rule) row.old.row.items (length row.old.row.items) }
    ensures { MatchResult result
        (λ _. R.grows rows.old (rows_until (the_rule rule.entry.rule) rule.entry.place steps row.old.row.items) rows.new)
        Failure }
{
    rows.add(row.cells())?;
    for _second in 0..steps {
        row.step(rule)?;
        rows.add(row.cells())?;
    }
    Ok(())
}

// Adds the last row alone, and tells from time to time how far the run has come.
pub(crate) fn add_last<R: Rows>(
    rule: RingRule,
    row: &mut RingRow,
    steps: u64,
    rows: &mut R,
) -> Result<(), Fault>
    requires digits { rule.rule.kinds ≤ 16 }
    requires ring { IsRing (the_rule rule.rule) row.old.row.items (length row.old.row.items) }
    ensures { MatchResult result
        (λ _. R.grows rows.old (rings (the_rule rule.entry.rule) rule.entry.place steps row.old.row.items ∷ []) rows.new)
        Failure }
{
    let chunk = (MOST_UPDATES / row.cells().len().max(1)).max(1) as u64;
    let mut done = 0;
    while done < steps {
        let seconds = chunk.min(steps - done);
        row.steps(rule, seconds)?;
        done += seconds;
        rows.passed(done)?;
    }
    rows.add(row.cells())
}
