// A row that is easy to know again, some seconds forwards, and as many by the way back: the row again.
ghost use Rattle.std.specs.Prelude.{◌≡◌, ◌<◌, ◌≤◌, length, IfErr, IfOk, MatchResult};
ghost use Rattle.faults.specs.Failure.{Failure};
ghost use Rattle.ring.specs.Seconds.{IsRing};
ghost use Rattle.rules.specs.Local.{the_rule};
ghost use Rattle.rules.specs.Rules.{Cells};

use crate::canvas::Canvas;
use faults::fault::Fault;
use ring::RingRule;
use rows::ring_row::RingRow;
use rules::local::LocalRule;
use std::alloc::{AllocError, Global};

// A number, so many cells and a note make a line of 79 columns at most.
const CELLS: u32 = 60;

const SECONDS: u32 = 8;

// Before the middle and behind it all cells are 0.
const START: u32 = 20;

const MIDDLE: u32 = 20;

pub fn draw_round_trip<C: Canvas>(
    heap: Global,
    canvas: &mut C,
    rule: LocalRule,
    back: RingRule,
) -> Result<(), Fault>
    requires digits { rule.kinds ≤ 16 }
    requires same_kinds { back.rule.kinds ≡ rule.kinds }
    ensures { IfErr result Failure }
{
    let mut row = draw_forwards(heap, canvas, rule)?;
    for second in (0..SECONDS).rev() {
        row.step(back)?;
        canvas.second(second, row.cells(), note_back(second))?;
    }
    Ok(())
}

// Only the way forwards, of a rule whose way back is not written.
pub fn draw_one_way<C: Canvas>(heap: Global, canvas: &mut C, rule: LocalRule) -> Result<(), Fault>
    requires { rule.kinds ≤ 16 }
    ensures { IfErr result Failure }
{
    draw_forwards(heap, canvas, rule)?;
    canvas.words("The table of the way back has more than 262144 cells and is not shown.")
}

// The row after the last of these seconds.
fn draw_forwards<C: Canvas>(heap: Global, canvas: &mut C, rule: LocalRule) -> Result<RingRow, Fault>
    requires { rule.kinds ≤ 16 }
    ensures { MatchResult result
        (λ r. IsRing (the_rule rule.entry) r.row.items (length r.row.items))
        Failure }
{
    let mut row = RingRow::new(steps_up(heap, rule.kinds())?)?;
    canvas.second(0, row.cells(), "a row in a ring")?;
    for second in 1..=SECONDS {
        row.step(RingRule::forwards(rule))?;
        canvas.second(second, row.cells(), "forwards")?;
    }
    Ok(row)
}

// A row whose middle goes up from kind 1 to the last kind.
fn steps_up(heap: Global, kinds: u32) -> Result<Vec<u32>, AllocError>
    requires { 2 ≤ kinds }
    ensures { IfOk result (λ v. (0 < length v.items) × Cells kinds v.items) }
{
    (0..CELLS).map(|cell| step_up(kinds, cell)).collect(heap)
}

// The cell of that row at a place.
fn step_up(kinds: u32, cell: u32) -> u32
    requires { 2 ≤ kinds }
    ensures { result < kinds }
{
    let rise = kinds.saturating_sub(1);
    match cell.checked_sub(START) {
        Some(place) if place < MIDDLE => 1 + place.saturating_mul(rise) / MIDDLE,
        _ => 0,
    }
}

fn note_back(second: u32) -> &'static str {
    if second == 0 { "the row again" } else { "back" }
}
