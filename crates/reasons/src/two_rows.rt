// Two rows around their middles, the cells that differ, and the one next row of both.
ghost use Rattle.std.specs.Prelude.{◌≡◌, ◌≤◌, ℕ, take, IfErr, IfOk};
ghost use Rattle.answers.specs.Endless.{row_of};
ghost use Rattle.faults.specs.Failure.{Failure};
ghost use Rattle.rules.specs.Local.{the_rule};
ghost use Rattle.rules.specs.Rules.{Cells, Piece, part};
ghost use Rattle.theory.specs.Says.{FiniteTwins, SameNext};

use crate::canvas::Canvas;
use answers::endless::{EndlessRow, split_front};
use faults::fault::Fault;
use rows::next::next_cells;
use rules::local::LocalRule;
use std::alloc::{AllocError, Global};

// A label, so many cells and the dots on both sides make a line of 79 columns at most.
const COLUMNS: usize = 64;

// So many cells are shown before the first that differs, where the middle is too long to be shown.
const LEAD: usize = 8;

// So many copies on either side are more than is shown of them, since a part has one cell at least.
const COPIES: usize = 80;

// What is shown of a row with so many copies on either side: the columns from a place on, where the middle begins, and its length.
#[derive(Clone, Copy)]
struct View {
    copies: usize,
    start: usize,
    mid: usize,
    mid_cells: usize,
}

impl View {
    // Only a block on either side, of rows that differ between these. A block has few cells, so the first cell that differs is shown.
    fn between_blocks(first: EndlessRow) -> View {
        View {
            copies: 1,
            start: 0,
            mid: first.left.len(),
            mid_cells: first.mid.len(),
        }
    }

    // A middle that fits is shown in the middle; of a longer one, the cells from shortly before the first that differs on.
    fn around_middle(first: EndlessRow, second: EndlessRow) -> View {
        let mid = first.left.len().saturating_mul(COPIES);
        let mid_cells = first.mid.len();
        let (cell, before) = if mid_cells <= COLUMNS {
            (mid_cells / 2, COLUMNS / 2)
        } else {
            (first_difference(first.mid, second.mid), LEAD)
        };
        View {
            copies: COPIES,
            start: mid.saturating_add(cell).saturating_sub(before),
            mid,
            mid_cells,
        }
    }

    // How many cells of the middle are not shown.
    fn hidden(self) -> usize {
        let end = self.mid.saturating_add(self.mid_cells);
        let shown = end
            .min(self.start.saturating_add(COLUMNS))
            .saturating_sub(self.mid.max(self.start));
        self.mid_cells.saturating_sub(shown)
    }

    // The cells that are shown of a row, and so many behind them.
    fn cells(self, heap: Global, row: EndlessRow, behind: usize) -> Result<Vec<u32>, AllocError>
        ensures { IfOk result (λ v. (k : ℕ) → Cells k (part (row_of row.entry) self.copies) → Cells k v.items) }
    {
        let piece = row.piece(heap, self.copies)?;
        let (_, cells) = split_front(piece.as_slice(), self.start);
        let (shown, _) = split_front(cells, COLUMNS.saturating_add(behind));
        shown.to_vec(heap)
    }

    // Which columns are of the middle.
    fn middle(self, heap: Global) -> Result<Vec<bool>, AllocError> {
        (0..COLUMNS)
            .map(|column| {
                let place = self.start.saturating_add(column);
                self.mid <= place && place - self.mid < self.mid_cells
            })
            .collect(heap)
    }
}

// Endless rows, of which each part on either side stands there again and again.
pub fn draw_two_rows<C: Canvas>(
    heap: Global,
    canvas: &mut C,
    rule: LocalRule,
    first: EndlessRow,
    second: EndlessRow,
) -> Result<(), Fault>
    requires digits { rule.kinds ≤ 16 }
    requires rows { SameNext (the_rule rule) (row_of first) (row_of second) }
    ensures { IfErr result Failure }
{
    let view = View::around_middle(first, second);
    draw_view(heap, canvas, rule, view, first, second)?;
    match view.hidden() {
        0 => Ok(()),
        hidden => {
            let note = format!(in heap; "... and {hidden} more cells of the middle")?;
            canvas.words(note.as_str())
        }
    }
}

// Rows that differ in their middles only, each between two blocks, beside which any cells may stand.
pub fn draw_between_blocks<C: Canvas>(
    heap: Global,
    canvas: &mut C,
    rule: LocalRule,
    first: EndlessRow,
    second: EndlessRow,
) -> Result<(), Fault>
    requires digits { rule.kinds ≤ 16 }
    requires rows { FiniteTwins (the_rule rule) (row_of first) (row_of second) }
    ensures { IfErr result Failure }
{
    draw_view(
        heap,
        canvas,
        rule,
        View::between_blocks(first),
        first,
        second,
    )?;
    let cells = first.piece(heap, 1)?.len();
    if cells > COLUMNS {
        let hidden = cells - COLUMNS;
        let note = format!(in heap;
            "... and {hidden} more cells up to the end of the block behind the middle"
        )?;
        canvas.words(note.as_str())?;
    }
    canvas.words("Any cells may stand on both sides, in both rows the same.")
}

fn draw_view<C: Canvas>(
    heap: Global,
    canvas: &mut C,
    rule: LocalRule,
    view: View,
    first: EndlessRow,
    second: EndlessRow,
) -> Result<(), Fault>
    requires digits { rule.kinds ≤ 16 }
    requires one { Piece (the_rule rule) (part (row_of first) view.copies) }
    requires other { Piece (the_rule rule) (part (row_of second) view.copies) }
    ensures { IfErr result Failure }
{
    let behind = rule.wide() as usize - 1;
    let one = view.cells(heap, first, behind)?;
    let other = view.cells(heap, second, behind)?;
    let next = next_cells(heap, rule, one.as_slice())?;
    let middle = view.middle(heap)?;
    let differ = differences(heap, one.as_slice(), other.as_slice())?;
    canvas.marks("middle", '-', middle.as_slice())?;
    canvas.endless("one row", shown(one.as_slice()))?;
    canvas.marks("differ", '^', differ.as_slice())?;
    canvas.endless("other row", shown(other.as_slice()))?;
    canvas.endless("next row", next.as_slice())
}

// The cells before those that only the next row looks at.
fn shown(cells: &[u32]) -> &[u32]
    ensures { result.now ≡ take 64 cells.now }
{
    let (shown, _) = split_front(cells, COLUMNS);
    shown
}

// Which of the columns differ.
fn differences(heap: Global, one: &[u32], other: &[u32]) -> Result<Vec<bool>, AllocError> {
    one.iter()
        .zip(other)
        .take(COLUMNS)
        .map(|(a, b)| a != b)
        .collect(heap)
}

// Where two middles differ first.
fn first_difference(one: &[u32], other: &[u32]) -> usize {
    let differs = one.iter().zip(other).position(|(a, b)| a != b);
    differs.unwrap_or(0)
}
