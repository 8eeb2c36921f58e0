// The next row of a piece of cells.
ghost use Rattle.std.specs.Prelude.{◌≡◌, length, MatchResult};
ghost use Rattle.rules.specs.Local.{the_rule};
ghost use Rattle.rules.specs.Rows.{Unwritten, Written};
ghost use Rattle.rules.specs.Rules.{Piece, at};

use crate::cells::{Kind, Window, stray};
use crate::local::LocalRule;

// Why no next row is written: a cell of the row is none of the kinds, or the row wants more cells than are lent.
#[derive(Clone, Copy, PartialEq, Eq, Debug)]
pub enum NoRow {
    NoKind { place: usize },
    Short { wanted: usize },
}

// Writes the next row of a piece to the front of `out`, and says how long it is.
pub fn next_row(rule: LocalRule, row: &[u32], out: &mut [u32]) -> Result<usize, NoRow>
    ensures { MatchResult result
        (Written (the_rule rule.entry) row.now out.old out.new)
        (λ e. (out.new ≡ out.old) × Unwritten (the_rule rule.entry) row.now out.old e) }
{
    if let Some(place) = stray(rule.kinds(), row) {
        return Err(NoRow::NoKind { place });
    }
    let wide = rule.wide() as usize;
    let wanted = row.len().saturating_sub(wide - 1);
    if out.len() < wanted {
        return Err(NoRow::Short { wanted });
    }
    // By a rule of the project each window is read as a slice that starts in the row's middle.
    for i in 0..wanted {
        out[i] = cell_of(rule, &row[i..i + wide]).0;
    }
    Ok(wanted)
}

// What comes of a window.
fn cell_of(rule: LocalRule, window: &[u32]) -> Kind
    requires { (Piece (the_rule rule) window.now) × (length window.now ≡ rule.wide) }
    ensures { result.0 ≡ at (the_rule rule.entry) window.now }
{
    rule.cell(Window::of(rule.kinds(), window))
}
