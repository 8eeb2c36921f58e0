// The answer lines of rules.
ghost use Rattle.std.specs.Prelude.{◌≡◌, ◌^◌, [], ◌∷◌, ◌++◌, take, IfOk, MatchResult, string_bytes};
ghost use Rattle.answers.specs.Answers.{answer_cells, answer_text, row_cells, row_words, spaced, twins_cells, twins_words, undone_words, HaveDigits, Untold};
ghost use Rattle.answers.specs.FiniteAnswers.{finite_cells, finite_text};
ghost use Rattle.answers.specs.Endless.{row_of};

use crate::endless::{EndlessRow, split_front, two_rows};
use finite::Finite;
use std::alloc::{AllocError, Global};
use text::print::{Alphabet, NoText, write_cells};
use twins::Lengths;
use undone::Decided;

// The line of a decision, whose cells stand first in `out`.
pub fn answer_line(
    heap: Global,
    kinds: u32,
    decided: Decided,
    out: &[u32],
) -> Result<String, NoText>
    ensures { MatchResult result
        (λ s. HaveDigits (answer_cells kinds out.now decided) × (string_bytes s ≡ answer_text kinds out.now decided))
        (Untold (answer_cells kinds out.now decided)) }
{
    match decided {
        Decided::Undone(width, place) => {
            let mut line = format_undone(heap, width, place)?;
            add_word(&mut line, table_cells(kinds, width, out))?;
            Ok(line)
        }
        Decided::UndoneFull(width, place) => {
            let mut line = format_undone(heap, width, place)?;
            line.push_str(" full")?;
            Ok(line)
        }
        Decided::Orphan(n) => {
            let mut line = String::from_str(heap, "orphan")?;
            let (piece, _) = split_front(out, n);
            add_word(&mut line, piece)?;
            Ok(line)
        }
        Decided::OrphanFull(_) => Ok(String::from_str(heap, "orphan full")?),
        Decided::Twins(left, mid, right) => twins_line(heap, Lengths { left, mid, right }, out),
        Decided::TwinsFull => Ok(String::from_str(heap, "twins full")?),
        Decided::NoRule => Ok(String::from_str(heap, "no rule")?),
        Decided::Few => Ok(String::from_str(heap, "few")?),
    }
}

// The line of two rows that differ at finitely many places, which stand first in `out`, or why there are none.
pub fn finite_line(heap: Global, finite: Finite, out: &[u32]) -> Result<String, NoText>
    ensures { MatchResult result
        (λ s. HaveDigits (finite_cells out.now finite) × (string_bytes s ≡ finite_text out.now finite))
        (Untold (finite_cells out.now finite)) }
{
    match finite {
        Finite::Twins(left, mid, right) => twins_line(heap, Lengths { left, mid, right }, out),
        Finite::Full(_) => Ok(String::from_str(heap, "twins full")?),
        Finite::NoTwins => Ok(String::from_str(heap, "none")?),
        Finite::NoRule => Ok(String::from_str(heap, "no rule")?),
        Finite::Few => Ok(String::from_str(heap, "few")?),
    }
}

// Two rows that stand first in `out`.
fn twins_line(heap: Global, lengths: Lengths, out: &[u32]) -> Result<String, NoText>
    ensures { MatchResult result
        (λ s. HaveDigits (twins_cells lengths.left lengths.mid lengths.right out.now) × (string_bytes s ≡ twins_words lengths.left lengths.mid lengths.right out.now))
        (Untold (twins_cells lengths.left lengths.mid lengths.right out.now)) }
{
    let mut line = String::from_str(heap, "twins")?;
    let (first, second) = two_rows(lengths, out);
    add_row(&mut line, first)?;
    add_row(&mut line, second)?;
    Ok(line)
}

fn format_undone(heap: Global, width: u32, place: u32) -> Result<String, AllocError>
    ensures { IfOk result (λ s. string_bytes s ≡ undone_words width place) }
{
    format!(in heap; "undone {width} {place}")
}

// The table of a way back, which stands first in `out`.
pub fn table_cells(kinds: u32, width: u32, out: &[u32]) -> &[u32]
    ensures { result.now ≡ take (kinds ^ width) out.now }
{
    let Some(cells) = (kinds as usize).checked_pow(width) else {
        return out;
    };
    let (table, _) = split_front(out, cells);
    table
}

fn add_row(line: &mut String, row: EndlessRow) -> Result<(), NoText>
    ensures { MatchResult result
        (λ _. HaveDigits (row_cells (row_of row.entry)) × (string_bytes line.new ≡ string_bytes line.old ++ row_words (row_of row.entry)))
        (Untold (row_cells (row_of row.entry))) }
{
    add_word(line, row.left)?;
    add_word(line, row.mid)?;
    add_word(line, row.right)?;
    Ok(())
}

// Adds the digits of cells, with a space before them.
fn add_word(line: &mut String, cells: &[u32]) -> Result<(), NoText>
    ensures { MatchResult result
        (λ _. HaveDigits (cells.now ∷ []) × (string_bytes line.new ≡ string_bytes line.old ++ spaced cells.now))
        (Untold (cells.now ∷ [])) }
{
    line.push(' ')?;
    write_cells(line, Alphabet::Digits, cells)?;
    Ok(())
}
