// A rule, and its answer, in a line of words each, for people who read no tables.
ghost use Rattle.std.specs.Prelude.{ℕ, List, IfErr};
ghost use Rattle.faults.specs.Failure.{Failure, NotShown};
ghost use Rattle.rules.specs.Rules.{Rule, Sound};
ghost use Rattle.undone.specs.Decided.{Answer};

use answers::endless::split_front;
use answers::given::GivenRule;
use faults::fault::Fault;
use std::alloc::{AllocError, Global};
use text::print::{Alphabet, write_cells};
use undone::Decided;

// More cells are cut.
const MOST_CELLS: usize = 64;

// A rule by its kinds, its width and its table.
pub fn rule_name(heap: Global, given: &GivenRule) -> Result<String, Fault>
    ensures { IfErr result Failure }
{
    let wide = given.rule().local.wide();
    let mut name = format!(in heap; "Rule {} {wide} ", given.kinds())?;
    add_cells(&mut name, given.table())?;
    Ok(name)
}

// The answer to a rule, whose cells stand first in `out`.
pub fn sentence(heap: Global, decided: Decided, out: &[u32]) -> Result<String, Fault>
    requires { (r : Rule) × Sound r × ((o : List ℕ) × Answer r o out.now decided) }
    ensures { IfErr result Failure }
{
    match decided {
        Decided::Undone(width, place) | Decided::UndoneFull(width, place) => Ok(way_back(
            heap, width, place,
        )?),
        Decided::Orphan(n) => {
            let (piece, _) = split_front(out, n);
            let mut sentence = String::from_str(
                heap,
                "This rule cannot be run backwards: no row leads to the piece ",
            )?;
            add_cells(&mut sentence, piece)?;
            sentence.push('.')?;
            Ok(sentence)
        }
        Decided::Twins(_, _, _) => Ok(String::from_str(
            heap,
            "This rule cannot be run backwards: these two rows differ and have one next row.",
        )?),
        // What does not fit in `out` has no picture.
        _ => Ok(String::new(heap)),
    }
}

fn way_back(heap: Global, width: u32, place: u32) -> Result<String, AllocError> {
    let cells = if width == 1 { "cell" } else { "cells" };
    let places = if place == 1 { "place" } else { "places" };
    format!(in heap;
        "This rule can be run backwards: to tell a cell takes {width} {cells} of the next row, the first of them {place} {places} to its left."
    )
}

fn add_cells(line: &mut String, cells: &[u32]) -> Result<(), Fault>
    ensures { IfErr result (NotShown cells.now) }
{
    let (shown, rest) = split_front(cells, MOST_CELLS);
    write_cells(line, Alphabet::Digits, shown)?;
    if !rest.is_empty() {
        write!(line, "... ({} cells)", cells.len())?;
    }
    Ok(())
}
