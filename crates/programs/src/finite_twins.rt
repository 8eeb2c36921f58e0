// The command `finite`: two rows that differ at finitely many places and have one next row, and a picture of them.
ghost use Rattle.finite.specs.declared.Finite.TheVariants.{Twins};
ghost use Rattle.questions.specs.Answered.{IsFound};
ghost use Rattle.rules.specs.Rules.{rule_of};

use crate::rule_lines::answer_lines;
use crate::texts::read_table;
use answers::endless::two_rows;
use answers::twins_workspace::TwinsWorkspace;
use arguments::requests::{FiniteRequest, Rules};
use faults::fault::Fault;
use finite::Finite;
use questions::finite_twins::{FoundTwins, find_words};
use reasons::terminal::Terminal;
use reasons::two_rows::draw_between_blocks;
use twins::Lengths;

/// Answers one rule, or those of standard input.
pub fn find_finite(rt: &HostRuntime, request: FiniteRequest) -> Result<(), Fault> {
    let FiniteRequest { rules, picture } = request;
    match rules {
        Rules::Input { echo } => answer_lines(rt, &mut TwinsWorkspace::new(rt.alloc())?, echo),
        Rules::Words(words) => find_one(rt, words, picture),
    }
}

// Answers one rule, and draws the rows.
fn find_one(rt: &HostRuntime, mut words: Vec<String>, picture: bool) -> Result<(), Fault> {
    read_table(rt, words.as_mut_slice())?;
    let found = find_words(rt.alloc(), words.as_slice())?;
    println!(rt; "{}", found.line)?;
    match found.finite {
        Finite::Twins(left, mid, right) if picture => {
            draw_rows(rt, &found, Lengths { left, mid, right })
        }
        _ => Ok(()),
    }
}

// Draws the rows, whose parts have these lengths.
fn draw_rows(rt: &HostRuntime, found: &FoundTwins, lengths: Lengths) -> Result<(), Fault>
    requires { IsFound (rule_of found.now.given.kinds found.now.given.wide found.now.given.table.items) found.now.workspace.out.items (Twins lengths.left lengths.mid lengths.right) }
{
    println!(rt)?;
    let (first, second) = two_rows(lengths, found.workspace.told());
    let mut terminal = Terminal { rt };
    let rule = found.given.rule().local;
    draw_between_blocks(rt.alloc(), &mut terminal, rule, first, second)
}
