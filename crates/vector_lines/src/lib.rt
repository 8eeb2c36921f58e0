#![tactic(auto)]

// What the programs share that answer files of rules, to be compared with the answers of independent programs. Which twins are told is
// open, so the rows are run here.
ghost use Rattle.std.specs.Prelude.{◌≡◌, MatchResult};
ghost use Rattle.rules.specs.Local.{the_rule};
ghost use Rattle.rules.specs.Rules.{Piece, next, part};
ghost use Rattle.answers.specs.Endless.{row_of};
ghost use Rattle.vector_lines.specs.OneNext.{TellsSame, NotSeen, NoNextRow};

use answers::endless::EndlessRow;
use answers::given::GivenRule;
use faults::fault::Fault;
use faults::name::Name;
use faults::no_words::NoWords;
use reading::cells::read_cells;
use reading::words::number;
use rows::next::next_cells;
use rules::local::LocalRule;
use std::alloc::Global;

/// What answers the rules of a file, as the file has the answers.
pub trait AnswersVectors {
    fn answer(&mut self, heap: Global, given: &GivenRule) -> Result<String, Fault>;
}

// Prints each line of standard input, and behind it the answer to the rule that it begins with.
pub fn answer_vectors<A: AnswersVectors>(rt: &HostRuntime, answers: &mut A) -> Result<(), Fault> {
    for line in rt.lines(rt.alloc()) {
        let line = line?;
        let answer = answer_line(rt.alloc(), line.as_str(), answers)?;
        println!(rt; "{line} {answer}")?;
    }
    Ok(())
}

// The answer to a line of kinds, width and table. What comes behind these is not read.
fn answer_line<A: AnswersVectors>(
    heap: Global,
    line: &str,
    answers: &mut A,
) -> Result<String, Fault> {
    let mut words = line.split_whitespace();
    let (Some(kinds), Some(wide), Some(cells)) = (words.next(), words.next(), words.next()) else {
        return Err(Fault::NoRule(NoWords::Few(String::from_str(heap, line)?)));
    };
    let kinds = number(heap, Name::Kinds, kinds).map_err(Fault::NoRule)?;
    let wide = number(heap, Name::Width, wide).map_err(Fault::NoRule)?;
    let table = read_cells(heap, Name::Table, kinds, cells).map_err(Fault::Cells)?;
    match GivenRule::new(kinds, wide, table) {
        Ok(given) => answers.answer(heap, &given),
        Err(_) => Ok(String::from_str(heap, "no rule")?),
    }
}

// Whether two rows have one next row, with no copy of their parts on both sides up to as many as a window has cells, so that every
// window of the endless rows is seen.
pub fn have_one_next(
    heap: Global,
    rule: LocalRule,
    first: EndlessRow,
    second: EndlessRow,
) -> Result<bool, Fault>
    ensures { MatchResult result
        (TellsSame (the_rule rule.entry) (row_of first.entry) (row_of second.entry))
        (NotSeen (the_rule rule.entry) (row_of first.entry) (row_of second.entry)) }
{
    for copies in 0..rule.wide() as usize + 1 {
        if next_of(heap, rule, first, copies)? != next_of(heap, rule, second, copies)? {
            return Ok(false);
        }
    }
    Ok(true)
}

// The next row of the middle of a row with so many copies on both sides.
fn next_of(heap: Global, rule: LocalRule, row: EndlessRow, copies: usize) -> Result<Vec<u32>, Fault>
    ensures { MatchResult result
        (λ v. Piece (the_rule rule.entry) (part (row_of row.entry) copies) × (v.items ≡ next (the_rule rule.entry) (part (row_of row.entry) copies)))
        (NoNextRow (the_rule rule.entry) (part (row_of row.entry) copies)) }
{
    let piece = row.piece(heap, copies)?;
    Ok(next_cells(heap, rule, piece.as_slice())?)
}
