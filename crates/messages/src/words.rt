// Why words are no rule, and cells none, in words.
use crate::named;
use faults::no_words::{BadCells, BadTable, NoWords};
use rules::rule::NoRule;
use std::fmt;
use text::parse::NoCells;

/// What the words were to be: a rule to be decided, or a rule or a way back to be run.
#[derive(Clone, Copy, PartialEq, Eq)]
pub enum Wanted {
    Rule,
    Table,
}

/// Why words are no rule, as it is told of what was wanted.
#[derive(Drop)]
pub struct RuleMessage<'a>(pub &'a NoWords, pub Wanted);

impl fmt::Display for RuleMessage<'_> {
    fn fmt<W: fmt::Write>(&self, f: &mut fmt::Formatter<W>) -> fmt::Result {
        match self.0 {
            NoWords::Few(_) => write!(f, "expected KINDS WIDTH TABLE or wolfram N"),
            NoWords::Extra(found) if self.1 == Wanted::Table => write!(
                f,
                "expected nothing after KINDS WIDTH TABLE but options, and found {}",
                Found(found.as_str())
            ),
            NoWords::Extra(found) => write!(
                f,
                "expected nothing after the rule, and found {}",
                Found(found.as_str())
            ),
            NoWords::NoNumber(name, found) => write!(
                f,
                "expected a whole number for {} that is not too large, and found {}",
                named(*name),
                Found(found.as_str())
            ),
            NoWords::NoElementary(found) => write!(
                f,
                "expected a number from 0 to 255 after wolfram, and found {}",
                Found(found.as_str())
            ),
            NoWords::Cells(cells) => show_cells(*cells, f),
            NoWords::Table(table) => show_table(*table, self.1, f),
            words => show_number(words, f),
        }
    }
}

// What is wrong with the number of a rule.
fn show_number<W: fmt::Write>(words: &NoWords, f: &mut fmt::Formatter<W>) -> fmt::Result {
    match words {
        NoWords::NoNumeral(found) => write!(
            f,
            "expected a number in decimal after wolfram KINDS WIDTH, and found {}",
            Found(found.as_str())
        ),
        NoWords::LargeNumber { kinds, wide } => write!(
            f,
            "expected a number of a rule of KINDS {kinds} and WIDTH {wide} after wolfram, less than {kinds}^({kinds}^{wide}), and found a larger one"
        ),
        _ => write!(f, "out of memory"),
    }
}

/// A word that was found. An empty one could not be seen.
#[derive(Drop)]
pub struct Found<'a>(pub &'a str);

impl fmt::Display for Found<'_> {
    fn fmt<W: fmt::Write>(&self, f: &mut fmt::Formatter<W>) -> fmt::Result {
        if self.0.is_empty() {
            return write!(f, "\"\"");
        }
        write!(f, "{}", self.0)
    }
}

/// Why cells are none. Places are counted from 1, as a reader counts characters.
pub fn show_cells<W: fmt::Write>(cells: BadCells, f: &mut fmt::Formatter<W>) -> fmt::Result {
    let name = named(cells.name);
    match cells.reason {
        NoCells::NoDigit { place } => {
            let at = place.saturating_add(1);
            write!(
                f,
                "expected digits 0 to 9 and a to f for {name}, and character {at} is none"
            )
        }
        NoCells::NoKind { place, kind } => {
            let at = place.saturating_add(1);
            let most = cells.kinds.saturating_sub(1);
            write!(
                f,
                "expected kinds 0 to {most} for {name}, and character {at} is kind {kind}"
            )
        }
        NoCells::Memory => write!(f, "out of memory"),
    }
}

fn show_table<W: fmt::Write>(
    table: BadTable,
    wanted: Wanted,
    f: &mut fmt::Formatter<W>,
) -> fmt::Result {
    let BadTable {
        reason,
        kinds,
        wide,
    } = table;
    match reason {
        NoRule::FewKinds => write!(f, "expected 2 kinds at least, and found KINDS {kinds}"),
        NoRule::Length { wanted, found } => write!(
            f,
            "expected a TABLE of {wanted} cells for KINDS {kinds} and WIDTH {wide}, and found {found}"
        ),
        NoRule::NoKind { place } => {
            let at = place.saturating_add(1);
            let most = kinds.saturating_sub(1);
            write!(
                f,
                "expected kinds 0 to {most} in TABLE, and character {at} is none"
            )
        }
        _ => show_size(table, wanted, f),
    }
}

// A width or a number of windows that is none of a rule; a way back has others.
fn show_size<W: fmt::Write>(
    table: BadTable,
    wanted: Wanted,
    f: &mut fmt::Formatter<W>,
) -> fmt::Result {
    let BadTable {
        reason,
        kinds,
        wide,
    } = table;
    match (reason, wanted) {
        (NoRule::Narrow, Wanted::Rule) => {
            write!(f, "expected a width of 2 at least, and found WIDTH {wide}")
        }
        (NoRule::Narrow, Wanted::Table) => write!(
            f,
            "expected a width of 2 at least, or of 1 for a way back (--place), and found WIDTH {wide}"
        ),
        (_, Wanted::Rule) => write!(
            f,
            "KINDS {kinds} and WIDTH {wide} are too large: a rule has at most 16 blocks of WIDTH - 1 cells"
        ),
        (_, Wanted::Table) => write!(
            f,
            "KINDS {kinds} and WIDTH {wide} are too large: there are at most 16 kinds, a rule has at most 16 blocks of WIDTH - 1 cells, and a way back (--place) at most 262144 windows"
        ),
    }
}
