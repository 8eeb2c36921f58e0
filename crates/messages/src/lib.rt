#![tactic(auto)]

// What is wrong with a command, in words for its user. They stand apart, so that another wording proves little anew.
mod words;

use crate::words::{Found, RuleMessage, Wanted, show_cells};
use faults::fault::Fault;
use faults::name::Name;
use ring::NoRing;
use std::alloc::{AllocError, Global};
use std::fmt;

/// A fault in words. What was found is in quotes where it could be mistaken for a word of the message.
#[derive(Drop)]
pub struct Message<'a>(pub &'a Fault);

impl fmt::Display for Message<'_> {
    fn fmt<W: fmt::Write>(&self, f: &mut fmt::Formatter<W>) -> fmt::Result {
        match self.0 {
            Fault::NoRule(words) => write!(f, "no rule: {}", RuleMessage(words, Wanted::Rule)),
            Fault::NotDecided(words) => write!(f, "{}", RuleMessage(words, Wanted::Rule)),
            Fault::NotRun(words) => write!(f, "{}", RuleMessage(words, Wanted::Table)),
            Fault::Cells(cells) => show_cells(*cells, f),
            Fault::NotUndone(answer) => write!(f, "the rule cannot be run backwards: {answer}"),
            Fault::FullWayBack(answer) => {
                write!(f, "the way back is too large to be run: {answer}")
            }
            fault => show_other(fault, f),
        }
    }
}

// What is wrong with an argument, a line, a row or a file.
fn show_other<W: fmt::Write>(fault: &Fault, f: &mut fmt::Formatter<W>) -> fmt::Result {
    match fault {
        Fault::Usage(text) => write!(f, "{text}"),
        Fault::NoUtf8(place, found) => write!(
            f,
            "expected arguments in UTF-8, and argument {place} is none: {found:?}"
        ),
        Fault::NoValue(name) => write!(
            f,
            "expected a value after {}, and found \"\"",
            named(*name)
        ),
        Fault::RuleTakenForFile { file, rest } => write!(
            f,
            "--svg took {file:?} for its FILE, and {rest:?} is left; expected KINDS WIDTH TABLE or wolfram N"
        ),
        Fault::LongLine => write!(f, "expected a line of at most 4096 bytes"),
        Fault::NotText => write!(f, "expected text in UTF-8"),
        Fault::LongRow => write!(f, "expected a row of at most 262144 cells"),
        Fault::LargePicture => write!(
            f,
            "expected at most 16777216 cells in all rows for --svg, and found more"
        ),
        fault => show_failure(fault, f),
    }
}

// What is wrong with a text of cells, or with what a row is run or drawn by.
fn show_failure<W: fmt::Write>(fault: &Fault, f: &mut fmt::Formatter<W>) -> fmt::Result {
    match fault {
        Fault::TwoLines {
            from,
            first,
            second,
        } => write!(
            f,
            "expected one line of cells for {from}, and found {first:?} and then {second:?}"
        ),
        Fault::ManySpaces { from, found } => write!(
            f,
            "expected at most 262144 cells for {from} and as many spaces around them, and found more, behind {found:?}"
        ),
        Fault::Ring(NoRing::Empty) => write!(f, "expected a row of one cell at least"),
        Fault::Ring(reason) => write!(f, "the row cannot be run: {reason:?}"),
        Fault::Next(reason) => write!(f, "the row has no next row: {reason:?}"),
        Fault::Text(reason) => write!(f, "the row cannot be printed: {reason:?}"),
        Fault::Drawing(reason) => write!(f, "{reason}"),
        Fault::Unread(file, e) => write!(f, "{} cannot be read: {e}", Found(file.as_str())),
        Fault::Unwritten(file, e) => write!(f, "{} cannot be written: {e}", Found(file.as_str())),
        Fault::Input(e) => write!(f, "standard input cannot be read: {e}"),
        Fault::Output(e) => write!(f, "standard output cannot be written: {e}"),
        _ => write!(f, "out of memory"),
    }
}

/// A name as it is typed.
pub fn named(name: Name) -> &'static str {
    match name {
        Name::Kinds => "KINDS",
        Name::Width => "WIDTH",
        Name::Table => "TABLE",
        Name::Row => "--row",
        Name::Random => "--random",
        Name::Cells => "--cells",
        Name::Seed => "--seed",
        Name::Steps => "--steps",
        Name::Place => "--place",
        Name::Svg => "--svg",
    }
}

/// The line on standard error for a fault of a command. That the words are no rule is an answer too, and stands without the
/// command's name; so does what tells the usage itself.
pub fn fault_line(heap: Global, name: &str, fault: &Fault) -> Result<String, AllocError> {
    match fault {
        Fault::NoRule(_) | Fault::Usage(_) => format!(in heap; "{}", Message(fault)),
        _ => format!(in heap; "{name}: {}. Try --help.", Message(fault)),
    }
}
