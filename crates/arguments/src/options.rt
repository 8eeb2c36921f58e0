// The arguments that commands share, and how options are made.
use clap::{Arg, ArgAction, Command};
use std::alloc::{AllocError, Global};

/// The words of a rule.
pub const RULE: &str = "RULE";

/// Only the answer line.
pub const ANSWER: &str = "answer";

/// Each rule before its answer.
pub const ECHO: &str = "echo";

/// The file for a drawing.
pub const SVG: &str = "svg";

const RULE_HELP: &str = "\
KINDS WIDTH TABLE, wolfram N, or - for rules from standard input,
a line each. KINDS kinds of cells are numbered from 0. TABLE has,
for each window of WIDTH cells in order of their digits, the cell
that comes of it, a digit each, 0 to 9 and a to f; with @FILE it
is read from a file. wolfram and a number from 0 to 255 is an
elementary rule: 2 kinds, width 3, and the cell of window w is bit
w of the number. wolfram KINDS WIDTH N is any rule by its number:
the cell of window w is the digit of N of worth KINDS^w.";

const ONE_RULE_HELP: &str = "\
KINDS WIDTH TABLE or wolfram N. KINDS kinds of cells are numbered
from 0. TABLE has, for each window of WIDTH cells in order of
their digits, the cell that comes of it, a digit each, 0 to 9 and
a to f; with @FILE it is read from a file. wolfram and a number
from 0 to 255 is an elementary rule: 2 kinds, width 3, and the
cell of window w is bit w of the number. wolfram KINDS WIDTH N is
any rule by its number: the cell of window w is the digit of N of
worth KINDS^w.";

/// The program does not see its own name among the arguments.
pub fn command<'a>(heap: Global, name: &'a str, typed: &'a str) -> Result<Command<'a>, AllocError> {
    Ok(
        Command::new(heap, name)
            .bin_name(typed)?
            .display_name(typed)?
            .version(crate::VERSION)
            .no_binary_name(true),
    )
}

/// A rule, or `-` for those of standard input.
pub fn rule_words<'a>(heap: Global) -> Arg<'a> {
    words_of(heap)
        .help("KINDS WIDTH TABLE, wolfram N, or - for rules from standard input")
        .long_help(RULE_HELP)
}

/// One rule.
pub fn one_rule_words<'a>(heap: Global) -> Arg<'a> {
    words_of(heap)
        .help("KINDS WIDTH TABLE or wolfram N")
        .long_help(ONE_RULE_HELP)
}

// All words that are no options, wherever options stand among them. A negative number is one of them, so that it is told what is
// wrong with it.
fn words_of<'a>(heap: Global) -> Arg<'a> {
    Arg::new(heap, RULE)
        .action(ArgAction::Append)
        .num_args(1..)
        .allow_negative_numbers(true)
}

/// An option that is there or not.
pub fn flag<'a>(heap: Global, id: &'a str, help: &'a str) -> Arg<'a> {
    Arg::new(heap, id)
        .long(id)
        .action(ArgAction::SetTrue)
        .help(help)
}

/// An option with a value, which may be a negative number, so that it is told what is wrong with that.
pub fn valued<'a>(heap: Global, id: &'a str, value: &'a str, help: &'a str) -> Arg<'a> {
    Arg::new(heap, id)
        .long(id)
        .value_name(value)
        .action(ArgAction::Set)
        .allow_negative_numbers(true)
        .help(help)
}
