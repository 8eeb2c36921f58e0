// Words that clap has read, and its errors.
use crate::options::{ECHO, RULE};
use crate::requests::{Asked, Rules};
use clap::error::ErrorKind;
use clap::{ArgMatches, Command, Error};
use faults::fault::Fault;
use reading::words::join_words;
use std::alloc::{AllocError, Global};

/// The words of an argument.
pub fn values_of(heap: Global, matches: &ArgMatches, id: &str) -> Result<Vec<String>, AllocError> {
    let words = matches.get_strs(id).unwrap_or(&[]);
    words
        .iter()
        .map(|word| String::from_str(heap, word))
        .try_collect(heap)
}

/// The value of an option.
pub fn value_of(
    heap: Global,
    matches: &ArgMatches,
    id: &str,
) -> Result<Option<String>, AllocError> {
    matches
        .get_str(id)
        .map(|word| String::from_str(heap, word))
        .transpose()
}

/// Whether the rules are those of standard input.
pub fn is_input(matches: &ArgMatches) -> bool {
    matches!(matches.get_strs(RULE), Some(&["-"]))
}

/// Which rules are asked about.
pub fn rules_of(heap: Global, matches: &ArgMatches) -> Result<Rules, AllocError> {
    if is_input(matches) {
        let echo = matches.get_flag(ECHO);
        return Ok(Rules::Input { echo });
    }
    Ok(Rules::Words(values_of(heap, matches, RULE)?))
}

/// The option that is only for rules from standard input stands beside this rule.
pub fn echo_alone(
    heap: Global,
    command: &mut Command,
    matches: &ArgMatches,
) -> Result<Fault, AllocError> {
    let words = values_of(heap, matches, RULE)?;
    let found = join_words(heap, words.as_slice())?;
    let message = format!(in heap;
        "the argument '--echo' wants '-' for the rule, and found {found:?}"
    )?;
    conflict(heap, command, message.as_str())
}

/// An error of ours as clap tells its own.
pub fn conflict(heap: Global, command: &mut Command, message: &str) -> Result<Fault, AllocError> {
    usage_fault(heap, command.error(ErrorKind::ArgumentConflict, message)?)
}

/// What an error of clap asks for: help and the version come as errors too.
pub fn asked_of_error<R>(heap: Global, error: Error) -> Result<Asked<R>, Fault> {
    match error.kind() {
        ErrorKind::OutOfMemory => Err(Fault::Memory),
        ErrorKind::DisplayHelp | ErrorKind::DisplayVersion => {
            Ok(Asked::Text(format!(in heap; "{error}")?))
        }
        _ => Err(usage_fault(heap, error)?),
    }
}

fn usage_fault(heap: Global, error: Error) -> Result<Fault, AllocError> {
    let text = format!(in heap; "{error}")?;
    Ok(Fault::Usage(String::from_str(heap, text.as_str().trim_end())?))
}
