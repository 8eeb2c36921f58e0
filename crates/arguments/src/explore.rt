// The arguments of the program `explore`: a command by its name, and what it is asked about.
use crate::options::{ANSWER, ECHO, command, flag, rule_words};
use crate::parsed::{asked_of_error, echo_alone, is_input, rules_of};
use crate::requests::{Asked, FiniteRequest};
use clap::Command;
use faults::fault::Fault;
use std::alloc::{AllocError, Global};

const FINITE: &str = "finite";

const FINITE_USAGE: &str = "undone finite KINDS WIDTH TABLE [--answer]
       undone finite wolfram N [--answer]
       undone finite wolfram KINDS WIDTH N [--answer]
       undone finite - [--echo]";

const FINITE_HELP: &str = "\
Finds two rows that differ at finitely many places and have one next row, with
the fewest cells between the first and the last that differ, and draws them.

The first line is the answer:

  twins LEFT MIDDLE RIGHT LEFT MIDDLE RIGHT
         the rows differ in their MIDDLEs only: LEFT and RIGHT, of WIDTH - 1
         cells, are the same in both, and so are all cells beyond these
  none
         no two such rows have one next row
  no rule: REASON
         what is wrong with the rule

A rule has such rows exactly if it has an orphan, a piece that comes from none.";

/// What the arguments of `explore` ask for.
pub fn parse_explore(heap: Global, args: &[String]) -> Result<Asked<FiniteRequest>, Fault> {
    let mut command = explore_command(heap)?;
    let matches = match command.try_get_matches_from_mut(args) {
        Ok(matches) => matches,
        Err(error) => return asked_of_error(heap, error),
    };
    let Some((FINITE, finite)) = matches.subcommand() else {
        return Err(Fault::Usage(String::new(heap)));
    };
    if finite.get_flag(ECHO) && !is_input(finite) {
        return Err(echo_alone(heap, &mut command, finite)?);
    }
    Ok(Asked::For(FiniteRequest {
        rules: rules_of(heap, finite)?,
        picture: !finite.get_flag(ANSWER),
    }))
}

fn explore_command<'a>(heap: Global) -> Result<Command<'a>, AllocError> {
    command(heap, "explore", "undone")?
        .propagate_version(true)
        .about("Answers questions about rules, beside whether they can be run backwards")
        .subcommand_required(true)
        .disable_help_subcommand(true)
        .subcommand(finite_command(heap)?)
}

fn finite_command<'a>(heap: Global) -> Result<Command<'a>, AllocError> {
    Command::new(heap, FINITE)
        .display_name("undone finite")?
        .about("Finds rows that differ at finitely many places, with one next row")
        .long_about(FINITE_HELP)
        .override_usage(FINITE_USAGE)
        .arg(rule_words(heap).required(true))?
        .arg(flag(heap, ANSWER, "Print the answer only"))?
        .arg(flag(
            heap,
            ECHO,
            "With -: print each rule, and its answer behind a tab",
        ))
}
