// The arguments of `run`.
use crate::options::{RULE, SVG, command, flag, one_rule_words, valued};
use crate::parsed::{asked_of_error, conflict, value_of, values_of};
use crate::requests::{Asked, Output, RunRequest, Source};
use clap::{ArgMatches, Command};
use faults::fault::Fault;
use faults::name::Name;
use reading::words::number;
use running::run::Mode;
use std::alloc::{AllocError, Global};
use std::str::FromStr;

const ROW: &str = "row";

const RANDOM: &str = "random";

const SEED: &str = "seed";

const SINGLE: &str = "single";

const CELLS: &str = "cells";

const STEPS: &str = "steps";

const PLACE: &str = "place";

const BACK: &str = "back";

const CENTRE: &str = "centre";

const LAST: &str = "last";

const SHOW: &str = "show";

// How many cells a row at random has, and a row with a single cell, where it is not said.
const RANDOM_CELLS: usize = 64;

const SINGLE_CELLS: usize = 79;

const USAGE: &str = "undone run KINDS WIDTH TABLE [OPTION]...
       undone run wolfram N [OPTION]...
       undone run wolfram KINDS WIDTH N [OPTION]...";

const HELP: &str = "\
Runs a rule on a row of cells in a ring, and prints each row, the oldest first.
CELLS are one digit a cell, 0 to 9 and a to f.";

/// What the arguments of `run` ask for.
pub fn parse_run(heap: Global, args: &[String]) -> Result<Asked<RunRequest>, Fault> {
    let mut command = run_command(heap)?;
    let matches = match command.try_get_matches_from_mut(args) {
        Ok(matches) => matches,
        Err(error) => return asked_of_error(heap, error),
    };
    if let Some(seed) = matches.get_str(SEED) {
        if !matches.contains_id(RANDOM) {
            let message = format!(in heap;
                "the argument '--seed \"{seed}\"' wants '--random <N>'"
            )?;
            return Err(conflict(heap, &mut command, message.as_str())?);
        }
    }
    Ok(Asked::For(request_of(heap, &matches)?))
}

fn run_command<'a>(heap: Global) -> Result<Command<'a>, AllocError> {
    with_rows(heap, with_start(heap, with_rule(heap)?)?)
}

// The rule, and how it is run.
fn with_rule<'a>(heap: Global) -> Result<Command<'a>, AllocError> {
    command(heap, "run", "undone run")?
        .about("Runs a rule on a row of cells in a ring, and prints each row")
        .long_about(HELP)
        .override_usage(USAGE)
        .arg(one_rule_words(heap))?
        .arg(
            valued(
                heap,
                PLACE,
                "O",
                "TABLE is a way back at place O, of any WIDTH",
            )
            .conflicts_with(BACK)?
            .conflicts_with(CENTRE)?,
        )?
        .arg(flag(heap, BACK, "Run the rule backwards, by its least way back"))?
        .arg(flag(
            heap,
            CENTRE,
            "Move each second's row (WIDTH - 1) / 2 cells to the right",
        ))
}

// Where the first row comes from.
fn with_start<'a>(heap: Global, command: Command<'a>) -> Result<Command<'a>, AllocError> {
    command
        .arg(
            valued(
                heap,
                ROW,
                "CELLS",
                "Begin with this row; - is standard input, and @FILE a file",
            )
            .conflicts_with(RANDOM)?
            .conflicts_with(SEED)?
            .conflicts_with(SINGLE)?
            .conflicts_with(CELLS)?,
        )?
        .arg(
            valued(
                heap,
                RANDOM,
                "N",
                "Begin with N cells at random (64 where no row is given)",
            )
            .conflicts_with(SINGLE)?
            .conflicts_with(CELLS)?,
        )?
        .arg(valued(heap, SEED, "S", "Draw them from the number S (1)"))?
        .arg(flag(
            heap,
            SINGLE,
            "Begin with one cell of kind 1 amid cells of kind 0",
        ))?
        .arg(valued(heap, CELLS, "N", "Of so many cells in all (79)").requires_arg(SINGLE)?)
}

// Which rows are shown, and how.
fn with_rows<'a>(heap: Global, command: Command<'a>) -> Result<Command<'a>, AllocError> {
    command
        .arg(valued(heap, STEPS, "N", "Go on for N seconds (16)"))?
        .arg(flag(heap, LAST, "Print only the last row"))?
        .arg(flag(heap, SHOW, "Draw the cells in place of their digits").conflicts_with(SVG)?)?
        .arg(valued(
            heap,
            SVG,
            "FILE",
            "Draw the rows in an SVG file; - is standard output",
        ))
}

fn request_of(heap: Global, matches: &ArgMatches) -> Result<RunRequest, Fault> {
    Ok(RunRequest {
        words: values_of(heap, matches, RULE)?,
        mode: mode_of(heap, matches)?,
        centre: matches.get_flag(CENTRE),
        source: source_of(heap, matches)?,
        steps: number_of(heap, matches, STEPS, Name::Steps)?.unwrap_or(16),
        last: matches.get_flag(LAST),
        output: output_of(heap, matches)?,
    })
}

fn mode_of(heap: Global, matches: &ArgMatches) -> Result<Mode, Fault> {
    if matches.get_flag(BACK) {
        return Ok(Mode::Backwards);
    }
    match number_of(heap, matches, PLACE, Name::Place)? {
        Some(place) => Ok(Mode::WayBack(place)),
        None => Ok(Mode::Forwards),
    }
}

// The row that is typed, one with a single cell, or one at random.
fn source_of(heap: Global, matches: &ArgMatches) -> Result<Source, Fault> {
    if let Some(row) = value_of(heap, matches, ROW)? {
        if row.is_empty() {
            return Err(Fault::NoValue(Name::Row));
        }
        return Ok(Source::Row(row));
    }
    if matches.get_flag(SINGLE) {
        let cells = number_of(heap, matches, CELLS, Name::Cells)?.unwrap_or(SINGLE_CELLS);
        return Ok(Source::Single { cells });
    }
    let cells = number_of(heap, matches, RANDOM, Name::Random)?.unwrap_or(RANDOM_CELLS);
    let seed = number_of(heap, matches, SEED, Name::Seed)?.unwrap_or(1);
    Ok(Source::Random { cells, seed })
}

fn output_of(heap: Global, matches: &ArgMatches) -> Result<Output, Fault> {
    match value_of(heap, matches, SVG)? {
        Some(file) if file.is_empty() => Err(Fault::NoValue(Name::Svg)),
        Some(file) => Ok(Output::File(file)),
        None if matches.get_flag(SHOW) => Ok(Output::Glyphs),
        None => Ok(Output::Digits),
    }
}

// The number that is the value of an option, if there is one.
fn number_of<N: FromStr>(
    heap: Global,
    matches: &ArgMatches,
    id: &str,
    name: Name,
) -> Result<Option<N>, Fault>
where
    N::Err: Drop,
{
    match matches.get_str(id) {
        Some(word) => match number(heap, name, word) {
            Ok(n) => Ok(Some(n)),
            Err(words) => Err(Fault::NotRun(words)),
        },
        None => Ok(None),
    }
}
