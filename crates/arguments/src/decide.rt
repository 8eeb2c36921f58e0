// The arguments of `decide`.
use crate::options::{ANSWER, ECHO, SVG, command, flag, rule_words, valued};
use crate::parsed::{asked_of_error, conflict, echo_alone, is_input, rules_of, value_of};
use crate::requests::{Asked, DecideRequest, Picture};
use clap::{ArgMatches, Command};
use faults::fault::Fault;
use faults::name::Name;
use std::alloc::{AllocError, Global};

const USAGE: &str = "undone decide KINDS WIDTH TABLE [OPTION]...
       undone decide wolfram N [OPTION]...
       undone decide wolfram KINDS WIDTH N [OPTION]...
       undone decide - [--echo]";

const HELP: &str = "\
Tells whether a rule can be run backwards, and draws the reason. The first line
is the answer:

  undone WIDTH PLACE TABLE
         the least way back: WIDTH cells of the next row tell the cell that
         stands PLACE places on from the first of them; TABLE is the word full
         where it has more than 262144 cells
  orphan PIECE
         the shortest piece that comes from none, and of these the first
  twins LEFT MIDDLE RIGHT LEFT MIDDLE RIGHT
         two rows that differ and have one next row: each has LEFT again and
         again to the left of MIDDLE, and RIGHT again and again to the right
  no rule: REASON
         what is wrong with the rule";

/// What the arguments of `decide` ask for.
pub fn parse_decide(heap: Global, args: &[String]) -> Result<Asked<DecideRequest>, Fault> {
    let mut command = decide_command(heap)?;
    let matches = match command.try_get_matches_from_mut(args) {
        Ok(matches) => matches,
        Err(error) => return asked_of_error(heap, error),
    };
    if is_input(&matches) && matches.contains_id(SVG) {
        let message = "the argument '-' cannot be used with '--svg <FILE>'";
        return Err(conflict(heap, &mut command, message)?);
    }
    if matches.get_flag(ECHO) && !is_input(&matches) {
        return Err(echo_alone(heap, &mut command, &matches)?);
    }
    Ok(Asked::For(DecideRequest {
        rules: rules_of(heap, &matches)?,
        picture: picture_of(heap, &matches)?,
    }))
}

fn decide_command<'a>(heap: Global) -> Result<Command<'a>, AllocError> {
    command(heap, "decide", "undone decide")?
        .about("Tells whether a rule can be run backwards, and draws the reason")
        .long_about(HELP)
        .override_usage(USAGE)
        .arg(rule_words(heap))?
        .arg(valued(
            heap,
            SVG,
            "FILE",
            "Draw the picture in an SVG file; - is standard output",
        ))?
        .arg(flag(heap, ANSWER, "Print the answer only").conflicts_with(SVG)?)?
        .arg(flag(
            heap,
            ECHO,
            "With -: print each rule, and its answer behind a tab",
        ))
}

fn picture_of(heap: Global, matches: &ArgMatches) -> Result<Picture, Fault> {
    match value_of(heap, matches, SVG)? {
        Some(file) if file.is_empty() => Err(Fault::NoValue(Name::Svg)),
        Some(file) => Ok(Picture::File(file)),
        None if matches.get_flag(ANSWER) => Ok(Picture::None),
        None => Ok(Picture::Printed),
    }
}
