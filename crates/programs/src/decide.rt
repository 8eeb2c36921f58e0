// The command `decide`: whether rules can be run backwards, and a picture of the reason.
ghost use Rattle.questions.specs.Answered.{IsDecided};
ghost use Rattle.rules.specs.Rules.{rule_of};

use crate::files::{WholeFile, beside_file};
use crate::rule_lines::answer_lines;
use crate::texts::{STREAM, read_table};
use answers::workspace::Workspace;
use arguments::decide::parse_decide;
use arguments::requests::{Asked, DecideRequest, Picture, Rules};
use faults::fault::Fault;
use questions::decide::{DecidedRule, decide_words};
use questions::rule_text::rule_text;
use reasons::draw;
use reasons::plaque::draw_plaque;
use reasons::terminal::Terminal;
use std::io::Write;

/// Carries out the arguments of `decide`. Nothing is printed before all of them are found to be in order.
pub fn decide(rt: &HostRuntime, args: &[String]) -> Result<(), Fault> {
    match parse_decide(rt.alloc(), args)? {
        Asked::Text(text) => Ok(rt.print(text)?),
        Asked::For(DecideRequest { rules, picture }) => match rules {
            Rules::Input { echo } => answer_lines(rt, &mut Workspace::new(rt.alloc())?, echo),
            Rules::Words(words) => decide_one(rt, words, &picture),
        },
    }
}

// Answers one rule, and draws the reason.
fn decide_one(rt: &HostRuntime, mut words: Vec<String>, picture: &Picture) -> Result<(), Fault> {
    read_table(rt, words.as_mut_slice())?;
    match (decide_words(rt.alloc(), words.as_slice()), picture) {
        (Ok(decided), _) => tell(rt, &decided, picture),
        (Err(fault), Picture::File(file)) => Err(beside_file(rt.alloc(), fault, file.as_str())?),
        (Err(fault), _) => Err(fault),
    }
}

// Prints the answer, and draws the reason.
fn tell(rt: &HostRuntime, decided: &DecidedRule, picture: &Picture) -> Result<(), Fault>
    requires { IsDecided (rule_of decided.now.given.kinds decided.now.given.wide decided.now.given.table.items) decided.now.told.items decided.now.decided }
{
    match picture {
        Picture::None => Ok(println!(rt; "{}", decided.line)?),
        Picture::Printed => print_reason(rt, decided),
        Picture::File(file) => draw_file(rt, decided, file.as_str()),
    }
}

// The answer, the rule that was asked, and the reason below them.
fn print_reason(rt: &HostRuntime, decided: &DecidedRule) -> Result<(), Fault>
    requires { IsDecided (rule_of decided.now.given.kinds decided.now.given.wide decided.now.given.table.items) decided.now.told.items decided.now.decided }
{
    let rule = rule_text(rt.alloc(), &decided.given)?;
    println!(rt; "{}\n\n{rule}\n", decided.line)?;
    let mut terminal = Terminal { rt };
    draw(
        rt.alloc(),
        &mut terminal,
        decided.given.rule(),
        decided.decided,
        decided.told.as_slice(),
    )
}

// Draws the reason in a file, and prints the answer then; or on standard output, which has the drawing only.
fn draw_file(rt: &HostRuntime, decided: &DecidedRule, file: &str) -> Result<(), Fault>
    requires { IsDecided (rule_of decided.now.given.kinds decided.now.given.wide decided.now.given.table.items) decided.now.told.items decided.now.decided }
{
    let plaque = draw_plaque(
        rt.alloc(),
        &decided.given,
        decided.decided,
        decided.told.as_slice(),
    )?;
    if file == STREAM {
        return Ok(rt.stdout().write_all(plaque.as_slice())?);
    }
    let (whole, mut to) = WholeFile::create(rt, file)?;
    match to.write_all(plaque.as_slice()) {
        Ok(()) => whole.finish(rt)?,
        Err(e) => return Err(whole.discard(rt, Fault::Output(e))),
    }
    Ok(println!(rt; "{}", decided.line)?)
}
