// The command `run`: a row in a ring, forwards by a rule, or backwards by a way back.
use crate::files::{WholeFile, beside_file};
use crate::progress::Watched;
use crate::start::RequestedStart;
use crate::texts::{STREAM, read_table};
use arguments::requests::{Asked, Output, RunRequest};
use arguments::run::parse_run;
use faults::fault::Fault;
use running::output::{Diagram, Printed};
use running::prepare::{prepare, run_rows};
use running::ready::ReadyRun;
use running::run::Run;
use std::io::{BufWriter, IsTerminal, Write};
use svg::drawing::NoDrawing;
use text::print::Alphabet;

// The most cells of all rows of a drawing: 12,000 cells and 1,000 seconds are fewer.
const MOST_SQUARES: usize = 16_777_216;

/// Carries out the arguments of `run`. Nothing is printed before all of them are found to be in order.
pub fn run(rt: &HostRuntime, args: &[String]) -> Result<(), Fault> {
    match parse_run(rt.alloc(), args)? {
        Asked::Text(text) => Ok(rt.print(text)?),
        Asked::For(request) => run_request(rt, request),
    }
}

fn run_request(rt: &HostRuntime, request: RunRequest) -> Result<(), Fault> {
    let RunRequest {
        mut words,
        mode,
        centre,
        source,
        steps,
        last,
        output,
    } = request;
    let title = title_of(rt, words.as_slice())?;
    read_table(rt, words.as_mut_slice())?;
    let run = Run {
        mode,
        centre,
        steps,
        last,
    };
    let start = RequestedStart { rt, source };
    let ready = match (prepare(rt.alloc(), words.as_slice(), &run, start), &output) {
        (Ok(ready), _) => ready,
        (Err(fault), Output::File(file)) => {
            return Err(beside_file(rt.alloc(), fault, file.as_str())?);
        }
        (Err(fault), _) => return Err(fault),
    };
    // The text of a large table is let go before it is run, as that of a long row is by now.
    drop(words);
    match output {
        Output::Digits => print_rows(rt, ready, run, Alphabet::Digits),
        Output::Glyphs => print_rows(rt, ready, run, Alphabet::Glyphs),
        Output::File(file) => draw_rows(rt, ready, run, file.as_str(), title.as_str()),
    }
}

// A name for a drawing: the words of the rule, each cut where it is long.
fn title_of(rt: &HostRuntime, words: &[String]) -> Result<String, Fault> {
    let mut title = String::from_str(rt.alloc(), "Rule")?;
    for word in words {
        write!(title, " {word:.64}")?;
    }
    Ok(title)
}

// Prints the rows. Those that come one by one on a terminal show themselves how far the run is.
fn print_rows(
    rt: &HostRuntime,
    ready: ReadyRun,
    run: Run,
    alphabet: Alphabet,
) -> Result<(), Fault> {
    let shows = rt.stderr().is_terminal() && (run.last || !rt.stdout().is_terminal());
    let printed = Printed::new(rt.alloc(), rt.stdout(), ready.cells(), alphabet)?;
    let mut rows = Watched::new(rt, printed, shows, run.steps)?;
    let ran = run_rows(ready, &mut rows);
    rows.finish()?;
    ran
}

// Draws the rows in a file, which is made when their number is found to be in order.
fn draw_rows(
    rt: &HostRuntime,
    ready: ReadyRun,
    run: Run,
    file: &str,
    title: &str,
) -> Result<(), Fault> {
    let steps = usize::try_from(run.steps).unwrap_or(usize::MAX);
    let rows = if run.last { 1 } else { steps.saturating_add(1) };
    if ready.cells().saturating_mul(rows) > MOST_SQUARES {
        return Err(Fault::LargePicture);
    }
    if file == STREAM {
        return draw_to(rt, ready, run, rows, title, rt.stdout()).map_err(to_output);
    }
    let (whole, to) = WholeFile::create(rt, file)?;
    match draw_to(rt, ready, run, rows, title, to).map_err(to_output) {
        Ok(()) => whole.finish(rt),
        Err(fault) => Err(whole.discard(rt, fault)),
    }
}

// A stream that fails is told in one way, wherever it failed.
fn to_output(fault: Fault) -> Fault {
    match fault {
        Fault::Drawing(NoDrawing::Stream(e)) => Fault::Output(e),
        fault => fault,
    }
}

fn draw_to<W: Write + Drop>(
    rt: &HostRuntime,
    ready: ReadyRun,
    run: Run,
    rows: usize,
    title: &str,
    to: W,
) -> Result<(), Fault> {
    let to = BufWriter::new(rt.alloc(), to)?;
    let diagram = Diagram::new(to, ready.cells(), rows, title)?;
    let mut watched = Watched::new(rt, diagram, rt.stderr().is_terminal(), run.steps)?;
    let ran = run_rows(ready, &mut watched);
    let diagram = watched.finish()?;
    ran?;
    diagram.finish()?.flush()?;
    Ok(())
}
