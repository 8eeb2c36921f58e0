// Rules from standard input, a line each.
use crate::lines::Line;
use answers::answers_rules::AnswersRules;
use faults::fault::Fault;
use messages::Message;
use questions::answer::answer_words;
use std::alloc::Global;
use std::io::{ErrorKind, Read};

// So many bytes are read at once.
const READ: usize = 8192;

// So many bytes of answers are held, so that most often one write answers all lines that one read gave.
const MOST_PENDING: usize = 131_072;

/// Answers the rules of standard input. What one read gave is answered before the next, so that a line that comes alone is
/// answered at once. With echo each answer stands behind its rule and a tab.
pub fn answer_lines<A: AnswersRules>(
    rt: &HostRuntime,
    answers: &mut A,
    echo: bool,
) -> Result<(), Fault> {
    let mut bytes = vec![in rt.alloc(); 0; READ]?;
    let mut input = Lines::new(rt, echo);
    // A `for`: more reads than these no machine does.
    for _read in 0..u64::MAX {
        match rt.stdin().read(bytes.as_mut_slice()) {
            Ok(0) => return input.finish(answers),
            Ok(n) => input.take(answers, &bytes.as_slice()[..n])?,
            Err(e) if e.kind() == ErrorKind::Interrupted => {}
            Err(e) => return Err(Fault::Input(e)),
        }
    }
    Ok(())
}

// The line that is being read, and the answers that are not written yet.
#[derive(Drop)]
struct Lines<'a> {
    rt: &'a HostRuntime,
    echo: bool,
    line: Line,
    pending: String,
}

impl<'a> Lines<'a> {
    fn new(rt: &'a HostRuntime, echo: bool) -> Lines<'a> {
        Lines {
            rt,
            echo,
            line: Line::new(rt.alloc()),
            pending: String::new(rt.alloc()),
        }
    }

    // Answers the lines that end in these bytes. What is answered is written also where a later line cannot be.
    fn take<A: AnswersRules>(&mut self, answers: &mut A, bytes: &[u8]) -> Result<(), Fault> {
        let taken = self.take_bytes(answers, bytes);
        self.write()?;
        taken
    }

    fn take_bytes<A: AnswersRules>(&mut self, answers: &mut A, bytes: &[u8]) -> Result<(), Fault> {
        for &byte in bytes {
            if byte == b'\n' {
                self.answer(answers)?;
            } else {
                self.line.push(byte)?;
            }
        }
        Ok(())
    }

    // The last line may end without a newline.
    fn finish<A: AnswersRules>(&mut self, answers: &mut A) -> Result<(), Fault> {
        if self.line.is_empty() {
            return Ok(());
        }
        self.answer(answers)?;
        self.write()
    }

    // Answers the line, and begins the next.
    fn answer<A: AnswersRules>(&mut self, answers: &mut A) -> Result<(), Fault> {
        let answer = line_answer(self.rt.alloc(), &self.line, answers)?;
        if self.echo {
            let echo = self.line.echo(self.rt.alloc())?;
            self.add(echo.as_str())?;
            self.add("\t")?;
        }
        self.line.clear();
        self.add(answer.as_str())?;
        self.add("\n")
    }

    // Holds a text, to be written with others, unless it is a large table.
    fn add(&mut self, text: &str) -> Result<(), Fault> {
        if self.pending.len().saturating_add(text.len()) > MOST_PENDING {
            self.write()?;
        }
        if text.len() > MOST_PENDING {
            return Ok(self.rt.stdout().write_all(text.as_bytes())?);
        }
        Ok(self.pending.push_str(text)?)
    }

    fn write(&mut self) -> Result<(), Fault> {
        if !self.pending.is_empty() {
            self.rt.stdout().write_all(self.pending.as_bytes())?;
            self.pending.clear();
        }
        Ok(())
    }
}

// The answer to a line. What is no rule is answered too.
fn line_answer<A: AnswersRules>(
    heap: Global,
    line: &Line,
    answers: &mut A,
) -> Result<String, Fault> {
    let answer = match line.words(heap) {
        Ok(words) => answer_words(heap, answers, words.as_slice()),
        Err(fault) => Err(fault),
    };
    match answer {
        Ok(answer) => Ok(answer),
        Err(fault) if fault.is_failure() => Err(fault),
        Err(fault) => reason_line(heap, &fault),
    }
}

// Why a line is no rule.
fn reason_line(heap: Global, fault: &Fault) -> Result<String, Fault> {
    match fault {
        Fault::NoRule(_) => Ok(format!(in heap; "{}", Message(fault))?),
        _ => Ok(format!(in heap; "no rule: {}", Message(fault))?),
    }
}
