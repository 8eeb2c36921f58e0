// Why a command is not carried out.
ghost use Rattle.std.specs.Prelude.{◌≡◌, Decides};
ghost use Rattle.faults.specs.Failure.{Failure, NextGives};
ghost use Rattle.faults.specs.declared.fault.Fault.TheVariants.{Memory as no_memory, Text as no_text, Ring as no_ring, Drawing as no_drawing, Output as no_output};

use crate::name::Name;
use crate::no_words::{BadCells, NoWords};
use ring::NoRing;
use rows::next::NoNext;
use rules::row::NoRow;
use std::alloc::{AllocError, AllocFailed};
use std::io;
use svg::drawing::NoDrawing;
use text::parse::NoCells;
use text::print::NoText;

/// Why a command is not carried out, with what was found of what was typed.
#[derive(Debug, Drop)]
pub enum Fault {
    /// What the parser of arguments says of them, with their usage.
    Usage(String),
    /// An argument, by its place from 1 on, that is no text in UTF-8, as far as it is text.
    NoUtf8(usize, String),
    /// An option whose value is empty.
    NoValue(Name),
    /// The option --svg stood before the rule, with no file of its own: what it took for that, and the words that are left.
    RuleTakenForFile {
        file: String,
        rest: String,
    },
    /// What is no rule to be decided, for commands that answer it.
    NoRule(NoWords),
    /// What is no rule to be decided, for commands that want one.
    NotDecided(NoWords),
    /// What is neither a rule to be run nor a way back.
    NotRun(NoWords),
    /// A line of standard input that is too long to be a rule.
    LongLine,
    /// A line of standard input that is no text in UTF-8.
    NotText,
    /// The cells of a row.
    Cells(BadCells),
    Ring(NoRing),
    LongRow,
    /// Two lines of cells in place of one, of a file or of standard input.
    TwoLines {
        from: String,
        first: String,
        second: String,
    },
    /// The cells of a file or of standard input, as they begin, and more spaces around them than are read.
    ManySpaces {
        from: String,
        found: String,
    },
    LargePicture,
    /// The answer to a rule that has no way back.
    NotUndone(String),
    /// The answer to a rule whose way back is too large to be run.
    FullWayBack(String),
    Next(NoRow),
    Text(NoText),
    Drawing(NoDrawing),
    /// A file that cannot be read.
    Unread(String, io::Error),
    /// A file that cannot be written.
    Unwritten(String, io::Error),
    Input(io::Error),
    Output(io::Error),
    Memory,
}

impl Fault {
    // Whether it is no fault of what was given, so that there is no going on.
    pub fn is_failure(&self) -> bool
        ensures { Decides result (Failure self.now) }
    {
        matches!(
            self,
            Fault::NoRule(NoWords::Memory)
                | Fault::NotDecided(NoWords::Memory)
                | Fault::NotRun(NoWords::Memory)
                | Fault::Cells(BadCells {
                    reason: NoCells::Memory,
                    ..
                })
                | Fault::Text(NoText::Memory)
                | Fault::Drawing(NoDrawing::Stream(_))
                | Fault::Input(_)
                | Fault::Output(_)
                | Fault::Memory
        )
    }
}

// By hand, all of them: contracts name the fault, and what `thiserror` derives has no contract.
impl From<AllocError> for Fault {
    ghost from_gives = { λ _ r. r ≡ no_memory };

    fn from(_e: AllocError) -> Fault {
        Fault::Memory
    }
}

impl<T: Drop> From<AllocFailed<T>> for Fault {
    ghost from_gives = { λ _ r. r ≡ no_memory };

    fn from(_e: AllocFailed<T>) -> Fault {
        Fault::Memory
    }
}

impl From<NoText> for Fault {
    ghost from_gives = { λ e r. r ≡ no_text e };

    fn from(e: NoText) -> Fault {
        Fault::Text(e)
    }
}

impl From<NoRing> for Fault {
    ghost from_gives = { λ e r. r ≡ no_ring e };

    fn from(e: NoRing) -> Fault {
        Fault::Ring(e)
    }
}

impl From<NoNext> for Fault {
    ghost from_gives = { NextGives };

    fn from(e: NoNext) -> Fault {
        match e {
            NoNext::Row(e) => Fault::Next(e),
            NoNext::Memory => Fault::Memory,
        }
    }
}

impl From<NoDrawing> for Fault {
    ghost from_gives = { λ e r. r ≡ no_drawing e };

    fn from(e: NoDrawing) -> Fault {
        Fault::Drawing(e)
    }
}

// What fails without a name is standard output: files and standard input are named where they are used.
impl From<io::Error> for Fault {
    ghost from_gives = { λ e r. r ≡ no_output e };

    fn from(e: io::Error) -> Fault {
        Fault::Output(e)
    }
}
