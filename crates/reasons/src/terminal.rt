// Pictures as text. No line of them has more than 79 columns. Each print is a write of its own, and a stream may fail between two: so a
// line is put together first, and printed whole.
use crate::canvas::Canvas;
use faults::fault::Fault;
use text::print::{Alphabet, write_cells};

#[derive(Drop)]
pub struct Terminal<'a> {
    pub rt: &'a HostRuntime,
}

impl Canvas for Terminal<'_> {
    fn words(&mut self, words: &str) -> Result<(), Fault> {
        Ok(println!(self.rt; "{words}")?)
    }

    fn second(&mut self, second: u32, row: &[u32], note: &str) -> Result<(), Fault> {
        let mut glyphs = String::new(self.rt.alloc());
        write_cells(&mut glyphs, Alphabet::Glyphs, row)?;
        Ok(println!(self.rt; "{second:>2} {glyphs} {note}")?)
    }

    fn digits(&mut self, label: &str, digits: &[usize]) -> Result<(), Fault> {
        let mut line = format!(in self.rt.alloc(); "{label:<14}")?;
        for digit in digits {
            write!(line, " {digit:x}")?;
        }
        self.words(line.as_str())
    }

    fn set(
        &mut self,
        cells: usize,
        last: Option<u32>,
        members: &[bool],
        note: &str,
    ) -> Result<(), Fault> {
        let mut line = match last {
            Some(cell) => format!(in self.rt.alloc(); "{cells:>5}{cell:>6x}   ")?,
            None => format!(in self.rt.alloc(); "{cells:>5}{:9}", "")?,
        };
        for &member in members {
            line.push_str(if member { " #" } else { " ." })?;
        }
        if !note.is_empty() {
            write!(line, "   {note}")?;
        }
        self.words(line.as_str())
    }

    fn endless(&mut self, label: &str, cells: &[u32]) -> Result<(), Fault> {
        let mut digits = String::new(self.rt.alloc());
        write_cells(&mut digits, Alphabet::Digits, cells)?;
        Ok(println!(self.rt; "{label:<10}..{digits}..")?)
    }

    fn marks(&mut self, label: &str, mark: char, marks: &[bool]) -> Result<(), Fault> {
        let shown = marks
            .iter()
            .rposition(|&marked| marked)
            .map_or(0, |last| last.saturating_add(1));
        let mut line = format!(in self.rt.alloc(); "{label:<12}")?;
        for &marked in marks.iter().take(shown) {
            line.push(if marked { mark } else { ' ' })?;
        }
        self.words(line.as_str())
    }
}
