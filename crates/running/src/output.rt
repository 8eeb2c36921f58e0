// Where the rows of a run go.
ghost use Rattle.std.specs.Prelude.{◌≡◌, ℕ, List, [], ◌∷◌, ◌++◌, refl, IfOk, MatchResult};
ghost use Rattle.std.specs.Io.KnownBytes.{Appends};
ghost use Rattle.faults.specs.Failure.{Failure, NotShown};
ghost use Rattle.rules.specs.Rules.{Cells};
ghost use Rattle.running.specs.Grown.{appends_nothing, counted_behind, printed_behind};
ghost use Rattle.running.specs.Lines.{lines_of, counted};

use faults::fault::Fault;
use std::alloc::{AllocError, Global};
use std::io;
use std::io::Write;
use svg::drawing::Drawing;
use text::print::{Alphabet, write_cells};

/// What takes the rows of a run, one after another, the oldest first. Cells of the first 16 kinds can be shown.
pub trait Rows {
    // What was added between two states.
    ghost grows: { Self → List (List ℕ) → Self → Type 0 };

    fn add(&mut self, cells: &[u32]) -> Result<(), Fault>
        ensures { MatchResult result
            (λ _. Cells 16 cells.now × grows self.old (cells.now ∷ []) self.new)
            (NotShown cells.now) };

    /// Tells that so many seconds of a run are done, where their rows are not added.
    fn passed(&mut self, _seconds: u64) -> Result<(), Fault>
        ensures { MatchResult result (λ _. grows self.old [] self.new) Failure }
    {
        Ok(())
    }

    ghost nothing: { (s : Self) → grows s [] s };

    ghost behind: { (s t z : Self) (us ws : List (List ℕ)) → grows s us t → grows t ws z → grows s (us ++ ws) z };
}

/// Rows that are written to a stream, each on a line of its own.
#[derive(Drop)]
pub struct Printed<W> {
    to: W,
    line: String,
    alphabet: Alphabet,
}

impl<W: Write + Drop> Printed<W> {
    // The line has room for a row of so many cells and need not grow: a glyph has three bytes at most.
    pub fn new(
        heap: Global,
        to: W,
        cells: usize,
        alphabet: Alphabet,
    ) -> Result<Printed<W>, AllocError>
        ensures { IfOk result (λ p. (p.to ≡ to) × (p.alphabet ≡ alphabet)) }
    {
        let most = match alphabet {
            Alphabet::Digits => 1,
            Alphabet::Glyphs => 3,
        };
        let bytes = cells.saturating_mul(most).saturating_add(1);
        let line = String::with_capacity(heap, bytes)?;
        Ok(Printed { to, line, alphabet })
    }

    /// What the rows were written to.
    pub fn into_inner(self) -> W
        ensures { result ≡ self.to }
    {
        self.to
    }
}

impl<W: Write + Drop> Rows for Printed<W> {
    ghost grows = { λ s us t. (t.alphabet ≡ s.alphabet) × Appends (W.contents s.to) (W.contents t.to) (lines_of s.alphabet us) };

    fn add(&mut self, cells: &[u32]) -> Result<(), Fault> {
        self.line.clear();
        write_cells(&mut self.line, self.alphabet, cells)?;
        self.line.push('\n')?;
        Ok(self.to.write_all(self.line.as_bytes())?)
    }

    ghost nothing = { λ s. (refl, appends_nothing (W.contents s.to)) };

    ghost behind = { λ s t z us ws p q. printed_behind _ _ _ _ _ _ us ws p.0 p.1 q.0 q.1 };
}

// How wide a diagram of few cells may get, and how large its cells.
const MOST_PIXELS: usize = 1200;

const MOST_SIZE: usize = 16;

/// Rows that are drawn, one below another: time goes down.
#[derive(Drop)]
pub struct Diagram<W> {
    drawing: Drawing<W>,
    rows: usize,
}

impl<W: Write + Drop> Diagram<W> {
    /// A diagram of so many rows, each of so many cells.
    pub fn new(to: W, columns: usize, rows: usize, title: &str) -> io::Result<Diagram<W>>
        ensures { IfOk result (λ d. d.rows ≡ 0) }
    {
        let size = (MOST_PIXELS / columns.max(1)).clamp(1, MOST_SIZE);
        let mut drawing = Drawing::new(to);
        drawing.begin(
            columns.saturating_mul(size),
            rows.saturating_mul(size),
            title,
        )?;
        drawing.begin_cells(0, 0, size)?;
        drawing.frame(columns, rows)?;
        Ok(Diagram { drawing, rows: 0 })
    }

    /// Ends the drawing, and gives what it went to.
    pub fn finish(mut self) -> io::Result<W> {
        self.drawing.end_cells()?;
        self.drawing.finish()
    }
}

// No clause says which bytes a drawing has: the rows are counted.
impl<W: Write + Drop> Rows for Diagram<W> {
    ghost grows = { λ s us t. t.rows ≡ counted s.rows us };

    fn add(&mut self, cells: &[u32]) -> Result<(), Fault> {
        self.drawing.cells(self.rows, cells)?;
        self.rows = self.rows.saturating_add(1);
        Ok(())
    }

    ghost nothing = { λ s. refl };

    ghost behind = { λ s t z us ws p q. counted_behind s.rows t.rows z.rows us ws p q };
}
