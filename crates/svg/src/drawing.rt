// A drawing that is written to a file, or into memory, element by element.
ghost use Rattle.std.specs.Prelude.{◌≡◌, MatchResult};
ghost use Rattle.rules.specs.Rules.{Cells};
ghost use Rattle.svg.specs.Colours.{Uncoloured};
ghost use Rattle.svg.specs.declared.drawing.NoDrawing.TheVariants.{Stream as no_stream};

use crate::runs::{Run, Runs};
use rules::cells::stray;
use std::io;
use std::io::Write;
use thiserror::Error;

// How many kinds have a colour.
const COLOURS: u32 = 16;

// Kind 0 is the white paper. Any two colours are far apart with normal sight and with each kind of colour blindness, as
// tools/colours.py computes.
const STYLE: &str = "\
<style>
text{font:13px monospace;fill:#1a1a1a;white-space:pre}
.heading{font-size:16px;font-weight:bold}
.paper{fill:#f4f4f0}
.frame{fill:#fff;stroke:#a0a0a0;vector-effect:non-scaling-stroke}
path{shape-rendering:crispEdges}
.grid{fill:none;stroke:#a0a0a0;stroke-width:.5;vector-effect:non-scaling-stroke}
.mark{fill:#a04000}
.k1{fill:#1a1a1a}
.k2{fill:#0072b2}
.k3{fill:#e69f00}
.k4{fill:#a04000}
.k5{fill:#40c0ff}
.k6{fill:#606060}
.k7{fill:#a0a0a0}
.k8{fill:#0000a0}
.k9{fill:#c0ffa0}
.k10{fill:#a08060}
.k11{fill:#402000}
.k12{fill:#002040}
.k13{fill:#a0c080}
.k14{fill:#ffe000}
.k15{fill:#8080ff}
</style>
";

// Why cells were not drawn: the place is that of the first cell without a colour.
#[derive(Debug, Drop, Error)]
pub enum NoDrawing {
    #[error("the cell at place {place} has no colour")]
    NoColour { place: usize },
    #[error("the drawing cannot be written: {0}")]
    Stream(io::Error),
}

// By hand: a contract tells it from `NoColour`, and what `thiserror` derives has no contract.
impl From<io::Error> for NoDrawing {
    ghost from_gives = { λ e r. r ≡ no_stream e };

    fn from(e: io::Error) -> NoDrawing {
        NoDrawing::Stream(e)
    }
}

// Lengths are in pixels. Cells are squares of the size of their group, and are counted in it.
#[derive(Drop)]
pub struct Drawing<W> {
    to: W,
}

impl<W: Write + Drop> Drawing<W> {
    pub fn new(to: W) -> Drawing<W>
        ensures { result.to ≡ to }
    {
        Drawing { to }
    }

    // Begins the file of a drawing of this size. The title is what a browser calls it.
    pub fn begin(&mut self, width: usize, height: usize, title: &str) -> io::Result<()> {
        writeln!(
            self.to,
            "<svg xmlns=\"http://www.w3.org/2000/svg\" width=\"{width}\" height=\"{height}\" viewBox=\"0 0 {width} {height}\">"
        )?;
        write!(self.to, "<title>")?;
        self.letters(title)?;
        writeln!(self.to, "</title>")?;
        self.to.write_all(STYLE.as_bytes())?;
        self.rectangle("paper", 0, 0, width, height)
    }

    // Ends the file, and gives what it went to.
    pub fn finish(mut self) -> io::Result<W> {
        writeln!(self.to, "</svg>")?;
        self.to.flush()?;
        Ok(self.to)
    }

    // Adds what was drawn into memory, for a drawing whose size is known at its end only.
    pub fn paste(&mut self, drawn: Drawing<Vec<u8>>) -> io::Result<()> {
        self.to.write_all(drawn.to.as_slice())
    }

    // A line of words, by the left end of the line that they stand on.
    pub fn words(&mut self, x: usize, y: usize, words: &str) -> io::Result<()> {
        self.line("words", x, y, words)
    }

    pub fn heading(&mut self, x: usize, y: usize, words: &str) -> io::Result<()> {
        self.line("heading", x, y, words)
    }

    // Begins a group of cells of this size, the first of which stands there.
    pub fn begin_cells(&mut self, x: usize, y: usize, size: usize) -> io::Result<()> {
        writeln!(
            self.to,
            "<g transform=\"translate({x} {y}) scale({size})\">"
        )
    }

    pub fn end_cells(&mut self) -> io::Result<()> {
        writeln!(self.to, "</g>")
    }

    // White paper for so many cells of a group.
    pub fn frame(&mut self, columns: usize, rows: usize) -> io::Result<()> {
        self.rectangle("frame", 0, 0, columns, rows)
    }

    // Lines between the columns of so many cells of a group.
    pub fn grid(&mut self, columns: usize, rows: usize) -> io::Result<()> {
        write!(self.to, "<path class=\"grid\" d=\"M0 0")?;
        for _column in 1..columns {
            write!(self.to, "m1 0v{rows}m0 -{rows}")?;
        }
        writeln!(self.to, "\"/>")
    }

    // A row of a group, below so many others: a path for each kind but 0, in which each run of the kind is a rectangle. All cells
    // are looked at before the first is drawn.
    pub fn cells(&mut self, above: usize, cells: &[u32]) -> Result<(), NoDrawing>
        ensures { MatchResult result (λ _. Cells 16 cells.now) (Uncoloured cells.now) }
    {
        if let Some(place) = stray(COLOURS, cells) {
            return Err(NoDrawing::NoColour { place });
        }
        for kind in 1..COLOURS {
            if cells.contains(&kind) {
                write!(self.to, "<path class=\"k{kind}\" d=\"M0 {above}")?;
                self.runs(kind, "1", cells)?;
            }
        }
        Ok(())
    }

    // Marks in a row of a group, lower than a cell: where a cell is 1.
    pub fn marks(&mut self, above: usize, cells: &[u32]) -> io::Result<()> {
        write!(self.to, "<path class=\"mark\" d=\"M0 {above}.3")?;
        self.runs(1, ".4", cells)
    }

    // The runs of a kind, each a rectangle of this height. All are one outline, which goes along their top sides: a browser fills
    // it sooner than as many outlines, and it is shorter.
    fn runs(&mut self, kind: u32, height: &str, cells: &[u32]) -> io::Result<()> {
        for Run { skipped, length } in Runs::new(kind, cells) {
            write!(self.to, "h{skipped}v{height}h{length}v-{height}")?;
        }
        writeln!(self.to, "\"/>")
    }

    fn rectangle(
        &mut self,
        class: &str,
        x: usize,
        y: usize,
        width: usize,
        height: usize,
    ) -> io::Result<()> {
        writeln!(
            self.to,
            "<rect class=\"{class}\" x=\"{x}\" y=\"{y}\" width=\"{width}\" height=\"{height}\"/>"
        )
    }

    fn line(&mut self, class: &str, x: usize, y: usize, words: &str) -> io::Result<()> {
        write!(self.to, "<text class=\"{class}\" x=\"{x}\" y=\"{y}\">")?;
        self.letters(words)?;
        writeln!(self.to, "</text>")
    }

    // Letters that mean something in the file are spelled.
    fn letters(&mut self, words: &str) -> io::Result<()> {
        for letter in words.chars() {
            match letter {
                '&' => write!(self.to, "&amp;")?,
                '<' => write!(self.to, "&lt;")?,
                '>' => write!(self.to, "&gt;")?,
                _ => write!(self.to, "{letter}")?,
            }
        }
        Ok(())
    }
}
