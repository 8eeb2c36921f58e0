// The plaque of a rule: the rule, its answer in one sentence, and the picture of the reason, as a drawing.
ghost use Rattle.std.specs.Prelude.{◌≤◌, List, ℕ, IfErr, MatchResult};
ghost use Rattle.faults.specs.Failure.{Failure, NotShown};
ghost use Rattle.rules.specs.Rules.{rule_of, Cells};
ghost use Rattle.undone.specs.Decided.{Answer};

use crate::canvas::Canvas;
use crate::draw;
use crate::sentence::{rule_name, sentence};
use answers::given::GivenRule;
use faults::fault::Fault;
use std::alloc::Global;
use svg::drawing::Drawing;
use undone::Decided;

const WIDTH: usize = 1100;

// Where words begin, and where cells do.
const LEFT: usize = 20;

const STRIP: usize = 120;

// The height of a line of words, and the sizes of a cell and of the square of a block.
const LINE: usize = 20;

const CELL: usize = 14;

const BLOCK: usize = 20;

// How far words stand above the bottom of what they are beside, and how far from it.
const ABOVE: usize = 3;

const GAP: usize = 6;

// How far before the cells of an endless row its dots stand.
const DOTS: usize = 30;

// The drawing of a rule's answer, whose cells stand first in `out`, as the bytes of a file.
pub fn draw_plaque(
    heap: Global,
    given: &GivenRule,
    decided: Decided,
    out: &[u32],
) -> Result<Vec<u8>, Fault>
    requires { (o : List ℕ) × Answer (rule_of given.now.kinds given.now.wide given.now.table.items) o out.now decided }
    ensures { IfErr result Failure }
{
    let rule = given.rule();
    let name = rule_name(heap, given)?;
    let sentence = sentence(heap, decided, out)?;
    let mut plaque = Plaque::new(heap);
    plaque.heading(name.as_str())?;
    plaque.words(sentence.as_str())?;
    plaque.leave(LINE);
    draw(heap, &mut plaque, rule, decided, out)?;
    if plaque.coloured {
        plaque.legend(rule.local.kinds())?;
    }
    plaque.finish(name.as_str())
}

// What is drawn so far, how far down it reaches, and whether there are cells in it, so that their colours have to be told.
#[derive(Drop)]
struct Plaque {
    heap: Global,
    drawn: Drawing<Vec<u8>>,
    bottom: usize,
    coloured: bool,
}

impl Plaque {
    fn new(heap: Global) -> Plaque {
        Plaque {
            heap,
            drawn: Drawing::new(Vec::new(heap)),
            bottom: LINE,
            coloured: false,
        }
    }

    // The file, whose height is known now.
    fn finish(mut self, title: &str) -> Result<Vec<u8>, Fault>
        ensures { IfErr result Failure }
    {
        self.leave(LINE);
        let mut file = Drawing::new(Vec::new(self.heap));
        file.begin(WIDTH, self.bottom, title)?;
        file.paste(self.drawn)?;
        Ok(file.finish()?)
    }

    // Goes down so far, from the place that is given back.
    fn leave(&mut self, height: usize) -> usize {
        let top = self.bottom;
        self.bottom = top.saturating_add(height);
        top
    }

    fn heading(&mut self, words: &str) -> Result<(), Fault>
        ensures { IfErr result Failure }
    {
        self.leave(LINE);
        Ok(self.drawn.heading(LEFT, self.bottom, words)?)
    }

    // Cells side by side, between a label and a note.
    fn strip(&mut self, label: &str, cells: &[u32], size: usize, note: &str) -> Result<(), Fault>
        ensures { MatchResult result (λ _. Cells 16 cells.now) (NotShown cells.now) }
    {
        self.coloured = true;
        let n = cells.len();
        let top = self.leave(size);
        self.drawn.begin_cells(STRIP, top, size)?;
        self.drawn.frame(n, 1)?;
        self.drawn.cells(0, cells)?;
        self.drawn.grid(n, 1)?;
        self.drawn.end_cells()?;
        self.beside(label, n.saturating_mul(size), note)
    }

    // Marks in a row of a group, which are cells to a drawing.
    fn marked(&mut self, marks: &[bool]) -> Result<(), Fault>
        ensures { IfErr result Failure }
    {
        let cells = marks
            .iter()
            .map(|&mark| u32::from(mark))
            .collect::<Vec<u32>>(self.heap)?;
        Ok(self.drawn.marks(0, cells.as_slice())?)
    }

    // Words on both sides of what was drawn last, which is so wide.
    fn beside(&mut self, label: &str, width: usize, note: &str) -> Result<(), Fault>
        ensures { IfErr result Failure }
    {
        let line = self.bottom.saturating_sub(ABOVE);
        let behind = STRIP.saturating_add(width).saturating_add(GAP);
        self.drawn.words(LEFT, line, label)?;
        Ok(self.drawn.words(behind, line, note)?)
    }

    // The colours of the kinds.
    fn legend(&mut self, kinds: u32) -> Result<(), Fault>
        requires { kinds ≤ 16 }
        ensures { IfErr result Failure }
    {
        let cells = (0..kinds).collect::<Vec<u32>>(self.heap)?;
        let digits = (0..kinds as usize).collect::<Vec<usize>>(self.heap)?;
        self.leave(LINE);
        self.strip("kinds", cells.as_slice(), BLOCK, "")?;
        self.digits("", digits.as_slice())
    }
}

impl Canvas for Plaque {
    fn words(&mut self, words: &str) -> Result<(), Fault> {
        self.leave(LINE);
        Ok(self.drawn.words(LEFT, self.bottom, words)?)
    }

    fn second(&mut self, second: u32, row: &[u32], note: &str) -> Result<(), Fault> {
        let label = format!(in self.heap; "{second}")?;
        self.strip(label.as_str(), row, CELL, note)
    }

    fn digits(&mut self, label: &str, digits: &[usize]) -> Result<(), Fault> {
        self.leave(BLOCK);
        for (column, digit) in digits.iter().enumerate() {
            let x = column.saturating_mul(BLOCK).saturating_add(STRIP + GAP);
            let digit = format!(in self.heap; "{digit:x}")?;
            self.drawn
                .words(x, self.bottom.saturating_sub(ABOVE), digit.as_str())?;
        }
        self.beside(label, 0, "")
    }

    fn set(
        &mut self,
        cells: usize,
        last: Option<u32>,
        members: &[bool],
        note: &str,
    ) -> Result<(), Fault> {
        let n = members.len();
        let top = self.leave(BLOCK);
        self.drawn.begin_cells(STRIP, top, BLOCK)?;
        self.drawn.frame(n, 1)?;
        self.marked(members)?;
        self.drawn.grid(n, 1)?;
        self.drawn.end_cells()?;
        let label = match last {
            Some(cell) => format!(in self.heap; "{cells:<9}{cell:x}")?,
            None => format!(in self.heap; "{cells}")?,
        };
        self.beside(label.as_str(), n.saturating_mul(BLOCK), note)
    }

    fn endless(&mut self, label: &str, cells: &[u32]) -> Result<(), Fault> {
        self.leave(GAP);
        let line = self.bottom.saturating_add(CELL - ABOVE);
        self.drawn.words(STRIP - DOTS, line, "...")?;
        self.strip(label, cells, CELL, "...")
    }

    fn marks(&mut self, label: &str, _mark: char, marks: &[bool]) -> Result<(), Fault> {
        let top = self.leave(CELL);
        self.drawn.begin_cells(STRIP, top, CELL)?;
        self.marked(marks)?;
        self.drawn.end_cells()?;
        self.beside(label, 0, "")
    }
}
