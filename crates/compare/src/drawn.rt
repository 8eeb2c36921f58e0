// Rules at random, half of them of forms that seldom have an orphan.
ghost use Rattle.std.specs.Prelude.{◌<◌};

use crate::compared::Rule;
use crate::digits::cells_of;
use rows::random::Random;
use std::alloc::{AllocError, Global};

// Kinds and widths, all that are allowed of two to four kinds.
const SHAPES: [(u32, u32); 8] = [
    (2, 2),
    (2, 3),
    (2, 4),
    (2, 5),
    (3, 2),
    (3, 3),
    (4, 2),
    (4, 3),
];

// How a table is drawn: a name, since a table of functions would owe that each of them may be called.
#[derive(Clone, Copy)]
enum Form {
    Any,
    Permutive,
    NearPermutive,
    Conditional,
}

// Every second rule is drawn freely.
const FORMS: [Form; 8] = [
    Form::Any,
    Form::Permutive,
    Form::Any,
    Form::NearPermutive,
    Form::Any,
    Form::Conditional,
    Form::Any,
    Form::Conditional,
];

// So many rules, the same for the same seed.
pub fn drawn_rules(heap: Global, count: usize, seed: u64) -> Result<Vec<Rule>, AllocError> {
    let mut random = Random::new(seed);
    let mut rules = Vec::new(heap);
    for &form in FORMS.iter().cycle().take(count) {
        let (kinds, wide) = SHAPES[random.below(8) as usize];
        let mut drawing = Drawing {
            heap,
            kinds,
            wide,
            random: &mut random,
        };
        let table = drawing.table(form)?;
        rules.push(Rule { kinds, wide, table })?;
    }
    Ok(rules)
}

// What the table of a rule is drawn with.
#[derive(Drop)]
struct Drawing<'a> {
    heap: Global,
    kinds: u32,
    wide: u32,
    random: &'a mut Random,
    ghost several: { 1 < kinds },
}

impl Drawing<'_> {
    fn table(&mut self, form: Form) -> Result<Vec<u32>, AllocError> {
        match form {
            Form::Any => self.any(),
            Form::Permutive => self.permutive(),
            Form::NearPermutive => self.near_permutive(),
            Form::Conditional => self.conditional(),
        }
    }

    fn windows(&self) -> u32 {
        self.kinds.saturating_pow(self.wide)
    }

    fn cell(&mut self) -> u32 {
        self.random.below(self.kinds)
    }

    // Any kind but this one.
    fn another(&mut self, kind: u32) -> u32 {
        let further = self.random.below(self.kinds - 1);
        kind.wrapping_add(1).wrapping_add(further) % self.kinds
    }

    fn any(&mut self) -> Result<Vec<u32>, AllocError> {
        let heap = self.heap;
        (0..self.windows()).map(|_| self.cell()).collect(heap)
    }

    // A permutation of the kinds for each block of the other cells: at the last cell of the window, or at the first.
    fn permutive(&mut self) -> Result<Vec<u32>, AllocError> {
        let mut table = Vec::new(self.heap);
        for _block in 0..self.kinds.saturating_pow(self.wide.saturating_sub(1)) {
            table.extend_from_slice(self.permutation()?.as_slice())?;
        }
        if self.random.below(2) == 0 {
            return Ok(table);
        }
        self.turn(table.as_slice())
    }

    // Each kind in turn is put at a place among those before it.
    fn permutation(&mut self) -> Result<Vec<u32>, AllocError> {
        let mut permutation = Vec::new(self.heap);
        for kind in 0..self.kinds {
            permutation.insert(self.random.below(kind + 1) as usize, kind)?;
        }
        Ok(permutation)
    }

    // The table of the same rule but for its last cell, which comes first.
    fn turn(&self, table: &[u32]) -> Result<Vec<u32>, AllocError> {
        let kinds = self.kinds as usize;
        (0..kinds)
            .flat_map(
                |cell: usize|
                    requires { 0 < kinds }
                { table.iter().skip(cell).step_by(kinds).copied() },
            )
            .collect(self.heap)
    }

    // A permutive table in which one or two cells are changed.
    fn near_permutive(&mut self) -> Result<Vec<u32>, AllocError> {
        let mut table = self.permutive()?;
        let windows = self.windows().max(1);
        for _change in 0..self.random.below(2) + 1 {
            let window = self.random.below(windows);
            if let Some(cell) = table.get_mut(window as usize) {
                *cell = self.another(*cell);
            }
        }
        Ok(table)
    }

    // The table of an exchange.
    fn conditional(&mut self) -> Result<Vec<u32>, AllocError> {
        let exchange = self.exchange()?;
        (0..self.windows())
            .map(|number| exchange.cell_of(self, number))
            .try_collect(self.heap)
    }

    fn exchange(&mut self) -> Result<Exchange, AllocError> {
        let place = self.random.below(self.wide.max(1)) as usize;
        let one = self.cell();
        let other = self.another(one);
        let condition = self.condition(place)?;
        Ok(Exchange {
            place,
            one,
            other,
            condition,
        })
    }

    // For each place of a window, but for one, a kind that it has to be, or any.
    fn condition(&mut self, but: usize) -> Result<Vec<Option<u32>>, AllocError> {
        let heap = self.heap;
        (0..self.wide as usize)
            .map(|place| self.wanted(place != but))
            .collect(heap)
    }

    fn wanted(&mut self, may_be_asked: bool) -> Option<u32> {
        if may_be_asked && self.random.below(2) == 0 {
            return Some(self.cell());
        }
        None
    }
}

// One cell of the window, with two kinds exchanged where the window has certain cells at certain places.
#[derive(Drop)]
struct Exchange {
    place: usize,
    one: u32,
    other: u32,
    condition: Vec<Option<u32>>,
}

impl Exchange {
    fn cell_of(&self, drawing: &Drawing, number: u32) -> Result<u32, AllocError> {
        let window = cells_of(drawing.heap, drawing.kinds, drawing.wide, number as usize)?;
        let cell = window.get(self.place).copied().unwrap_or(0);
        Ok(match cell {
            _ if !self.holds(window.as_slice()) => cell,
            kind if kind == self.one => self.other,
            kind if kind == self.other => self.one,
            kind => kind,
        })
    }

    fn holds(&self, window: &[u32]) -> bool {
        self.condition
            .iter()
            .zip(window)
            .all(|(wanted, cell)| wanted.is_none_or(|kind| kind == *cell))
    }
}
