// Kinds of cells, and windows of cells by their numbers.
ghost use Rattle.std.specs.Prelude.{◌≡◌, ℕ, ◌+◌, ◌-◌, ◌*◌, ◌^◌, ◌<◌, ◌≤◌, length, MatchOption};
ghost use Rattle.rules.specs.Rules.{Cells, Stray, digits};

// A kind of cell: kinds are numbered from 0.
#[derive(Clone, Copy, PartialEq, Eq, Debug)]
pub struct Kind(pub u32);

// A window by its number: its cells as digits, the first the highest.
#[derive(Clone, Copy, PartialEq, Eq, Debug)]
pub struct Window(pub usize);

impl Window {
    // The window with one cell more at its right.
    pub fn push(self, kinds: u32, cell: Kind) -> Window
        requires { self.0 * kinds + cell.0 < 2 ^ 64 }
        ensures { result.0 ≡ self.0 * kinds + cell.0 }
    {
        Window(self.0 * kinds as usize + cell.0 as usize)
    }

    // The window without its first cell; behind that stands one of so many blocks.
    pub fn pop(self, blocks: usize, first: Kind) -> Window
        requires { first.0 * blocks ≤ self.0 }
        ensures { result.0 ≡ self.0 - first.0 * blocks }
    {
        Window(self.0 - first.0 as usize * blocks)
    }

    // The number of the cells of a window.
    pub fn of(kinds: u32, cells: &[u32]) -> Window
        requires { (Cells kinds cells.now) × (kinds ^ length cells.now < 2 ^ 64) }
        ensures { result.0 ≡ digits kinds 0 cells.now }
    {
        // No `fold`: its closure would owe the bound of each product before its turn comes.
        let mut window = Window(0);
        for cell in cells {
            window = window.push(kinds, Kind(*cell));
        }
        window
    }

    // Writes the cells of the window, which has as many as are lent.
    pub fn spell(self, kinds: u32, cells: &mut [u32])
        requires some { 0 < kinds }
        requires inside { self.0 < kinds ^ length cells.old }
        ensures cells { Cells kinds cells.new }
        ensures number { digits kinds 0 cells.new ≡ self.0 }
    {
        let mut rest = self.0;
        // By index: what is written through `iter_mut().rev()` no invariant can name.
        for i in (0..cells.len()).rev() {
            cells[i] = (rest % kinds as usize) as u32;
            rest /= kinds as usize;
        }
    }
}

// Where the first cell stands that is none of the kinds, if there is one.
pub fn stray(kinds: u32, cells: &[u32]) -> Option<usize>
    ensures { MatchOption result (Cells kinds cells.now) (λ p. Stray kinds cells.now p) }
{
    cells.iter().position(|&cell| cell >= kinds)
}
