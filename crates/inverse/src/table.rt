// The table of a way back: each piece tells one of its cells.
ghost use Rattle.std.specs.Prelude.{◌≡◌, ℕ, ◌+◌, ◌-◌, ◌^◌, ◌<◌, ◌≤◌, List, [], ◌∷◌, ◌++◌, length};
ghost use Rattle.rules.specs.Local.{the_rule};
ghost use Rattle.inverse.specs.Prefixes.{Keeps, Right, Kept};
ghost use Rattle.rules.specs.Rows.{Puts};
ghost use Rattle.rules.specs.Rules.{Piece};
ghost use Rattle.theory.specs.Says.{Back, Tells};

use crate::WayBack;
use rules::cells::{Kind, Window};
use rules::local::LocalRule;
use rules::sound::SoundRule;

// Writes the table of a way back, at a place that is told, to the front of `out`.
pub fn write_way_back(rule: SoundRule, told: WayBack, out: &mut [u32])
    requires some { 1 ≤ told.width }
    requires inside { told.place < told.width + (rule.local.wide - 1) }
    requires tells { Tells (the_rule rule.local) told.width told.place }
    requires room { rule.local.kinds ^ told.width ≤ length out.old }
    ensures { (t : List ℕ) × Back (the_rule rule.entry.local) told.width told.place t × Puts out.old out.new t }
{
    let reader = Reader {
        rule: rule.local,
        place: told.place as usize,
    };
    let empty = Prefix {
        long: 0,
        block: Window(0),
        number: Window(0),
        told: Kind(0),
    };
    let cells = told.width as usize + (rule.local.wide() as usize - 1);
    reader.fill(cells, empty, out);
}

// What is kept of a piece while it is read from left to right.
#[derive(Clone, Copy)]
struct Prefix {
    long: usize,
    // Its last block, or all of it where it is shorter.
    block: Window,
    // The number of its next row.
    number: Window,
    // Its cell at the place in question, once that is read.
    told: Kind,
}

// Reads pieces for their cell at a place, and for the number of their next row by a rule.
#[derive(Clone, Copy)]
struct Reader<'a> {
    rule: LocalRule<'a>,
    place: usize,
}

impl Reader<'_> {
    // A piece with one cell more.
    fn push(self, prefix: Prefix, cell: Kind) -> Prefix
        requires some { (p : List ℕ) × Keeps (the_rule self.rule) self.place p prefix }
        requires kind { cell.0 < self.rule.kinds }
        requires fits { self.rule.kinds ^ ((prefix.long + 1) - (self.rule.wide - 1)) < 2 ^ 64 }
        requires short { prefix.long + 1 < 2 ^ 64 }
        ensures { (p : List ℕ) → Keeps (the_rule self.entry.rule) self.entry.place p prefix → Keeps (the_rule self.entry.rule) self.entry.place (p ++ cell.0 ∷ []) result }
    {
        let told = if prefix.long == self.place {
            cell
        } else {
            prefix.told
        };
        let window = prefix.block.push(self.rule.kinds(), cell);
        let long = prefix.long + 1;
        if long < self.rule.wide() as usize {
            return Prefix {
                long,
                block: window,
                told,
                ..prefix
            };
        }
        let block = Window(window.0 % self.rule.blocks());
        let number = prefix
            .number
            .push(self.rule.kinds(), self.rule.cell(window));
        Prefix {
            long,
            block,
            number,
            told,
        }
    }

    // Writes the cell at the place of every piece that is the prefix and so many cells more, there where the number of the
    // piece's next row says.
    fn fill(self, left: usize, prefix: Prefix, out: &mut [u32])
        requires some { (p : List ℕ) × Keeps (the_rule self.rule) self.place p prefix }
        requires whole { self.rule.wide ≤ prefix.long + left }
        requires short { prefix.long + left < 2 ^ 64 }
        requires room { self.rule.kinds ^ ((prefix.long + left) - (self.rule.wide - 1)) ≤ length out.old }
        requires tells { Tells (the_rule self.rule) ((prefix.long + left) - (self.rule.wide - 1)) self.place }
        ensures done { (p w : List ℕ) → Keeps (the_rule self.entry.rule) self.entry.place p prefix → Piece (the_rule self.entry.rule) w → length w ≡ left → Right (the_rule self.entry.rule) self.entry.place out.new (p ++ w) }
        ensures kept { Kept (the_rule self.entry.rule) self.entry.place (prefix.long + left) out.old out.new }
    {
        if left == 0 {
            out[prefix.number.0] = prefix.told.0;
            return;
        }
        for cell in 0..self.rule.kinds() {
            self.fill(left - 1, self.push(prefix, Kind(cell)), out);
        }
    }
}
