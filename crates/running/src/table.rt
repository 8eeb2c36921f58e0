// A table that runs on a ring, and the place of its windows there.
ghost use Rattle.std.proofs.Props.{props};
ghost use Rattle.std.specs.Prelude.{◌≡◌, ◌+◌, ◌-◌, ◌%◌, ◌≤◌};
ghost use Rattle.rules.specs.Local.{the_rule};
ghost use Rattle.rules.specs.Rules.{rule_of, Formed};

use ring::RingRule;
use rules::local::LocalRule;

/// A rule or a way back that runs on rings, of kinds that have a digit: the window of a cell begins `place` cells before it,
/// less `shift`.
#[derive(Drop)]
pub struct RingTable {
    kinds: u32,
    wide: u32,
    table: Vec<u32>,
    place: usize,
    shift: usize,
    ghost formed: { Formed (rule_of kinds wide table.items) } by { Prim.hlevel props },
    ghost digits: { kinds ≤ 16 },
}

impl RingTable {
    /// The table of a rule, or of a way back, that runs at a place.
    pub fn new(kinds: u32, wide: u32, table: Vec<u32>, place: usize) -> RingTable
        requires formed { Formed (rule_of kinds wide table.items) }
        requires digits { kinds ≤ 16 }
        ensures rule { rule_of result.kinds result.wide result.table.items ≡ rule_of kinds wide table.items }
        ensures place { result.place ≡ place }
        ensures shift { result.shift ≡ 0 }
    {
        RingTable {
            kinds,
            wide,
            table,
            place,
            shift: 0,
        }
    }

    /// The same table, at a place so many cells less round any ring.
    pub fn shifted(mut self, shift: usize) -> RingTable
        ensures rule { rule_of result.kinds result.wide result.table.items ≡ rule_of self.kinds self.wide self.table.items }
        ensures place { result.place ≡ self.place }
        ensures shift { result.shift ≡ shift }
    {
        self.shift = shift;
        self
    }

    pub fn kinds(&self) -> u32
        ensures { result ≡ self.now.kinds }
    {
        self.kinds
    }

    /// The rule, at its place on a ring of so many cells.
    pub fn ring_rule(&self, cells: usize) -> RingRule<'_>
        requires some { 1 ≤ cells }
        requires few { cells ≤ 262144 }
        ensures rule { the_rule result.rule ≡ rule_of self.now.kinds self.now.wide self.now.table.items }
        ensures place { result.place ≡ self.now.place % cells + (cells - self.now.shift % cells) }
    {
        let rule = LocalRule::new(self.kinds, self.wide, self.table.as_slice());
        let place = self.place % cells + (cells - self.shift % cells);
        RingRule { rule, place }
    }
}
