#![tactic(auto)]

// A rule, or a way back, on a row in a ring.
ghost use Rattle.std.specs.Prelude.{◌≡◌, length, MatchResult};
ghost use Rattle.rules.specs.Local.{the_rule};
ghost use Rattle.ring.specs.Ring.{ring, RoundTrips};
ghost use Rattle.ring.specs.Seconds.{IsRing, NotRun, Ran};

mod turn;

use rules::cells::stray;
use rules::local::LocalRule;

// Why a row is not run: it has no cell, the other cells are not as many, or one of its cells is none of the kinds.
#[derive(Clone, Copy, PartialEq, Eq, Debug)]
pub enum NoRing {
    Empty,
    Lengths { wanted: usize, found: usize },
    NoKind { place: usize },
}

// Which of two lent slices holds the last row: no borrow of it, which would keep both lent.
#[derive(Clone, Copy, PartialEq, Eq, Debug)]
pub enum Held {
    Row,
    Spare,
}

// A rule at place 0, or a way back at its place: the window of a cell begins so many cells before it.
#[derive(Clone, Copy)]
pub struct RingRule<'a> {
    pub rule: LocalRule<'a>,
    pub place: usize,
}

impl<'a> RingRule<'a> {
    // A rule, which runs at place 0.
    pub fn forwards(rule: LocalRule<'a>) -> RingRule<'a>
        ensures rule { result.rule ≡ rule.entry }
        ensures place { result.place ≡ 0 }
    {
        RingRule { rule, place: 0 }
    }

    // One second, from one slice into another as long.
    #[tactic(auto, using(crate::proofs::Seconds::round_trips))]
    pub fn step(self, from: &[u32], to: &mut [u32]) -> Result<(), NoRing>
        ensures says { MatchResult result
            (λ _. IsRing (the_rule self.entry.rule) from.now (length to.old) × (to.new ≡ ring (the_rule self.entry.rule) self.entry.place from.now))
            (λ e. (to.new ≡ to.old) × NotRun (the_rule self.entry.rule) from.now (length to.old) e) }
        ensures round_trips { RoundTrips }
    {
        check_ring(self.rule, from, to.len())?;
        self.turn(from, to);
        Ok(())
    }

    // So many seconds, each from one of two slices into the other.
    #[tactic(auto, using(crate::proofs::Seconds::round_trips))]
    pub fn steps(self, seconds: u64, row: &mut [u32], spare: &mut [u32]) -> Result<Held, NoRing>
        ensures says { MatchResult result
            (λ held. IsRing (the_rule self.entry.rule) row.old (length spare.old) × Ran (the_rule self.entry.rule) self.entry.place seconds row.old spare.old row.new spare.new held)
            (λ e. (row.new ≡ row.old) × (spare.new ≡ spare.old) × NotRun (the_rule self.entry.rule) row.old (length spare.old) e) }
        ensures round_trips { RoundTrips }
    {
        check_ring(self.rule, row, spare.len())?;
        for _two in 0..seconds / 2 {
            self.turn(row, spare);
            self.turn(spare, row);
        }
        if seconds % 2 == 0 {
            return Ok(Held::Row);
        }
        self.turn(row, spare);
        Ok(Held::Spare)
    }
}

// Whether a row can be run in a ring, with so many spare cells.
fn check_ring(rule: LocalRule, row: &[u32], spare: usize) -> Result<(), NoRing>
    ensures { MatchResult result
        (λ _. IsRing (the_rule rule.entry) row.now spare)
        (NotRun (the_rule rule.entry) row.now spare) }
{
    if row.is_empty() {
        return Err(NoRing::Empty);
    }
    if spare != row.len() {
        return Err(NoRing::Lengths {
            wanted: row.len(),
            found: spare,
        });
    }
    match stray(rule.kinds(), row) {
        Some(place) => Err(NoRing::NoKind { place }),
        None => Ok(()),
    }
}
