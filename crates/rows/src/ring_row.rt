// A row in a ring that is run.
ghost use Rattle.std.specs.Prelude.{◌≡◌, length, IfOk, MatchResult};
ghost use Rattle.rules.specs.Local.{the_rule};
ghost use Rattle.ring.specs.Ring.{ring, rings};
ghost use Rattle.ring.specs.Seconds.{IsRing, NotRun};

use ring::{Held, NoRing, RingRule};
use std::alloc::AllocError;
use std::mem;

/// A row, and as many spare cells for the next row.
#[derive(Drop)]
pub struct RingRow {
    row: Vec<u32>,
    spare: Vec<u32>,
    ghost as_long: { length spare.items ≡ length row.items },
}

impl RingRow {
    pub fn new(row: Vec<u32>) -> Result<RingRow, AllocError>
        ensures { IfOk result (λ r. r.row.items ≡ row.items) }
    {
        let spare = row.clone()?;
        Ok(RingRow { row, spare })
    }

    pub fn cells(&self) -> &[u32]
        ensures { result.now ≡ self.now.row.items }
    {
        &self.row
    }

    /// One second.
    pub fn step(&mut self, rule: RingRule) -> Result<(), NoRing>
        ensures { MatchResult result
            (λ _. IsRing (the_rule rule.entry.rule) self.old.row.items (length self.old.row.items)
            × (self.new.row.items ≡ ring (the_rule rule.entry.rule) rule.entry.place self.old.row.items))
            (λ e. (self.new.row.items ≡ self.old.row.items)
            × NotRun (the_rule rule.entry.rule) self.old.row.items (length self.old.row.items) e) }
    {
        rule.step(self.row.as_slice(), self.spare.as_mut_slice())?;
        mem::swap(&mut self.row, &mut self.spare);
        Ok(())
    }

    /// So many seconds.
    pub fn steps(&mut self, rule: RingRule, seconds: u64) -> Result<(), NoRing>
        ensures { MatchResult result
            (λ _. IsRing (the_rule rule.entry.rule) self.old.row.items (length self.old.row.items)
            × (self.new.row.items ≡ rings (the_rule rule.entry.rule) rule.entry.place seconds self.old.row.items))
            (λ e. (self.new.row.items ≡ self.old.row.items)
            × NotRun (the_rule rule.entry.rule) self.old.row.items (length self.old.row.items) e) }
    {
        match rule.steps(seconds, self.row.as_mut_slice(), self.spare.as_mut_slice())? {
            Held::Row => {}
            Held::Spare => mem::swap(&mut self.row, &mut self.spare),
        }
        Ok(())
    }
}
