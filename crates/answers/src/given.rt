// Rules with tables of their own, and their decisions.
ghost use Rattle.std.specs.Prelude.{◌≡◌, true, length, is_ok, MatchResult};
ghost use Rattle.rules.specs.Checks.{Unfit};
ghost use Rattle.std.proofs.Props.{props};
ghost use Rattle.finite.specs.Told.{FinitePost};
ghost use Rattle.undone.specs.Decided.{Answer, DecidedPost};
ghost use Rattle.rules.specs.Local.{the_rule};
ghost use Rattle.rules.specs.Rules.{rule_of, Sound};

use finite::{Finite, find_twins};
use rules::local::LocalRule;
use rules::rule::NoRule;
use rules::sound::SoundRule;
use std::alloc::{AllocError, Global};
use undone::{Decided, WORK, decide};

// A rule that can be decided.
#[derive(Drop)]
pub struct GivenRule {
    kinds: u32,
    wide: u32,
    table: Vec<u32>,
    ghost sound: { Sound (rule_of kinds wide table.items) } by { Prim.hlevel props },
}

impl GivenRule {
    pub fn new(kinds: u32, wide: u32, table: Vec<u32>) -> Result<GivenRule, NoRule>
        ensures says { MatchResult result
            (λ g. (g.kinds ≡ kinds) × (g.wide ≡ wide) × (g.table.items ≡ table.items))
            (Unfit 2 16 kinds wide table.items) }
        ensures exact { Sound (rule_of kinds wide table.items) → is_ok result ≡ true }
    {
        SoundRule::try_new(kinds, wide, table.as_slice())?;
        Ok(GivenRule { kinds, wide, table })
    }

    pub fn kinds(&self) -> u32
        ensures { result ≡ self.now.kinds }
    {
        self.kinds
    }

    pub fn table(&self) -> &[u32]
        ensures { result.now ≡ self.now.table.items }
    {
        &self.table
    }

    pub fn rule(&self) -> SoundRule<'_>
        ensures { the_rule result.local ≡ rule_of self.now.kinds self.now.wide self.now.table.items }
    {
        let local = LocalRule::new(self.kinds, self.wide, self.table.as_slice());
        SoundRule { local }
    }

    // Decides the rule in words of work that are lent; what is told stands first in `out`.
    pub fn decide_in(&self, out: &mut [u32], work: &mut [u32]) -> Decided
        ensures { DecidedPost self.now.kinds self.now.wide self.now.table.items (length work.old) out.old out.new result }
    {
        decide(self.kinds, self.wide, self.table.as_slice(), out, work)
    }

    // Decides the rule in words of work that are made for it and let go.
    pub fn decide_once(&self, heap: Global, out: &mut [u32]) -> Result<Decided, AllocError>
        ensures { MatchResult result
            (λ d. Answer (rule_of self.now.kinds self.now.wide self.now.table.items) out.old out.new d)
            (λ _. out.new ≡ out.old) }
    {
        let mut work = vec![in heap; 0; WORK]?;
        Ok(self.decide_in(out, work.as_mut_slice()))
    }

    // Finds two rows that differ at finitely many places and have one next row, in words of work that are lent; the rows stand first in
    // `out`.
    pub fn find_twins_in(&self, out: &mut [u32], work: &mut [u32]) -> Finite
        ensures { FinitePost self.now.kinds self.now.wide self.now.table.items (length work.old) out.old out.new result }
    {
        find_twins(self.kinds, self.wide, self.table.as_slice(), out, work)
    }
}
