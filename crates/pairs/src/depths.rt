// The pair graph of a rule, measured in both directions.
ghost use Rattle.std.specs.Prelude.{◌≡◌, ◌+◌, ◌*◌, ◌≤◌, length};
ghost use Rattle.rules.specs.Local.{the_rule};
ghost use Rattle.pairs.specs.Pairs.{pairs_of, Graph};

use crate::graph::{PairGraph, pair_count};
use rules::sound::SoundRule;

// For each pair how many edges can lie behind it, and how many before it. That the words are these is a clause (`Measured`) and
// no field: a ghost field holds a proposition, and that an edge lies behind a pair is told by two pieces, which are data.
#[derive(Clone, Copy)]
pub struct PairDepths<'r, 'w> {
    pub rule: SoundRule<'r>,
    pub pasts: &'w [u32],
    pub futures: &'w [u32],
}

// Writes to the words from `base` on how many edges can lie behind each pair, and behind these words how many before it.
pub fn measure_pairs(rule: SoundRule, base: usize, work: &mut [u32])
    requires { (base + pairs_of (the_rule rule.local)) + pairs_of (the_rule rule.local) ≤ length work.old }
    ensures { Graph (the_rule rule.entry.local) base work.old work.new }
{
    let (past, future) = PairGraph::both_ways(rule);
    past.write_depths(base, work);
    future.write_depths(base + pair_count(rule), work);
}
