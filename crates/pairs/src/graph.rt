// The edges of the pair graph, followed one way.
ghost use Rattle.std.specs.Prelude.{◌≡◌, ℕ, ◌+◌, ◌*◌, ◌<◌, ◌≤◌, true, false, length, count_by, MatchOption, nat_eq};
ghost use Rattle.pairs.specs.declared.graph.Direction.TheVariants.{Past, Future};
ghost use Rattle.rules.specs.Local.{the_rule};
ghost use Rattle.pairs.specs.Pairs.{pairs_of, endless, Depths, Writes, Rounds, widened, beyond, Edge, neighbour_of};
ghost use Rattle.rules.specs.Rules.{blocks_of};

use rules::cells::Window;
use rules::sound::SoundRule;

// Which way edges are followed: two cases that the definitions speak of by name, so that closures would say no more.
#[derive(Clone, Copy)]
pub enum Direction {
    Past,
    Future,
}

// The word of a pair that has a past, or a future, of every number of edges. It is the largest word, since the words are lent
// and an `Option` has no place in them.
pub const ENDLESS: u32 = u32::MAX;

// How many pairs there are.
pub fn pair_count(rule: SoundRule) -> usize
    ensures { result ≡ pairs_of (the_rule rule.entry.local) }
{
    let blocks = rule.local.blocks();
    blocks * blocks
}

// The pair graph of a rule, whose edges are followed in a direction.
#[derive(Clone, Copy)]
pub struct PairGraph<'a> {
    pub rule: SoundRule<'a>,
    pub direction: Direction,
}

impl<'a> PairGraph<'a> {
    // The pair graph of a rule, followed back and followed on.
    pub fn both_ways(rule: SoundRule<'a>) -> (PairGraph<'a>, PairGraph<'a>)
        ensures past { result.0 ≡ record { rule = rule.entry; direction = Past } }
        ensures future { result.1 ≡ record { rule = rule.entry; direction = Future } }
    {
        let past = PairGraph {
            rule,
            direction: Direction::Past,
        };
        let future = PairGraph {
            rule,
            direction: Direction::Future,
        };
        (past, future)
    }
}

impl PairGraph<'_> {
    // Writes to the words from `base` on, for each pair, how many edges it can have in the direction.
    pub fn write_depths(self, base: usize, work: &mut [u32])
        requires { base + pairs_of (the_rule self.rule.local) ≤ length work.old }
        ensures { Writes (the_rule self.entry.rule.local) self.entry.direction base work.old work.new }
    {
        let pairs = pair_count(self.rule);
        self.measure(&mut work[base..base + pairs]);
    }

    // The same, by rounds: all pairs are there at first, and each round drops those that have no edge to one that was there
    // before it. What is there after a round that drops none stays for ever.
    fn measure(self, words: &mut [u32])
        requires { length words.old ≡ pairs_of (the_rule self.rule.local) }
        ensures { Depths (the_rule self.entry.rule.local) self.entry.direction words.new }
    {
        words.fill(ENDLESS);
        // A round more only after one that dropped a pair: a `for` would have to name a bound that it never comes to.
        let mut round = 0;
        'rounds: while self.drop_pairs(round, words) {
            round += 1;
        }
    }

    // One round: notes it as the word of each pair that it drops, and says whether there is one. A pair was there before the
    // round if its word is no earlier round, so words that the round itself writes do no harm.
    fn drop_pairs(self, round: u32, words: &mut [u32]) -> bool
        requires rounds { Rounds (the_rule self.rule.local) self.direction round words.old }
        requires few { round < endless }
        ensures more { Rounds (the_rule self.entry.rule.local) self.entry.direction (round + 1) words.new }
        ensures fewer { result ≡ true → count_by (nat_eq endless) words.new < count_by (nat_eq endless) words.old }
        ensures same { result ≡ false → words.new ≡ words.old }
    {
        let kinds = self.rule.local.kinds() as usize;
        let mut dropped = false;
        // By a rule of the project pairs and their edges are gone through by nested loops with labels.
        'pairs: for pair in 0..words.len() {
            if words[pair] < round {
                continue 'pairs;
            }
            'edges: for edge in 0..kinds * kinds {
                let Some(next) = self.neighbour(pair, edge) else {
                    continue 'edges;
                };
                if words[next] >= round {
                    continue 'pairs;
                }
            }
            words[pair] = round;
            dropped = true;
        }
        dropped
    }

    // The pair at the other end of an edge, if there is one with these cells.
    pub fn neighbour(self, pair: usize, edge: usize) -> Option<usize>
        requires pair { pair < pairs_of (the_rule self.rule.local) }
        requires edge { edge < self.rule.local.kinds * self.rule.local.kinds }
        ensures { MatchOption result
            (Edge (the_rule self.entry.rule.local) self.entry.direction pair edge → ⊥)
            (λ y. Edge (the_rule self.entry.rule.local) self.entry.direction pair edge × (y ≡ neighbour_of (the_rule self.entry.rule.local) self.entry.direction pair edge) × (y < pairs_of (the_rule self.entry.rule.local))) }
    {
        let rule = self.rule.local;
        let blocks = rule.blocks();
        let kinds = rule.kinds() as usize;
        let first = self.widen(pair / blocks, edge / kinds);
        let second = self.widen(pair % blocks, edge % kinds);
        if rule.cell(first) != rule.cell(second) {
            return None;
        }
        Some(self.leave(first) * blocks + self.leave(second))
    }

    // The window that has a cell more than a block.
    fn widen(self, block: usize, cell: usize) -> Window
        requires block { block < blocks_of (the_rule self.rule.local) }
        requires cell { cell < self.rule.local.kinds }
        ensures is { result.0 ≡ widened (the_rule self.entry.rule.local) self.entry.direction block cell }
        ensures inside { result.0 < blocks_of (the_rule self.entry.rule.local) * self.entry.rule.local.kinds }
    {
        match self.direction {
            Direction::Past => Window(cell * self.rule.local.blocks() + block),
            Direction::Future => Window(block * self.rule.local.kinds() as usize + cell),
        }
    }

    // The block that a window begins with, or ends with.
    fn leave(self, window: Window) -> usize
        requires { window.0 < blocks_of (the_rule self.rule.local) * self.rule.local.kinds }
        ensures is { result ≡ beyond (the_rule self.entry.rule.local) self.entry.direction window.0 }
        ensures inside { result < blocks_of (the_rule self.entry.rule.local) }
    {
        match self.direction {
            Direction::Past => window.0 / self.rule.local.kinds() as usize,
            Direction::Future => window.0 % self.rule.local.blocks(),
        }
    }
}
