// What follows a set of blocks, looked up by halves of the set, as the search takes it.
ghost use Rattle.std.specs.Prelude.{◌≡◌, ℕ, ◌+◌, ◌-◌, ◌*◌, ◌%◌, ◌^◌, ◌<◌, ◌≤◌, length, bit_or, slice_index};
ghost use Rattle.rules.specs.Local.{the_rule};
ghost use Rattle.orphans.specs.Subsets.{Followers, Masks, SetsTell};

use crate::automaton::SubsetSteps;
use crate::sets::BlockSet;
use rules::cells::Kind;
use rules::local::LocalRule;

// The sets of a rule's blocks, by two tables that are together small where one for all sets would be large.
#[derive(Clone, Copy)]
pub struct Halves<'r, 't> {
    rule: LocalRule<'r>,
    // How many blocks the lower half has.
    half: usize,
    // What follows each set of the lower blocks by each kind, and each set of the upper blocks.
    low: &'t [u32],
    high: &'t [u32],
    ghost few: { rule.kinds ^ (rule.wide - 1) ≤ 16 },
    ghost part: { half ≤ rule.kinds ^ (rule.wide - 1) },
    ghost lower: { Followers (the_rule rule) 0 half low.now },
    ghost upper: { Followers (the_rule rule) half (rule.kinds ^ (rule.wide - 1) - half) high.now },
}

impl<'r, 't> Halves<'r, 't> {
    #[tactic(auto, using(crate::proofs::Reached::tells_local))]
    pub fn new(rule: LocalRule<'r>, half: usize, low: &'t [u32], high: &'t [u32]) -> Halves<'r, 't>
        requires few { rule.kinds ^ (rule.wide - 1) ≤ 16 }
        requires part { half ≤ rule.kinds ^ (rule.wide - 1) }
        requires lower { Followers (the_rule rule) 0 half low.now }
        requires upper { Followers (the_rule rule) half (rule.kinds ^ (rule.wide - 1) - half) high.now }
        ensures rule { the_rule result.rule ≡ the_rule rule.entry }
        ensures tells { SetsTell (the_rule result.rule) }
    {
        Halves {
            rule,
            half,
            low,
            high,
        }
    }
}

impl SubsetSteps for Halves<'_, '_> {
    ghost of = { λ s. the_rule s.rule };

    fn rule(&self) -> LocalRule<'_> {
        self.rule
    }

    fn step(&self, set: BlockSet, kind: Kind) -> BlockSet {
        let kinds = self.kinds() as usize;
        let kind = kind.0 as usize;
        let low = set.0 as usize % (1 << self.half);
        let high = set.0 as usize >> self.half;
        BlockSet(self.low[low * kinds + kind] | self.high[high * kinds + kind])
    }
}

// Writes what follows each set of `count` blocks from `first` on, by each kind. With a block more there are twice as many sets.
pub fn write_followers(
    rule: LocalRule,
    first: usize,
    count: usize,
    masks: &[u32],
    table: &mut [u32],
)
    requires blocks { first + count ≤ rule.kinds ^ (rule.wide - 1) }
    requires few { rule.kinds ^ (rule.wide - 1) ≤ 16 }
    requires masks { Masks (the_rule rule) masks.now }
    requires room { length table.old ≡ 2 ^ count * rule.kinds }
    ensures { Followers (the_rule rule.entry) first count table.new }
{
    let kinds = rule.kinds() as usize;
    table[0..kinds].fill(0);
    for block in 0..count {
        let row = (first + block) * kinds;
        add_block(table, kinds << block, &masks[row..row + kinds]);
    }
}

// Behind the followers of the sets without a block, which are so many words, those of the sets with it: what follows the set,
// and what follows the block by the same kind.
fn add_block(table: &mut [u32], words: usize, mask: &[u32])
    requires some { 0 < length mask.now }
    requires room { words + words ≤ length table.old }
    ensures without { (q : ℕ) → q < words → slice_index table.new q ≡ slice_index table.old q }
    ensures besides { (q : ℕ) → q < words → slice_index table.new (words + q) ≡ bit_or (slice_index table.old q) (slice_index mask.now (q % length mask.now)) }
{
    // The kind goes round by hand: with `mask.iter().cycle()`, which was proved too, line (b) of the benchmark is at 1.25 of plain
    // Rust, above the bar of 1.2; this form is at 1.11.
    let mut kind = 0;
    for i in 0..words {
        table[words + i] = table[i] | mask[kind];
        kind = if kind + 1 == mask.len() { 0 } else { kind + 1 };
    }
}
