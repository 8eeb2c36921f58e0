// The subset construction: which blocks the preimages of a word can end with.
ghost use Rattle.std.specs.Prelude.{◌≡◌, ℕ, ◌+◌, ◌-◌, ◌^◌, ◌<◌, ◌≤◌, ◌↔◌, length, take, drop};
ghost use Rattle.std.specs.List.{between};
ghost use Rattle.rules.specs.Local.{the_rule};
ghost use Rattle.orphans.specs.Sets.{In};
ghost use Rattle.orphans.specs.Subsets.{Follows, Masks, SetsTell, follow};

use crate::automaton::SubsetSteps;
use crate::sets::BlockSet;
use rules::cells::{Kind, Window};
use rules::local::LocalRule;

// The steps of a rule's sets, by a table of what follows each block alone.
// That there are few blocks is a clause where a rule comes in, here and in `halves`: `SoundRule` would ask for two cells a window
// too, and a type between it and `LocalRule` would stand for this fact alone.
#[derive(Clone, Copy)]
pub struct Subsets<'r, 'm> {
    // No `SoundRule`, since a rule of width 1 has an automaton too.
    rule: LocalRule<'r>,
    // For each block and each kind, the set of blocks that follow the block by a window whose cell is of that kind.
    masks: &'m [u32],
    ghost few: { rule.kinds ^ (rule.wide - 1) ≤ 16 },
    ghost told: { Masks (the_rule rule) masks.now },
}

impl<'r, 'm> Subsets<'r, 'm> {
    #[tactic(auto, using(crate::proofs::Reached::tells_local))]
    pub fn new(rule: LocalRule<'r>, masks: &'m [u32]) -> Subsets<'r, 'm>
        requires few { rule.kinds ^ (rule.wide - 1) ≤ 16 }
        requires masks { Masks (the_rule rule) masks.now }
        ensures rule { the_rule result.rule ≡ the_rule rule.entry }
        ensures tells { SetsTell (the_rule result.rule) }
    {
        Subsets { rule, masks }
    }
}

impl SubsetSteps for Subsets<'_, '_> {
    ghost of = { λ s. the_rule s.rule };

    fn rule(&self) -> LocalRule<'_> {
        self.rule
    }

    // The union of the masks of its blocks. It asks less of the set than the trait does, and says which blocks follow.
    fn step(&self, set: BlockSet, kind: Kind) -> BlockSet
        requires { kind.0 < self.now.rule.kinds }
        ensures is { result.0 ≡ follow (the_rule self.now.rule) set.0 kind.0 }
        ensures members { (j : ℕ) → In j result.0 ↔ ((i : ℕ) × In i set.0 × Follows (the_rule self.now.rule) i kind.0 j) }
        ensures below { result.0 < 2 ^ (self.now.rule.kinds ^ (self.now.rule.wide - 1)) }
    {
        let kinds = self.kinds() as usize;
        let mut followers = BlockSet::empty();
        // No `filter` with a `fold`: two closures would say what this loop's invariant says at once.
        for block in 0..self.blocks() {
            if set.has(block) {
                let mask = self.masks[block * kinds + kind.0 as usize];
                followers = followers.union(BlockSet(mask));
            }
        }
        followers
    }
}

// Writes the masks of a rule to the lent words, from `base` on.
pub fn write_masks(rule: LocalRule, work: &mut [u32], base: usize)
    requires few { rule.kinds ^ (rule.wide - 1) ≤ 16 }
    requires room { base + rule.kinds ^ rule.wide ≤ length work.old }
    ensures masks { Masks (the_rule rule.entry) (between base (base + rule.entry.kinds ^ rule.entry.wide) work.new) }
    ensures before { take base work.new ≡ take base work.old }
    ensures behind { drop (base + rule.entry.kinds ^ rule.entry.wide) work.new ≡ drop (base + rule.entry.kinds ^ rule.entry.wide) work.old }
{
    let windows = rule.blocks() * rule.kinds() as usize;
    fill_masks(rule, &mut work[base..base + windows]);
}

// Each window adds its last block to the mask of its first block and of its cell.
pub(crate) fn fill_masks(rule: LocalRule, masks: &mut [u32])
    requires few { rule.kinds ^ (rule.wide - 1) ≤ 16 }
    requires full { length masks.old ≡ rule.kinds ^ rule.wide }
    ensures { Masks (the_rule rule.entry) masks.new }
{
    let kinds = rule.kinds() as usize;
    let blocks = rule.blocks();
    masks.fill(0);
    for window in 0..masks.len() {
        let place = window / kinds * kinds + rule.cell(Window(window)).0 as usize;
        masks[place] = BlockSet(masks[place]).with(window % blocks).0;
    }
}
