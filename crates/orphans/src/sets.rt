// Sets of blocks.
ghost use Rattle.std.specs.Prelude.{◌≡◌, ℕ, ◌<◌, ◌≤◌, ◌⊎◌, ◌↔◌, Decides, ◌≢◌};
ghost use Rattle.orphans.specs.Sets.{In};

// A set of blocks: the bits of a word, each at the number of its block. That a block is below 32 is a clause of three methods: a
// type for such numbers would have to be made at each call, of a number that the clause speaks of as well.
#[derive(Clone, Copy, PartialEq, Eq, Debug)]
pub struct BlockSet(pub u32);

impl BlockSet {
    pub fn empty() -> BlockSet
        ensures { (j : ℕ) → In j result.0 → ⊥ }
    {
        BlockSet(0)
    }

    // All of so many blocks.
    pub fn full(blocks: usize) -> BlockSet
        requires { blocks ≤ 16 }
        ensures { (j : ℕ) → In j result.0 ↔ (j < blocks) }
    {
        BlockSet((1 << blocks) - 1)
    }

    pub fn is_empty(self) -> bool
        ensures { Decides result ((j : ℕ) → In j self.0 → ⊥) }
    {
        self.0 == 0
    }

    pub fn has(self, block: usize) -> bool
        requires { block < 32 }
        ensures { Decides result (In block self.0) }
    {
        self.0 >> block & 1 == 1
    }

    pub fn with(self, block: usize) -> BlockSet
        requires { block < 32 }
        ensures { (j : ℕ) → In j result.0 ↔ (In j self.0 ⊎ (j ≡ block)) }
    {
        BlockSet(self.0 | 1 << block)
    }

    pub fn without(self, block: usize) -> BlockSet
        requires { block < 32 }
        ensures { (j : ℕ) → In j result.0 ↔ (In j self.0 × (j ≢ block)) }
    {
        BlockSet(self.0 & !(1 << block))
    }

    pub fn union(self, other: BlockSet) -> BlockSet
        ensures { (j : ℕ) → In j result.0 ↔ (In j self.0 ⊎ In j other.0) }
    {
        BlockSet(self.0 | other.0)
    }
}
