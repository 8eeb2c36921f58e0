// The subset construction as an automaton, however what follows a set is looked up.
ghost use Rattle.std.specs.Prelude.{◌≡◌, ℕ, ◌^◌, ◌<◌, ◌≤◌, []};
ghost use Rattle.rules.specs.Local.{the_rule};
ghost use Rattle.rules.specs.Rules.{Rule, blocks_of};
ghost use Rattle.orphans.specs.Subsets.{follow, reached};

use crate::sets::BlockSet;
use bfs::Automaton;
use rules::cells::Kind;
use rules::local::LocalRule;

// The steps of a rule's subset construction, from one set of blocks to the next.
pub trait SubsetSteps {
    ghost of: { Self → Rule };

    // The rule, of at most 16 blocks.
    fn rule(&self) -> LocalRule<'_>
        ensures is { the_rule result ≡ of self.now }
        ensures few { blocks_of (of self.now) ≤ 16 };

    // The blocks that follow one of the set by a window whose cell is of the kind.
    fn step(&self, set: BlockSet, kind: Kind) -> BlockSet
        requires set { set.0 < 2 ^ blocks_of (of self.now) }
        requires kind { kind.0 < (of self.now).kinds }
        ensures is { result.0 ≡ follow (of self.now) set.0 kind.0 }
        ensures below { result.0 < 2 ^ blocks_of (of self.now) };

    fn kinds(&self) -> u32
        ensures { result ≡ (of self.now).kinds }
    {
        self.rule().kinds()
    }

    // How many blocks there are, at most 16.
    fn blocks(&self) -> usize
        ensures is { result ≡ blocks_of (of self.now) }
        ensures few { result ≤ 16 }
    {
        self.rule().blocks()
    }

    // All blocks: the preimages of the empty word.
    fn start(&self) -> BlockSet
        ensures { result.0 ≡ reached (of self.now) [] }
    {
        BlockSet::full(self.blocks())
    }
}

// The automaton of these steps: its states are the sets of blocks, by their numbers, its symbols are the kinds.
#[derive(Clone, Copy)]
pub struct SubsetAutomaton<S> {
    pub steps: S,
}

impl<S: SubsetSteps> Automaton for SubsetAutomaton<S> {
    ghost states = { λ a. 2 ^ blocks_of (S.of a.steps) };

    ghost symbols = { λ a. (S.of a.steps).kinds };

    ghost leads = { λ a. follow (S.of a.steps) };

    // None is passed over: only the empty set leads to no other, and that is what is looked for.
    ghost dead = { λ _ _. ⊥ };

    fn states(&self) -> u32 {
        1 << self.steps.blocks()
    }

    fn symbols(&self) -> u32 {
        self.steps.kinds()
    }

    fn follow(&self, state: u32, symbol: u32) -> Option<u32> {
        Some(self.steps.step(BlockSet(state), Kind(symbol)).0)
    }
}
