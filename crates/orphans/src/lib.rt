#![tactic(auto)]

// The shortest orphan: the first word that leads from all blocks to none.
ghost use Rattle.std.specs.Prelude.{◌≡◌, ℕ, ◌*◌, ◌^◌, ◌≤◌, length};
ghost use Rattle.rules.specs.Local.{the_rule};
ghost use Rattle.rules.specs.Rules.{blocks_of};
ghost use Rattle.orphans.specs.Orphans.{TellsOrphan, words_of};
ghost use Rattle.orphans.specs.Subsets.{SetsTell};

pub mod automaton;
pub mod halves;
pub mod sets;
pub mod subsets;

use crate::automaton::{SubsetAutomaton, SubsetSteps};
use crate::halves::{Halves, write_followers};
use crate::sets::BlockSet;
use crate::subsets::fill_masks;
use bfs::{TooLong, shortest_word};
use rules::sound::SoundRule;

// The shortest piece that comes from none, and of these the first by its digits, first in `out`; or that there is none. The
// work words are a mask for each window, what follows each set of half of the blocks by each kind, and 4 for each set.
pub fn first_orphan(
    rule: SoundRule,
    out: &mut [u32],
    work: &mut [u32],
) -> Result<Option<usize>, TooLong>
    requires room { words_of (the_rule rule.local) ≤ length work.old }
    ensures { TellsOrphan (the_rule rule.entry.local) out.old out.new result }
{
    let rule = rule.local;
    let blocks = rule.blocks();
    let kinds = rule.kinds() as usize;
    let half = blocks / 2;
    let (masks, rest) = work.split_at_mut(blocks * kinds);
    let (low, rest) = rest.split_at_mut(kinds << half);
    let (high, queue) = rest.split_at_mut(kinds << (blocks - half));
    fill_masks(rule, masks);
    write_followers(rule, 0, half, masks, low);
    write_followers(rule, half, blocks - half, masks, high);
    shortest_to_none(Halves::new(rule, half, low, high), out, queue)
}

// The first word from all blocks to none, by whatever steps. The queue takes 4 words for each set of blocks.
fn shortest_to_none<S: SubsetSteps + Copy>(
    steps: S,
    out: &mut [u32],
    queue: &mut [u32],
) -> Result<Option<usize>, TooLong>
    requires tells { SetsTell (S.of steps) }
    requires room { 4 * 2 ^ blocks_of (S.of steps) ≤ length queue.old }
    ensures { TellsOrphan (S.of steps) out.old out.new result }
{
    let start = steps.start();
    let sets = SubsetAutomaton { steps };
    shortest_word(&sets, start.0, BlockSet::empty().0, out, queue, 0)
}
