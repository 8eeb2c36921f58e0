#![tactic(auto)]

// Only finitely many cells: two rows that differ at finitely many places and have one next row.
//
// Such rows are a diamond, a path of the pair graph that leaves the diagonal and comes back to it. A rule has one exactly if it has
// an orphan. The shortest is found in breadth, as the first word of an automaton.
ghost use Rattle.std.specs.Prelude.{◌*◌, ◌<◌, ◌≤◌, length, take, MatchOption};
ghost use Rattle.finite.specs.Diamonds.{states_of, FirstDiamond, NoDiamonds};
ghost use Rattle.finite.specs.Told.{Answer, FinitePost};
ghost use Rattle.rules.specs.Local.{the_rule};

pub mod diamonds;
mod rows;
mod split;

use bfs::shortest_word;
use diamonds::{Diamonds, MOST_STATES, TABLES};
use rows::write_rows;
use rules::sound::SoundRule;

// Two rows of one next row that differ in their middles only, by the lengths of their left, middle and right; how many cells of `out`
// they want, where it has fewer; that there are none; or why not. By a rule of the project these are cases of plain numbers.
#[derive(Clone, Copy, PartialEq, Eq, Debug)]
pub enum Finite {
    Twins(usize, usize, usize),
    Full(usize),
    NoTwins,
    NoRule,
    Few,
}

// The words of work that the search wants.
pub const WORK: usize = 4096;

// The cells that two rows may want.
pub const ROWS: usize = 1024;

// Finds two rows that differ at finitely many places and have one next row, with the shortest middles: left, middle and right of the
// one, then those of the other, stand first in `out`. The left is the block before the first cell that differs, and the right the block
// behind the last. The numbers and the table of the rule come one by one, since others' code calls this.
pub fn find_twins(kinds: u32, wide: u32, table: &[u32], out: &mut [u32], work: &mut [u32]) -> Finite
    ensures { FinitePost kinds wide table.now (length work.old) out.old out.new result }
{
    if work.len() < WORK {
        return Finite::Few;
    }
    match SoundRule::try_new(kinds, wide, table) {
        Ok(rule) => search(rule, out, work),
        Err(_) => Finite::NoRule,
    }
}

// The shortest diamond of a rule. The words are the tables of the automaton, a word of it, and the queue.
fn search(rule: SoundRule, out: &mut [u32], work: &mut [u32]) -> Finite
    requires { 4096 ≤ length work.old }
    ensures { Answer (the_rule rule.entry.local) out.old out.new result }
{
    let (tables, rest) = work.split_at_mut(TABLES);
    let (word, queue) = rest.split_at_mut(MOST_STATES);
    let diamonds = Diamonds::new(rule, tables);
    match first_diamond(diamonds, word, queue) {
        Some(n) => tell(diamonds, &word[..n], out),
        None => Finite::NoTwins,
    }
}

// The first word from the start to the target, first in lent cells that have room for any.
fn first_diamond(diamonds: Diamonds, word: &mut [u32], queue: &mut [u32]) -> Option<usize>
    requires word { states_of (the_rule diamonds.rule.local) ≤ length word.old }
    requires queue { 4 * states_of (the_rule diamonds.rule.local) ≤ length queue.old }
    ensures { MatchOption result
        (NoDiamonds (the_rule diamonds.entry.rule.local))
        (λ n. (n < states_of (the_rule diamonds.entry.rule.local)) × FirstDiamond (the_rule diamonds.entry.rule.local) (take n word.new)) }
{
    let start = diamonds.start();
    let target = diamonds.target();
    match shortest_word(&diamonds, start, target, word, queue, 0) {
        Ok(found) => found,
        // A first word has fewer symbols than there are states.
        Err(_) => unreachable!(),
    }
}

// Writes the rows that a word spells, if they fit.
fn tell(diamonds: Diamonds, word: &[u32], out: &mut [u32]) -> Finite
    requires first { FirstDiamond (the_rule diamonds.rule.local) word.now }
    requires short { length word.now < states_of (the_rule diamonds.rule.local) }
    ensures { Answer (the_rule diamonds.entry.rule.local) out.old out.new result }
{
    let [block, symbols @ ..] = word else {
        unreachable!()
    };
    let far = diamonds.rule.local.wide() as usize - 1;
    let wanted = 2 * (far + symbols.len());
    if wanted > out.len() {
        return Finite::Full(wanted);
    }
    write_rows(diamonds, *block, symbols, out);
    Finite::Twins(far, symbols.len() - far, far)
}
