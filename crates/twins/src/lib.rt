#![tactic(auto)]

// Twins: two endless rows that differ and have one next row, from a pair of different blocks with an endless past and an
// endless future.
//
// A path back from the pair comes to some pair twice, and so does a path on. The cells between the two places are what the
// rows have again and again to the left, and to the right.
ghost use Rattle.std.specs.Prelude.{◌≡◌, ℕ, ◌+◌, ◌*◌, ◌/◌, ◌%◌, ◌<◌, ◌≤◌, ◌++◌, map, reverse, length, drop, slice_index};
ghost use Rattle.pairs.specs.declared.graph.Direction.TheVariants.{Past, Future};
ghost use Rattle.rules.specs.Local.{the_rule};
ghost use Rattle.pairs.specs.Measured.{Measured};
ghost use Rattle.pairs.specs.Pairs.{pairs_of, Depths};
ghost use Rattle.rules.specs.Rows.{Puts};
ghost use Rattle.twins.specs.Twins.{Step, Path, Lasting, Unlike, Repeated, first_cell, second_cell, TwinsWritten};

use pairs::depths::PairDepths;
use pairs::graph::{ENDLESS, PairGraph, pair_count};
use rules::sound::SoundRule;

// How many cells the parts of each of two rows have.
#[derive(Clone, Copy, PartialEq, Eq, Debug)]
pub struct Lengths {
    pub left: usize,
    pub mid: usize,
    pub right: usize,
}

// Two places with the same word.
#[derive(Clone, Copy)]
struct Repeat {
    start: usize,
    end: usize,
}

// A path back from a pair, and a path on from it. Both begin with the pair.
#[derive(Clone, Copy)]
struct TwoPaths<'w> {
    back: &'w [u32],
    on: &'w [u32],
}

// Writes twins to the front of `out`: left, middle and right of the first row, then those of the second. The paths are kept in
// the first words of `work`, as many for each as there are pairs, and `wide` more.
pub fn write_twins(depths: PairDepths, pair: usize, out: &mut [u32], work: &mut [u32]) -> Lengths
    requires depths { Measured depths }
    requires past { Lasting (the_rule depths.rule.local) depths.pasts.now pair }
    requires future { Lasting (the_rule depths.rule.local) depths.futures.now pair }
    requires unlike { Unlike (the_rule depths.rule.local) pair }
    requires rows { 4096 ≤ length out.old }
    requires room { 2 * (pairs_of (the_rule depths.rule.local) + depths.rule.local.wide) ≤ length work.old }
    ensures twins { TwinsWritten (the_rule depths.entry.rule.local) out.old out.new result }
    ensures rest { drop (2 * (pairs_of (the_rule depths.entry.rule.local) + depths.entry.rule.local.wide)) work.new ≡ drop (2 * (pairs_of (the_rule depths.entry.rule.local) + depths.entry.rule.local.wide)) work.old }
{
    let rule = depths.rule;
    let steps = pair_count(rule) + rule.local.wide() as usize;
    let (back, on) = work[..2 * steps].split_at_mut(steps);
    let (past, future) = PairGraph::both_ways(rule);
    walk(past, depths.pasts, pair, back);
    walk(future, depths.futures, pair, on);
    write_along(rule, TwoPaths { back, on }, out)
}

// Writes twins along two paths from one pair.
fn write_along(rule: SoundRule, paths: TwoPaths, out: &mut [u32]) -> Lengths
    requires rows { 4096 ≤ length out.old }
    requires back { Path (the_rule rule.local) Past (slice_index paths.back.now 0) paths.back.now }
    requires on { Path (the_rule rule.local) Future (slice_index paths.back.now 0) paths.on.now }
    requires back_long { length paths.back.now ≡ pairs_of (the_rule rule.local) + rule.local.wide }
    requires on_long { length paths.on.now ≡ pairs_of (the_rule rule.local) + rule.local.wide }
    requires unlike { Unlike (the_rule rule.local) (slice_index paths.back.now 0) }
    ensures { TwinsWritten (the_rule rule.entry.local) out.old out.new result }
{
    let pairs = pair_count(rule);
    let far = rule.local.wide() as usize - 1;
    let left = find_repeat(pairs, paths.back);
    // The blocks of the first pair, in which the rows differ, belong to the middle.
    let right = find_repeat(pairs, &paths.on[far..]);
    let cut = TwoPaths {
        back: &paths.back[1..left.end + 1],
        on: &paths.on[..far + right.end],
    };
    write_rows(rule, cut, out);
    Lengths {
        left: left.end - left.start,
        mid: left.start + far + right.start,
        right: right.end - right.start,
    }
}

// Writes the first cells of the first blocks of the pairs, those of `back` from its end on and then those of `on`, and behind
// them the first cells of the second blocks.
fn write_rows(rule: SoundRule, paths: TwoPaths, out: &mut [u32])
    requires { 2 * (length paths.back.now + length paths.on.now) ≤ length out.old }
    ensures { Puts out.old out.new (map (first_cell (the_rule rule.entry.local)) (reverse paths.entry.back.now ++ paths.entry.on.now) ++ map (second_cell (the_rule rule.entry.local)) (reverse paths.entry.back.now ++ paths.entry.on.now)) }
{
    let blocks = rule.local.blocks();
    let kinds = rule.local.kinds() as usize;
    let row = paths.back.len() + paths.on.len();
    write_row(kinds, blocks * blocks / kinds, paths, out);
    write_row(kinds, blocks / kinds, paths, &mut out[row..]);
}

// Writes of each pair, those of `back` from its end on and then those of `on`, the digit of a worth. The digits of a pair are
// the cells of its two blocks.
fn write_row(kinds: usize, worth: usize, paths: TwoPaths, out: &mut [u32])
    requires kinds { 0 < kinds }
    requires worth { 0 < worth }
    requires room { length paths.back.now + length paths.on.now ≤ length out.old }
    ensures { Puts out.old out.new (map (λ x. x / worth % kinds) (reverse paths.entry.back.now ++ paths.entry.on.now)) }
{
    let pairs = paths.back.iter().rev().chain(paths.on);
    // By index: what is written through a `zip` with `iter_mut` no invariant can name.
    for (i, pair) in pairs.enumerate() {
        out[i] = (*pair as usize / worth % kinds) as u32;
    }
}

// Writes a path: the pair first, then always a pair that has an endless past, or future, too.
fn walk(graph: PairGraph, depths: &[u32], pair: usize, path: &mut [u32])
    requires depths { Depths (the_rule graph.rule.local) graph.direction depths.now }
    requires pair { Lasting (the_rule graph.rule.local) depths.now pair }
    requires some { 0 < length path.old }
    ensures { Path (the_rule graph.entry.rule.local) graph.entry.direction pair path.new }
{
    let mut here = pair;
    for word in path.iter_mut() {
        *word = here as u32;
        here = onward(graph, depths, here);
    }
}

// The first pair at the other end of an edge that has an endless past, or future, as the pair itself has.
fn onward(graph: PairGraph, depths: &[u32], pair: usize) -> usize
    requires depths { Depths (the_rule graph.rule.local) graph.direction depths.now }
    requires pair { Lasting (the_rule graph.rule.local) depths.now pair }
    ensures step { Step (the_rule graph.entry.rule.local) graph.entry.direction pair result }
    ensures lasts { Lasting (the_rule graph.entry.rule.local) depths.now result }
{
    let kinds = graph.rule.local.kinds() as usize;
    // No chain: what is promised names the edge, which `filter_map` would leave behind.
    for edge in 0..kinds * kinds {
        if let Some(next) = graph.neighbour(pair, edge)
            && depths[next] == ENDLESS
        {
            return next;
        }
    }
    unreachable()
}

// Two places with the same word, the second as early as can be: there are more words than `most`, and all are below it.
fn find_repeat(most: usize, words: &[u32]) -> Repeat
    requires more { most < length words.now }
    requires below { (i : ℕ) → i < length words.now → slice_index words.now i < most }
    ensures { Repeated words.now result }
{
    for (end, word) in words.iter().enumerate() {
        if let Some(start) = words[..end].iter().position(|earlier| earlier == word) {
            return Repeat { start, end };
        }
    }
    unreachable()
}
