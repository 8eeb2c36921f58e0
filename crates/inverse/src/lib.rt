#![tactic(auto)]

// The least way back of a rule, by the pasts and the futures of its pairs.
ghost use Rattle.std.specs.Prelude.{◌≡◌, ℕ, ◌+◌, ◌-◌, ◌<◌, ◌≤◌, length, Decides, MatchOption, ◌^◌};
ghost use Rattle.inverse.specs.Inverse.{Answers, Apart, Endless, FirstTold, NoneTold};
ghost use Rattle.rules.specs.Local.{the_rule};
ghost use Rattle.pairs.specs.Measured.{Measured};
ghost use Rattle.pairs.specs.Pairs.{pairs_of, Graph};
ghost use Rattle.theory.specs.Says.{Tells};

pub mod table;

use pairs::depths::{PairDepths, measure_pairs};
use pairs::graph::{ENDLESS, pair_count};
use rules::sound::SoundRule;

// A width of a way back, and the place whose cell so many cells of the next row tell.
#[derive(Clone, Copy, PartialEq, Eq, Debug)]
pub struct WayBack {
    pub width: u32,
    pub place: u32,
}

// Why there is no way back: a pair of different blocks that has an endless past and an endless future, so that no width tells
// them apart.
#[derive(Clone, Copy, PartialEq, Eq, Debug)]
pub struct TwinPair(pub usize);

// The least width, and there the first place, whose cell the next row tells, or a pair for which there is none. The words from
// `base` on then have the pasts of the pairs, and behind them the futures.
pub fn least_way_back(rule: SoundRule, base: usize, work: &mut [u32]) -> Result<WayBack, TwinPair>
    requires { (base + pairs_of (the_rule rule.local)) + pairs_of (the_rule rule.local) ≤ length work.old }
    ensures answers { Answers (the_rule rule.entry.local) result }
    ensures graph { Graph (the_rule rule.entry.local) base work.old work.new }
{
    measure_pairs(rule, base, work);
    let pairs = pair_count(rule);
    let middle = base + pairs;
    least_told(PairDepths {
        rule,
        pasts: &work[base..middle],
        futures: &work[middle..middle + pairs],
    })
}

// The same of pairs that are measured.
pub fn least_told(depths: PairDepths) -> Result<WayBack, TwinPair>
    requires { Measured depths }
    ensures { Answers (the_rule depths.entry.rule.local) result }
{
    if let Some(pair) = endless_pair(depths) {
        return Err(TwinPair(pair));
    }
    // No bound on the width is named: that there is one is what the measure of this loop proves.
    let mut width = 1;
    'widths: loop {
        if let Some(place) = first_told(depths, width) {
            return Ok(WayBack { width, place });
        }
        width += 1;
    }
}

// Whether so many cells of the next row tell the cell at a place. Two pieces that differ there are a walk through a pair
// whose blocks differ in it: so many edges lie behind the pair, and the rest before it.
pub fn tells(depths: PairDepths, width: u32, place: u32) -> bool
    requires depths { Measured depths }
    requires inside { place < width + (depths.rule.local.wide - 1) }
    ensures { Decides result (Tells (the_rule depths.entry.rule.local) width place) }
{
    let behind = place.min(width);
    let before = width - behind;
    let unit = unit_of(depths.rule, depths.rule.local.wide() - 2 - (place - behind));
    !(0..depths.pasts.len()).any(|pair| {
        depths.pasts[pair] >= behind
            && depths.futures[pair] >= before
            && apart(depths.rule, pair, unit)
    })
}

// The first place that so many cells of the next row tell, if there is one.
fn first_told(depths: PairDepths, width: u32) -> Option<u32>
    requires depths { Measured depths }
    requires fits { width + depths.rule.local.wide < 2 ^ 32 }
    ensures { MatchOption result (NoneTold (the_rule depths.entry.rule.local) width) (FirstTold (the_rule depths.entry.rule.local) width) }
{
    (0..width + (depths.rule.local.wide() - 1)).find(|place| tells(depths, width, *place))
}

// A pair of different blocks with an endless past and an endless future, if there is one.
fn endless_pair(depths: PairDepths) -> Option<usize>
    requires { Measured depths }
    ensures { MatchOption result ((x : ℕ) → Endless (the_rule depths.entry.rule.local) x → ⊥) (Endless (the_rule depths.entry.rule.local)) }
{
    let blocks = depths.rule.local.blocks();
    (0..depths.pasts.len()).find(|&pair| {
        depths.pasts[pair] == ENDLESS
            && depths.futures[pair] == ENDLESS
            && pair / blocks != pair % blocks
    })
}

// What the digit of a block stands for that has so many digits behind it.
fn unit_of(rule: SoundRule, behind: u32) -> u32
    requires { behind < rule.local.wide - 1 }
    ensures is { result ≡ rule.entry.local.kinds ^ behind }
    ensures some { 0 < result }
{
    rule.local.kinds().pow(behind)
}

// Whether the blocks of a pair differ in the digit that stands for `unit`.
fn apart(rule: SoundRule, pair: usize, unit: u32) -> bool
    requires { 0 < unit }
    ensures { Decides result (Apart (the_rule rule.entry.local) unit pair) }
{
    let blocks = rule.local.blocks();
    let kinds = rule.local.kinds() as usize;
    let first = pair / blocks / unit as usize % kinds;
    let second = pair % blocks / unit as usize % kinds;
    first != second
}
