// The automaton whose words are paths of the pair graph that leave the diagonal and come back to it.
ghost use Rattle.std.specs.Prelude.{◌≡◌, ◌+◌, ◌-◌, ◌*◌, ◌^◌, ◌<◌, ◌≤◌, length, MatchOption};
ghost use Rattle.rules.specs.Local.{the_rule};
ghost use Rattle.rules.specs.Rules.{blocks_of};
ghost use Rattle.pairs.specs.Pairs.{pairs_of};
ghost use Rattle.finite.specs.Diamonds.{start_of, target_of, dead_of, states_of, symbols_of, arrived, leads_pair, leads};

use crate::split::Split;
use bfs::Automaton;
use rules::cells::Window;
use rules::sound::SoundRule;

// The first symbol is a block, for the pair of itself. Each other one is two cells, and leads from a pair by the two windows that
// they end, if one cell comes of both.
#[derive(Clone, Copy)]
pub struct Diamonds<'r, 't> {
    pub rule: SoundRule<'r>,
    // The blocks of each pair.
    pairs: Split<'t>,
    // The first cell of each window, and the block behind it.
    windows: Split<'t>,
    // The two cells of each symbol.
    pub symbols: Split<'t>,
    ghost pairs_of_blocks: { pairs.base ≡ blocks_of (the_rule rule.local) },
    ghost all_pairs: { length pairs.firsts.now ≡ pairs_of (the_rule rule.local) },
    ghost blocks_behind: { windows.base ≡ blocks_of (the_rule rule.local) },
    ghost all_windows: { length windows.firsts.now ≡ blocks_of (the_rule rule.local) * rule.local.kinds },
    ghost symbols_of_cells: { symbols.base ≡ rule.local.kinds },
    ghost all_symbols: { length symbols.firsts.now ≡ rule.local.kinds * rule.local.kinds },
}

// The words that the tables want at most.
pub const TABLES: usize = 1536;

// The states are fewer than that.
pub const MOST_STATES: usize = 260;

impl<'r, 't> Diamonds<'r, 't> {
    pub fn new(rule: SoundRule<'r>, words: &'t mut [u32]) -> Diamonds<'r, 't>
        requires { 1536 ≤ length words.old }
        ensures { the_rule result.rule.local ≡ the_rule rule.entry.local }
    {
        let blocks = rule.local.blocks();
        let kinds = rule.local.kinds() as usize;
        let (pairs, rest) = words.split_at_mut(2 * (blocks * blocks));
        let (windows, rest) = rest.split_at_mut(2 * (blocks * kinds));
        let (symbols, _) = rest.split_at_mut(2 * (kinds * kinds));
        Diamonds {
            rule,
            pairs: Split::fill(blocks as u32, blocks * blocks, pairs),
            windows: Split::fill(blocks as u32, blocks * kinds, windows),
            symbols: Split::fill(kinds as u32, kinds * kinds, symbols),
        }
    }
}

impl Diamonds<'_, '_> {
    // Before the first symbol.
    pub fn start(&self) -> u32
        ensures { result ≡ start_of (the_rule self.now.rule.local) }
    {
        self.pairs.firsts.len() as u32
    }

    // Come back to the diagonal.
    pub fn target(&self) -> u32
        ensures { result ≡ target_of (the_rule self.now.rule.local) }
    {
        self.start() + 1
    }

    fn blocks(&self) -> u32
        ensures { result ≡ blocks_of (the_rule self.now.rule.local) }
    {
        self.rule.local.blocks() as u32
    }

    // Where a pair leads, if there is an edge by the cells of the symbol.
    fn follow_pair(&self, pair: u32, symbol: u32) -> Option<u32>
        requires { pair < pairs_of (the_rule self.now.rule.local) }
        ensures { MatchOption result
            (leads_pair (the_rule self.now.rule.local) pair symbol ≡ dead_of (the_rule self.now.rule.local))
            (λ next. (next ≡ leads_pair (the_rule self.now.rule.local) pair symbol) × (next < states_of (the_rule self.now.rule.local))) }
    {
        let pair = pair as usize;
        let symbol = symbol as usize;
        if symbol >= self.symbols.firsts.len() {
            return None;
        }
        let first = self.window(self.pairs.first(pair), self.symbols.first(symbol));
        let second = self.window(self.pairs.second(pair), self.symbols.second(symbol));
        if self.rule.local.cell(first) != self.rule.local.cell(second) {
            return None;
        }
        Some(self.arrive(
            pair,
            self.windows.second(first.0),
            self.windows.second(second.0),
        ))
    }

    // The window of a block and the cell behind it.
    fn window(&self, block: u32, cell: u32) -> Window
        requires block { block < blocks_of (the_rule self.now.rule.local) }
        requires cell { cell < self.now.rule.local.kinds }
        ensures is { result.0 ≡ block * self.now.rule.local.kinds + cell }
        ensures inside { result.0 < blocks_of (the_rule self.now.rule.local) * self.now.rule.local.kinds }
        ensures looked_up { result.0 < self.now.rule.local.kinds ^ self.now.rule.local.wide }
    {
        Window(block as usize * self.rule.local.kinds() as usize + cell as usize)
    }

    // An edge from a pair leads to the pair of these blocks, or to the target, if it comes back to the diagonal.
    fn arrive(&self, pair: usize, first: u32, second: u32) -> u32
        requires pair { pair < pairs_of (the_rule self.now.rule.local) }
        requires first { first < blocks_of (the_rule self.now.rule.local) }
        requires second { second < blocks_of (the_rule self.now.rule.local) }
        ensures is { result ≡ arrived (the_rule self.now.rule.local) pair (first * blocks_of (the_rule self.now.rule.local) + second) }
        ensures below { result < states_of (the_rule self.now.rule.local) }
    {
        if first == second && self.pairs.first(pair) != self.pairs.second(pair) {
            return self.target();
        }
        first * self.blocks() + second
    }
}

impl Automaton for Diamonds<'_, '_> {
    ghost states = { λ d. states_of (the_rule d.rule.local) };

    ghost symbols = { λ d. symbols_of (the_rule d.rule.local) };

    ghost leads = { λ d. leads (the_rule d.rule.local) };

    ghost dead = { λ d x. x ≡ dead_of (the_rule d.rule.local) };

    fn states(&self) -> u32 {
        self.start() + 2
    }

    fn symbols(&self) -> u32 {
        self.blocks().max(self.symbols.firsts.len() as u32)
    }

    fn follow(&self, state: u32, symbol: u32) -> Option<u32> {
        let start = self.start();
        if state < start {
            return self.follow_pair(state, symbol);
        }
        if state == start && symbol < self.blocks() {
            return Some(symbol * self.blocks() + symbol);
        }
        None
    }
}
