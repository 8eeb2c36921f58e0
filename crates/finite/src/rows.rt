// The rows that a word of the automaton spells.
ghost use Rattle.std.specs.Prelude.{◌≡◌, ℕ, List, ◌+◌, ◌-◌, ◌*◌, ◌≤◌, ◌<◌, ◌++◌, map, length, slice_index};
ghost use Rattle.std.specs.List.{AllByRecursion};
ghost use Rattle.rules.specs.Local.{the_rule};
ghost use Rattle.rules.specs.Rows.{Puts};
ghost use Rattle.rules.specs.Rules.{blocks_of};
ghost use Rattle.finite.specs.Diamonds.{IsBlock, Symbols, firsts, seconds};

use crate::diamonds::Diamonds;
use rules::cells::Window;
use rules::local::LocalRule;

// Writes all of one row and then all of the other: the block that the word begins with, and of each symbol the cell that it has in the
// row.
pub fn write_rows(diamonds: Diamonds, block: u32, symbols: &[u32], out: &mut [u32])
    requires block { block < blocks_of (the_rule diamonds.rule.local) }
    requires symbols { Symbols (the_rule diamonds.rule.local) symbols.now }
    requires room { 2 * (diamonds.rule.local.wide - 1 + length symbols.now) ≤ length out.old }
    ensures { (p : List ℕ) → IsBlock (the_rule diamonds.entry.rule.local) block p → Puts out.old out.new ((p ++ firsts (the_rule diamonds.entry.rule.local) symbols.now) ++ (p ++ seconds (the_rule diamonds.entry.rule.local) symbols.now)) }
{
    let rule = diamonds.rule.local;
    let row = rule.wide() as usize - 1 + symbols.len();
    let cells = diamonds.symbols;
    write_row(rule, block, symbols, cells.firsts, out);
    write_row(rule, block, symbols, cells.seconds, &mut out[row..]);
}

// Writes the cells of a block, and behind them what a table has for each symbol.
fn write_row(rule: LocalRule, block: u32, symbols: &[u32], cells: &[u32], out: &mut [u32])
    requires block { block < blocks_of (the_rule rule) }
    requires symbols { AllByRecursion (λ e. e < length cells.now) symbols.now }
    requires room { rule.wide - 1 + length symbols.now ≤ length out.old }
    ensures { (p : List ℕ) → IsBlock (the_rule rule.entry) block p → Puts out.old out.new (p ++ map (slice_index cells.now) symbols.now) }
{
    let (left, rest) = out.split_at_mut(rule.wide() as usize - 1);
    Window(block as usize).spell(rule.kinds(), left);
    for (i, symbol) in symbols.iter().enumerate() {
        rest[i] = cells[*symbol as usize];
    }
}
