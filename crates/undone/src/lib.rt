#![tactic(auto)]

// Whether a rule can be run backwards: a way back, two rows of one next row, or a piece that comes from none.
ghost use Rattle.std.specs.Prelude.{◌+◌, ◌*◌, ◌≤◌, length};
ghost use Rattle.undone.specs.Decided.{Answer, DecidedPost, NoOrphans};
ghost use Rattle.inverse.specs.Inverse.{LeastTold, Endless};
ghost use Rattle.pairs.specs.Measured.{Measured};
ghost use Rattle.pairs.specs.Pairs.{pairs_of};
ghost use Rattle.rules.specs.Local.{the_rule};

use bfs::TooLong;
use inverse::table::write_way_back;
use inverse::{TwinPair, WayBack, least_way_back};
use orphans::first_orphan;
use pairs::depths::PairDepths;
use pairs::graph::pair_count;
use rules::sound::SoundRule;
use twins::write_twins;

// A way back, by its width and place; two rows of one next row, by the lengths of their parts; a piece that comes from none,
// by its length; or why not. By a rule of the project these are eight cases of plain numbers, as the interface for C has them:
// whether what is told fits in the lent cells is a case of its own, and widths, places and lengths stand side by side.
#[derive(Clone, Copy, PartialEq, Eq, Debug)]
pub enum Decided {
    Undone(u32, u32),
    Twins(usize, usize, usize),
    Orphan(usize),
    UndoneFull(u32, u32),
    TwinsFull,
    OrphanFull(usize),
    NoRule,
    Few,
}

// The words of work that a decision wants.
pub const WORK: usize = 524_288;

// The cells that two rows of one next row may want.
pub const ROWS: usize = 4096;

// Decides a rule. What is told stands first in `out`, and nothing is written there that does not fit. The numbers and the table
// of the rule come one by one, since others' code calls this, for C too.
pub fn decide(kinds: u32, wide: u32, table: &[u32], out: &mut [u32], work: &mut [u32]) -> Decided
    ensures { DecidedPost kinds wide table.now (length work.old) out.old out.new result }
{
    if work.len() < WORK {
        return Decided::Few;
    }
    let Ok(rule) = SoundRule::try_new(kinds, wide, table) else {
        return Decided::NoRule;
    };
    match first_orphan(rule, out, work) {
        Ok(Some(n)) => Decided::Orphan(n),
        Ok(None) => invert(rule, out, work),
        Err(TooLong { wanted }) => Decided::OrphanFull(wanted),
    }
}

// A rule without an orphan has a way back or two rows of one next row.
fn invert(rule: SoundRule, out: &mut [u32], work: &mut [u32]) -> Decided
    requires none { NoOrphans (the_rule rule.local) }
    requires room { 524288 ≤ length work.old }
    ensures { Answer (the_rule rule.entry.local) out.old out.new result }
{
    match least_way_back(rule, 0, work) {
        Ok(told) => tell_way_back(rule, told, out),
        Err(TwinPair(pair)) => {
            // The words of work begin with the pasts and the futures of the pairs.
            let pairs = pair_count(rule);
            let (words, paths) = work.split_at_mut(2 * pairs);
            let (pasts, futures) = words.split_at(pairs);
            let depths = PairDepths {
                rule,
                pasts,
                futures,
            };
            tell_twins(depths, pair, out, paths)
        }
    }
}

// Writes two rows of one next row where they fit.
fn tell_twins(depths: PairDepths, pair: usize, out: &mut [u32], paths: &mut [u32]) -> Decided
    requires depths { Measured depths }
    requires none { NoOrphans (the_rule depths.rule.local) }
    requires pair { Endless (the_rule depths.rule.local) pair }
    requires room { 2 * (pairs_of (the_rule depths.rule.local) + depths.rule.local.wide) ≤ length paths.old }
    ensures { Answer (the_rule depths.entry.rule.local) out.old out.new result }
{
    if out.len() < ROWS {
        return Decided::TwinsFull;
    }
    let lengths = write_twins(depths, pair, out, paths);
    Decided::Twins(lengths.left, lengths.mid, lengths.right)
}

// Writes the table of a way back where it fits.
fn tell_way_back(rule: SoundRule, told: WayBack, out: &mut [u32]) -> Decided
    requires { LeastTold (the_rule rule.local) told }
    ensures { Answer (the_rule rule.entry.local) out.old out.new result }
{
    let Some(cells) = (rule.local.kinds() as usize).checked_pow(told.width) else {
        return Decided::UndoneFull(told.width, told.place);
    };
    if cells > out.len() {
        return Decided::UndoneFull(told.width, told.place);
    }
    write_way_back(rule, told, out);
    Decided::Undone(told.width, told.place)
}
