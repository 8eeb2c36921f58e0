// Which tables are rules or ways back, and why others are not.
ghost use Rattle.std.specs.Prelude.{◌≡◌, ℕ, ◌-◌, ◌^◌, ◌<◌, ◌≤◌, true, length, is_ok, MatchResult};
ghost use Rattle.rules.specs.Local.{the_rule};
ghost use Rattle.rules.specs.Rules.{rule_of, Cells, Runnable, Sound};
ghost use Rattle.rules.specs.Checks.{BadSize, BadTable, Unfit};

use crate::cells::stray;
use crate::local::LocalRule;
use crate::sound::SoundRule;

// Why a table is no rule: the first of these that holds, in this order.
#[derive(Clone, Copy, PartialEq, Eq, Debug)]
pub enum NoRule {
    FewKinds,
    Narrow,
    Large,
    Length { wanted: usize, found: usize },
    NoKind { place: usize },
}

// A rule that is decided has at most so many blocks of one cell less than a window.
pub const MOST_BLOCKS: usize = 16;

// A way back that is run has at most so many windows.
pub const MOST_WINDOWS: usize = 262_144;

impl<'a> SoundRule<'a> {
    // A table that is a rule to be decided.
    pub fn try_new(kinds: u32, wide: u32, table: &'a [u32]) -> Result<SoundRule<'a>, NoRule>
        ensures says { MatchResult result
            (λ s. (the_rule s.local ≡ rule_of kinds wide table.now) × Sound (rule_of kinds wide table.now))
            (Unfit 2 16 kinds wide table.now) }
        ensures exact { Sound (rule_of kinds wide table.now) → is_ok result ≡ true }
    {
        let blocks = check_size(kinds, wide, 2, MOST_BLOCKS)?;
        check_table(kinds, blocks * kinds as usize, table)?;
        let local = LocalRule::new(kinds, wide, table);
        Ok(SoundRule { local })
    }
}

impl<'a> LocalRule<'a> {
    // A table that can be run on a ring, as a rule or as a way back of any width.
    pub fn try_new(kinds: u32, wide: u32, table: &'a [u32]) -> Result<LocalRule<'a>, NoRule>
        ensures says { MatchResult result
            (λ l. (the_rule l ≡ rule_of kinds wide table.now) × Runnable (rule_of kinds wide table.now))
            (Unfit 1 262144 kinds wide table.now) }
        ensures exact { Runnable (rule_of kinds wide table.now) → is_ok result ≡ true }
    {
        let windows = check_size(kinds, wide, 1, MOST_WINDOWS)?;
        check_table(kinds, windows, table)?;
        Ok(LocalRule::new(kinds, wide, table))
    }
}

// Whether there are kinds enough, the width is at least `least`, and the pieces of all but `least - 1` cells of a window
// are at most `most`; the answer is how many these are. The power is looked at before it is done.
fn check_size(kinds: u32, wide: u32, least: u32, most: usize) -> Result<usize, NoRule>
    requires { 1 ≤ least }
    ensures { MatchResult result (λ n. (2 ≤ kinds) × (least ≤ wide) × (n ≤ most) × (n ≡ kinds ^ (wide - (least - 1)))) (BadSize least most kinds wide) }
{
    if kinds < 2 {
        return Err(NoRule::FewKinds);
    }
    if wide < least {
        return Err(NoRule::Narrow);
    }
    let Some(pieces) = (kinds as usize).checked_pow(wide - (least - 1)) else {
        return Err(NoRule::Large);
    };
    if pieces > most {
        return Err(NoRule::Large);
    }
    Ok(pieces)
}

// Whether a table of so many windows has one cell for each, and all of them of the kinds.
fn check_table(kinds: u32, windows: usize, table: &[u32]) -> Result<(), NoRule>
    ensures { MatchResult result (λ _. (length table.now ≡ windows) × Cells kinds table.now) (BadTable windows kinds table.now) }
{
    if table.len() != windows {
        return Err(NoRule::Length {
            wanted: windows,
            found: table.len(),
        });
    }
    match stray(kinds, table) {
        Some(place) => Err(NoRule::NoKind { place }),
        None => Ok(()),
    }
}
