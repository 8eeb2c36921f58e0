// Which tables are rules, the next rows of pieces, and sets of blocks, by example.
use crate::worked::*;
use orphans::automaton::SubsetSteps;
use orphans::sets::BlockSet;
use orphans::subsets::{Subsets, write_masks};
use rules::cells::Kind;
use rules::local::LocalRule;
use rules::row::{NoRow, next_row};
use rules::rule::NoRule;
use rules::sound::SoundRule;
use std::test::Fail;

// The next row of a piece by a table that fits.
fn next_by(
    kinds: u32,
    wide: u32,
    table: &[u32],
    row: &[u32],
    out: &mut [u32],
) -> Result<Result<usize, NoRow>, NoRule> {
    let rule = LocalRule::try_new(kinds, wide, table)?;
    Ok(next_row(rule, row, out))
}

// How many blocks a rule to be decided has.
fn rule_blocks(kinds: u32, wide: u32, table: &[u32]) -> Result<usize, NoRule> {
    Ok(SoundRule::try_new(kinds, wide, table)?.local.blocks())
}

// Whether a table can be run as a way back.
fn check_way_back(kinds: u32, wide: u32, table: &[u32]) -> Result<(), NoRule> {
    LocalRule::try_new(kinds, wide, table)?;
    Ok(())
}

#[test]
fn rules(rt: HostRuntime) {
    assert_eq!(rt; rule_blocks(2, 2, &SECOND), Ok(2));
    assert_eq!(rt; rule_blocks(2, 2, &SUM), Ok(2));
    assert_eq!(rt; rule_blocks(2, 2, &BOTH), Ok(2));
    assert_eq!(rt; rule_blocks(4, 2, &OWN_BACK), Ok(4));
    assert_eq!(rt; rule_blocks(2, 2, &[0; 4]), Ok(2));
    assert_eq!(rt; rule_blocks(3, 2, &SUM_OF_THREE), Ok(3));
    assert_eq!(rt; rule_blocks(2, 4, &TURNED), Ok(8));
    assert_eq!(rt; rule_blocks(16, 2, &halves()), Ok(16));
}

#[test]
fn no_rules(rt: HostRuntime) {
    assert_eq!(rt; rule_blocks(1, 2, &[0]), Err(NoRule::FewKinds));
    assert_eq!(rt; rule_blocks(2, 1, &[0, 1]), Err(NoRule::Narrow));
    assert_eq!(rt; rule_blocks(17, 2, &[]), Err(NoRule::Large));
    assert_eq!(rt; rule_blocks(2, 6, &[]), Err(NoRule::Large));
    assert_eq!(rt; rule_blocks(2, u32::MAX, &[]), Err(NoRule::Large));
    let short = NoRule::Length {
        wanted: 4,
        found: 3,
    };
    assert_eq!(rt; rule_blocks(2, 2, &[0, 1, 1]), Err(short));
    let long = NoRule::Length {
        wanted: 4,
        found: 5,
    };
    assert_eq!(rt; rule_blocks(2, 2, &[0, 1, 1, 0, 0]), Err(long));
    let place = NoRule::NoKind { place: 1 };
    assert_eq!(rt; rule_blocks(2, 2, &[0, 2, 1, 2]), Err(place));
}

#[test]
fn ways_back(rt: HostRuntime) {
    assert_eq!(rt; check_way_back(2, 1, &[0, 1]), Ok(()));
    assert_eq!(rt; check_way_back(1, 1, &[0]), Err(NoRule::FewKinds));
    assert_eq!(rt; check_way_back(2, 0, &[0]), Err(NoRule::Narrow));
    assert_eq!(rt; check_way_back(2, 19, &[]), Err(NoRule::Large));
    assert_eq!(rt; check_way_back(2, u32::MAX, &[]), Err(NoRule::Large));
    let none = NoRule::Length {
        wanted: 262_144,
        found: 0,
    };
    assert_eq!(rt; check_way_back(2, 18, &[]), Err(none));
}

#[test]
fn next_rows(rt: HostRuntime) -> Result<(), Fail> {
    let mut out = [7; 5];
    assert_eq!(rt; next_by(2, 2, &SECOND, &[1, 0, 0, 1], &mut out)?, Ok(3));
    assert_eq!(rt; out, [0, 0, 1, 7, 7]);
    assert_eq!(rt; next_by(2, 2, &SUM, &[0, 0, 1, 1, 0], &mut out)?, Ok(4));
    assert_eq!(rt; out, [0, 1, 0, 1, 7]);
    assert_eq!(rt; next_by(2, 2, &BOTH, &[1, 1, 1, 1], &mut out)?, Ok(3));
    assert_eq!(rt; out, [1, 1, 1, 1, 7]);
    assert_eq!(rt; next_by(2, 2, &BOTH, &[1, 1, 0, 1], &mut out)?, Ok(3));
    assert_eq!(rt; out, [1, 0, 0, 1, 7]);
    assert_eq!(rt; next_by(4, 2, &OWN_BACK, &[2, 1, 3, 0], &mut out)?, Ok(3));
    assert_eq!(rt; out, [2, 0, 3, 1, 7]);
    Ok(())
}

#[test]
fn no_next_rows(rt: HostRuntime) -> Result<(), Fail> {
    let mut out = [7; 2];
    assert_eq!(rt; next_by(2, 2, &SUM, &[1], &mut out)?, Ok(0));
    let place = NoRow::NoKind { place: 1 };
    assert_eq!(rt; next_by(2, 2, &SUM, &[1, 2, 0, 2], &mut out)?, Err(place));
    let wanted = NoRow::Short { wanted: 3 };
    assert_eq!(rt; next_by(2, 2, &SUM, &[1, 0, 0, 1], &mut out)?, Err(wanted));
    assert_eq!(rt; out, [7, 7]);
    Ok(())
}

#[test]
fn sets(rt: HostRuntime) {
    let odd = BlockSet::empty().with(1).with(3);
    assert!(rt; odd.has(1) && odd.has(3) && !odd.has(0) && !odd.has(2));
    let even = BlockSet::full(4).without(1).without(3);
    assert!(rt; even.has(0) && even.has(2) && !even.has(1) && !even.has(3) && !even.has(4));
    assert!(rt; !even.is_empty() && even.without(0).without(2).is_empty());
    assert_eq!(rt; even.union(odd).0, BlockSet::full(4).0);
}

// After how many kinds of a word no block is left, for a rule of at most 16 windows.
fn emptied_by(kinds: u32, wide: u32, table: &[u32], word: &[u32]) -> Result<Option<usize>, NoRule> {
    let rule = SoundRule::try_new(kinds, wide, table)?.local;
    let mut work = [7; 20];
    if table.len() > 16 {
        return Ok(None);
    }
    write_masks(rule, &mut work, 2);
    let subsets = Subsets::new(rule, &work[2..2 + table.len()]);
    let mut set = subsets.start();
    for (place, kind) in word.iter().enumerate() {
        if *kind >= kinds {
            return Ok(None);
        }
        set = subsets.step(set, Kind(*kind));
        if set.is_empty() {
            return Ok(Some(place + 1));
        }
    }
    Ok(None)
}

#[test]
fn masks(rt: HostRuntime) -> Result<(), Fail> {
    let rule = SoundRule::try_new(2, 2, &BOTH)?;
    let mut work = [7; 6];
    write_masks(rule.local, &mut work, 1);
    assert_eq!(rt; work, [7, 3, 0, 1, 2, 7]);
    Ok(())
}

#[test]
fn orphans(rt: HostRuntime) -> Result<(), Fail> {
    assert_eq!(rt; emptied_by(2, 2, &BOTH, &[1, 0, 1])?, Some(3));
    assert_eq!(rt; emptied_by(2, 2, &SUM, &[1, 0, 1, 1, 0, 0])?, None);
    assert_eq!(rt; emptied_by(2, 4, &TURNED, &[1, 1, 1, 0, 0, 1])?, Some(6));
    Ok(())
}
