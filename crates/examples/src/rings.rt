// Rows in rings, forwards and back, by example.
use crate::worked::*;
use ring::{Held, NoRing, RingRule};
use rules::local::LocalRule;
use rules::rule::NoRule;
use std::test::Fail;

// A rule at place 0, or a way back at its place, by a table that fits.
fn by_table(kinds: u32, wide: u32, table: &[u32], place: usize) -> Result<RingRule<'_>, NoRule> {
    let rule = LocalRule::try_new(kinds, wide, table)?;
    Ok(RingRule { rule, place })
}

#[test]
fn rings_of_few(rt: HostRuntime) -> Result<(), Fail> {
    let rule = by_table(2, 4, &TURNED, 0)?;
    let mut one = [7];
    rule.step(&[1], &mut one)?;
    assert_eq!(rt; one, [1]);
    let mut two = [7; 2];
    rule.step(&[1, 0], &mut two)?;
    assert_eq!(rt; two, [0, 1]);
    let mut three = [1, 1, 0];
    let mut spare = [7; 3];
    assert_eq!(rt; rule.steps(2, &mut three, &mut spare), Ok(Held::Row));
    assert_eq!(rt; (three, spare), ([0, 1, 1], [1, 0, 1]));
    Ok(())
}

#[test]
fn rings_of_more(rt: HostRuntime) -> Result<(), Fail> {
    let rule = by_table(2, 4, &TURNED, 0)?;
    let mut four = [1, 0, 0, 0];
    let mut spare = [7; 4];
    assert_eq!(rt; rule.steps(2, &mut four, &mut spare), Ok(Held::Row));
    assert_eq!(rt; (four, spare), ([0, 0, 1, 0], [1, 0, 0, 1]));
    let mut five = [7; 5];
    rule.step(&[1, 0, 0, 1, 1], &mut five)?;
    assert_eq!(rt; five, [0, 0, 1, 1, 0]);
    Ok(())
}

#[test]
fn three_kinds(rt: HostRuntime) -> Result<(), Fail> {
    let table = sum_of_cells::<27>(3);
    let rule = by_table(3, 3, &table, 0)?;
    let mut one = [7];
    rule.step(&[2], &mut one)?;
    assert_eq!(rt; one, [0]);
    let mut two = [7; 2];
    rule.step(&[1, 2], &mut two)?;
    assert_eq!(rt; two, [1, 2]);
    let mut five = [7; 5];
    rule.step(&[0, 1, 2, 2, 1], &mut five)?;
    assert_eq!(rt; five, [0, 2, 2, 0, 2]);
    by_table(3, 3, &table, 6)?.step(&[0, 1, 2, 2, 1], &mut five)?;
    assert_eq!(rt; five, [2, 0, 2, 2, 0]);
    Ok(())
}

#[test]
fn four_kinds(rt: HostRuntime) -> Result<(), Fail> {
    let table = sum_of_cells::<64>(4);
    let rule = by_table(4, 3, &table, 0)?;
    let mut one = [7];
    rule.step(&[3], &mut one)?;
    assert_eq!(rt; one, [1]);
    let mut two = [7; 2];
    rule.step(&[3, 2], &mut two)?;
    assert_eq!(rt; two, [0, 3]);
    let mut five = [7; 5];
    rule.step(&[0, 1, 2, 3, 3], &mut five)?;
    assert_eq!(rt; five, [3, 2, 0, 2, 0]);
    by_table(4, 3, &table, 6)?.step(&[0, 1, 2, 3, 3], &mut five)?;
    assert_eq!(rt; five, [0, 3, 2, 0, 2]);
    Ok(())
}

// More cells than a word has bits.
#[test]
fn long_ring(rt: HostRuntime) -> Result<(), Fail> {
    let mut row = [1; 70];
    row[0] = 0;
    let mut wanted = [1; 70];
    wanted[69] = 0;
    let mut next = [7; 70];
    by_table(2, 2, &SECOND, 0)?.step(&row, &mut next)?;
    assert_eq!(rt; next, wanted);
    Ok(())
}

#[test]
fn second_and_back(rt: HostRuntime) -> Result<(), Fail> {
    let row = [1, 1, 0, 1, 0];
    let mut next = [7; 5];
    by_table(2, 2, &SECOND, 0)?.step(&row, &mut next)?;
    assert_eq!(rt; next, [1, 0, 1, 0, 1]);
    let mut before = [7; 5];
    by_table(2, 1, &[0, 1], 1)?.step(&next, &mut before)?;
    assert_eq!(rt; before, row);
    Ok(())
}

#[test]
fn halves_and_back(rt: HostRuntime) -> Result<(), Fail> {
    let rule = halves();
    let back = halves_back();
    let forwards = by_table(16, 2, &rule, 0)?;
    let backwards = by_table(16, 2, &back, 1)?;
    let mut row = [6, 9, 12];
    let mut spare = [99; 3];
    forwards.step(&row, &mut spare)?;
    assert_eq!(rt; spare, [5, 8, 14]);
    assert_eq!(rt; forwards.steps(2, &mut row, &mut spare), Ok(Held::Row));
    assert_eq!(rt; row, [4, 10, 13]);
    assert_eq!(rt; backwards.steps(2, &mut row, &mut spare), Ok(Held::Row));
    assert_eq!(rt; row, [6, 9, 12]);
    Ok(())
}

#[test]
fn seconds(rt: HostRuntime) -> Result<(), Fail> {
    let rule = by_table(2, 2, &SECOND, 0)?;
    let mut row = [1, 0, 0];
    let mut spare = [7; 3];
    assert_eq!(rt; rule.steps(0, &mut row, &mut spare), Ok(Held::Row));
    assert_eq!(rt; (row, spare), ([1, 0, 0], [7, 7, 7]));
    assert_eq!(rt; rule.steps(1, &mut row, &mut spare), Ok(Held::Spare));
    assert_eq!(rt; (row, spare), ([1, 0, 0], [0, 0, 1]));
    assert_eq!(rt; rule.steps(2, &mut row, &mut spare), Ok(Held::Row));
    assert_eq!(rt; (row, spare), ([0, 1, 0], [0, 0, 1]));
    assert_eq!(rt; rule.steps(3, &mut row, &mut spare), Ok(Held::Spare));
    assert_eq!(rt; (row, spare), ([0, 0, 1], [0, 1, 0]));
    Ok(())
}

#[test]
fn no_rings(rt: HostRuntime) -> Result<(), Fail> {
    let rule = by_table(2, 2, &SECOND, 0)?;
    let mut to = [7; 3];
    assert_eq!(rt; rule.step(&[], &mut to), Err(NoRing::Empty));
    let lengths = NoRing::Lengths {
        wanted: 4,
        found: 3,
    };
    assert_eq!(rt; rule.step(&[1, 0, 0, 2], &mut to), Err(lengths));
    let place = NoRing::NoKind { place: 1 };
    assert_eq!(rt; rule.step(&[1, 2, 2], &mut to), Err(place));
    assert_eq!(rt; to, [7; 3]);
    let mut row = [1, 2, 2];
    assert_eq!(rt; rule.steps(2, &mut row, &mut to), Err(place));
    assert_eq!(rt; (row, to), ([1, 2, 2], [7; 3]));
    Ok(())
}
