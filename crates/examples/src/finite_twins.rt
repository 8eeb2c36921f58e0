// Worked rules, and the rows that differ at finitely many places.
use crate::worked::*;
use finite::{Finite, ROWS, WORK, find_twins};
use std::test::Fail;

// The answer to a rule, and what is written to so many cells.
fn answer(
    rt: &HostRuntime,
    kinds: u32,
    wide: u32,
    table: &[u32],
    cells: usize,
) -> Result<(Finite, Vec<u32>), Fail> {
    let mut out = vec![in rt.alloc(); 7; cells]?;
    let mut work = vec![in rt.alloc(); 7; WORK]?;
    let answer = find_twins(kinds, wide, table, out.as_mut_slice(), work.as_mut_slice());
    Ok((answer, out))
}

#[test]
fn one_cell(rt: HostRuntime) -> Result<(), Fail> {
    let (both, out) = answer(&rt, 2, 2, &BOTH, 8)?;
    assert_eq!(rt; both, Finite::Twins(1, 1, 1));
    assert!(rt; out.starts_with(&[0, 0, 0, 0, 1, 0, 7, 7]));
    let (none, out) = answer(&rt, 2, 2, &[0; 4], 6)?;
    assert_eq!(rt; none, Finite::Twins(1, 1, 1));
    assert!(rt; out.starts_with(&[0, 0, 0, 0, 1, 0]));
    Ok(())
}

// A cell is turned between 1 and 0 0: behind the block 0 0 1 the middles 0 0 and 1 1 become one.
#[test]
fn two_cells(rt: HostRuntime) -> Result<(), Fail> {
    let (turned, out) = answer(&rt, 2, 4, &TURNED, ROWS)?;
    assert_eq!(rt; turned, Finite::Twins(3, 2, 3));
    assert!(rt; out.starts_with(&[0, 0, 1, 0, 0, 0, 0, 1, 0, 0, 1, 1, 1, 0, 0, 1, 7]));
    Ok(())
}

#[test]
fn full(rt: HostRuntime) -> Result<(), Fail> {
    let (turned, out) = answer(&rt, 2, 4, &TURNED, 15)?;
    assert_eq!(rt; turned, Finite::Full(16));
    assert!(rt; out.starts_with(&[7; 15]));
    let (none, _) = answer(&rt, 2, 2, &[0; 4], 0)?;
    assert_eq!(rt; none, Finite::Full(6));
    Ok(())
}

#[test]
fn none(rt: HostRuntime) -> Result<(), Fail> {
    let (sum, out) = answer(&rt, 3, 2, &SUM_OF_THREE, 4)?;
    assert_eq!(rt; sum, Finite::NoTwins);
    assert!(rt; out.starts_with(&[7; 4]));
    let (halves, _) = answer(&rt, 16, 2, &halves(), 0)?;
    assert_eq!(rt; halves, Finite::NoTwins);
    Ok(())
}

#[test]
fn refusals(rt: HostRuntime) -> Result<(), Fail> {
    let (short, _) = answer(&rt, 2, 2, &[0, 1, 1], 4)?;
    assert_eq!(rt; short, Finite::NoRule);
    assert_eq!(rt;
        find_twins(2, 2, &[0; 4], &mut [7; 6], &mut [7; 4]),
        Finite::Few
    );
    Ok(())
}
