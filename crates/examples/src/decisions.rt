// Worked rules, decided.
use crate::worked::*;
use std::test::Fail;
use undone::{Decided, WORK, decide};

// The answer to a rule, and what is written of it to so many cells.
fn answer(
    rt: &HostRuntime,
    kinds: u32,
    wide: u32,
    table: &[u32],
    cells: usize,
) -> Result<(Decided, Vec<u32>), Fail> {
    let mut out = vec![in rt.alloc(); 7; cells]?;
    let mut work = vec![in rt.alloc(); 7; WORK]?;
    let answer = decide(kinds, wide, table, out.as_mut_slice(), work.as_mut_slice());
    Ok((answer, out))
}

#[test]
fn undone(rt: HostRuntime) -> Result<(), Fail> {
    let (second, out) = answer(&rt, 2, 2, &SECOND, 4)?;
    assert_eq!(rt; second, Decided::Undone(1, 1));
    assert!(rt; out.starts_with(&[0, 1, 7, 7]));
    let (turned, out) = answer(&rt, 4, 2, &OWN_BACK, 16)?;
    assert_eq!(rt; turned, Decided::Undone(2, 0));
    assert!(rt; out.starts_with(&OWN_BACK));
    let (halves, out) = answer(&rt, 16, 2, &halves(), 256)?;
    assert_eq!(rt; halves, Decided::Undone(2, 1));
    assert!(rt; out.starts_with(&halves_back()));
    Ok(())
}

// Tables that do not fit are not begun: the last has two to the 32 cells.
#[test]
fn undone_full(rt: HostRuntime) -> Result<(), Fail> {
    let (turned, out) = answer(&rt, 4, 2, &OWN_BACK, 15)?;
    assert_eq!(rt; turned, Decided::UndoneFull(2, 0));
    assert!(rt; out.starts_with(&[7; 15]));
    let (long, out) = answer(&rt, 16, 2, &chain(), 8)?;
    assert_eq!(rt; long, Decided::UndoneFull(8, 0));
    assert!(rt; out.starts_with(&[7; 8]));
    Ok(())
}

#[test]
fn orphans(rt: HostRuntime) -> Result<(), Fail> {
    let (both, out) = answer(&rt, 2, 2, &BOTH, 5)?;
    assert_eq!(rt; both, Decided::Orphan(3));
    assert!(rt; out.starts_with(&[1, 0, 1, 7, 7]));
    let (none, out) = answer(&rt, 2, 2, &[0; 4], 1)?;
    assert_eq!(rt; none, Decided::Orphan(1));
    assert!(rt; out.starts_with(&[1]));
    let (long, out) = answer(&rt, 2, 4, &TURNED, 6)?;
    assert_eq!(rt; long, Decided::Orphan(6));
    assert!(rt; out.starts_with(&[1, 1, 1, 0, 0, 1]));
    let (full, out) = answer(&rt, 2, 4, &TURNED, 5)?;
    assert_eq!(rt; full, Decided::OrphanFull(6));
    assert!(rt; out.starts_with(&[7; 5]));
    Ok(())
}

#[test]
fn twins(rt: HostRuntime) -> Result<(), Fail> {
    let (sum, out) = answer(&rt, 2, 2, &SUM, 4096)?;
    assert!(rt; matches!(sum, Decided::Twins(_, _, _)));
    assert!(rt; !out.starts_with(&[7]));
    let (three, out) = answer(&rt, 3, 2, &SUM_OF_THREE, 4095)?;
    assert_eq!(rt; three, Decided::TwinsFull);
    assert!(rt; out.starts_with(&[7; 100]));
    Ok(())
}

#[test]
fn refusals(rt: HostRuntime) -> Result<(), Fail> {
    let (short, _) = answer(&rt, 2, 2, &[0, 1, 1], 4)?;
    assert_eq!(rt; short, Decided::NoRule);
    assert_eq!(rt;
        decide(2, 2, &[0; 4], &mut [7; 4], &mut [7; 4]),
        Decided::Few
    );
    Ok(())
}
