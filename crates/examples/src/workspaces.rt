// Rules that are decided in a workspace, one after another.
use crate::worked::*;
use answers::given::GivenRule;
use answers::workspace::Workspace;
use rules::rule::NoRule;
use std::test::Fail;
use undone::Decided;

// A rule of two kinds that looks at two cells.
fn of_two(rt: &HostRuntime, cells: &[u32]) -> Result<Result<GivenRule, NoRule>, Fail> {
    let mut table = Vec::new(rt.alloc());
    table.extend_from_slice(cells)?;
    Ok(GivenRule::new(2, 2, table))
}

#[test]
fn in_a_workspace(rt: HostRuntime) -> Result<(), Fail> {
    let second = of_two(&rt, &SECOND)??;
    let both = of_two(&rt, &BOTH)??;
    let mut workspace = Workspace::new(rt.alloc())?;
    assert_eq!(rt; workspace.decide(&second), Decided::Undone(1, 1));
    assert!(rt; workspace.told().starts_with(&[0, 1]));
    assert_eq!(rt; workspace.decide(&both), Decided::Orphan(3));
    assert!(rt; workspace.told().starts_with(&[1, 0, 1]));
    assert!(rt; workspace.into_told().starts_with(&[1, 0, 1]));
    Ok(())
}
