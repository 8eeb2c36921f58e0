// The next row of a piece, in memory of its own.
ghost use Rattle.std.specs.Prelude.{◌≡◌, MatchResult};
ghost use Rattle.rows.specs.declared.next.NoNext.TheVariants.{Memory as no_memory, Row as no_row};
ghost use Rattle.rows.specs.Next.{NoNextCells};
ghost use Rattle.rules.specs.Local.{the_rule};
ghost use Rattle.rules.specs.Rules.{Piece, next};

use rules::local::LocalRule;
use rules::row::{NoRow, next_row};
use std::alloc::{AllocError, Global};

/// Why a piece has no next row.
#[derive(Clone, Copy, Debug, PartialEq, Eq)]
pub enum NoNext {
    Row(NoRow),
    Memory,
}

// By hand, both: a contract names the reason, and what `thiserror` derives has no contract.
impl From<AllocError> for NoNext {
    ghost from_gives = { λ _ r. r ≡ no_memory };

    fn from(_e: AllocError) -> NoNext {
        NoNext::Memory
    }
}

impl From<NoRow> for NoNext {
    ghost from_gives = { λ e r. r ≡ no_row e };

    fn from(e: NoRow) -> NoNext {
        NoNext::Row(e)
    }
}

/// The next row of a piece: one cell for each window in it.
#[tactic(auto, using(crate::proofs::Nexts::refused_row))]
pub fn next_cells(heap: Global, rule: LocalRule, piece: &[u32]) -> Result<Vec<u32>, NoNext>
    ensures { MatchResult result
        (λ v. Piece (the_rule rule.entry) piece.now × (v.items ≡ next (the_rule rule.entry) piece.now))
        (NoNextCells (the_rule rule.entry) piece.now) }
{
    let mut next = vec![in heap; 0; piece.len()]?;
    let cells = next_row(rule, piece, next.as_mut_slice())?;
    next.truncate(cells);
    Ok(next)
}
