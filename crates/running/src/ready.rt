// A run that is found to be in order.
ghost use Rattle.std.proofs.Props.{props};
ghost use Rattle.std.specs.Prelude.{◌≡◌, ◌≤◌, length, vec_len};
ghost use Rattle.rules.specs.Rules.{Piece};
ghost use Rattle.running.specs.Tables.{rule_in};

use crate::table::RingTable;

/// A table and a first row for it, and how long it is to run.
#[derive(Drop)]
pub struct ReadyRun {
    pub(crate) table: RingTable,
    pub(crate) row: Vec<u32>,
    pub(crate) steps: u64,
    pub(crate) last: bool,
    ghost some: { 1 ≤ length row.items },
    ghost few: { length row.items ≤ 262144 },
    ghost cells: { Piece (rule_in table) row.items } by { Prim.hlevel props },
}

impl ReadyRun {
    /// How many cells each row has.
    pub fn cells(&self) -> usize
        ensures { result ≡ vec_len self.now.row }
    {
        self.row.len()
    }
}
