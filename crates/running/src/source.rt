// Where the start of a run comes from.
ghost use Rattle.std.specs.Prelude.{◌≡◌, ◌≤◌, MatchResult};
ghost use Rattle.faults.specs.declared.fault.Fault.{Fault};
ghost use Rattle.running.specs.Starts.{FirstRowFrom, NoFirstRowFrom};
ghost use Rattle.running.specs.declared.start.Start.{Start};

use crate::start::{Start, first_row};
use faults::fault::Fault;
use std::alloc::Global;

/// Where the start of a run comes from, such as a stream. It wants the number of kinds, so that it is asked only where a rule is
/// found to run.
pub trait StartSource {
    // The starts that it can give.
    ghost gives: { Self → Start → Type 0 };

    // Why it gives none.
    ghost fails: { Self → Fault → Type 0 };

    /// The row of a start that it gives.
    fn first_row(self, heap: Global, kinds: u32) -> Result<Vec<u32>, Fault>
        requires { 2 ≤ kinds }
        ensures { MatchResult result
            (λ v. FirstRowFrom (gives self) kinds v.items)
            (NoFirstRowFrom (gives self) (fails self) kinds) };
}

/// A start that is known.
impl StartSource for &Start {
    ghost gives = { λ known start. start ≡ known.now };

    ghost fails = { λ _ _. ⊥ };

    fn first_row(self, heap: Global, kinds: u32) -> Result<Vec<u32>, Fault> {
        first_row(heap, kinds, self)
    }
}
