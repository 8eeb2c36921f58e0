// The start that a request asks for.
ghost use Rattle.std.specs.Prelude.{MatchResult};
ghost use Rattle.programs.specs.Source.{Gives, MayFail};

use crate::texts::read_row;
use arguments::requests::Source;
use faults::fault::Fault;
use running::source::StartSource;
use running::start::{Start, first_row};
use std::alloc::Global;

/// The start of a request. A row is read, from a file or from standard input, only when the run wants it.
#[derive(Drop)]
pub struct RequestedStart<'a> {
    pub rt: &'a HostRuntime,
    pub source: Source,
}

impl StartSource for RequestedStart<'_> {
    ghost gives = { λ s start. Gives s.source start };

    ghost fails = { λ s _. MayFail s.source };

    fn first_row(self, heap: Global, kinds: u32) -> Result<Vec<u32>, Fault> {
        let start = read_start(self.rt, self.source)?;
        first_row(heap, kinds, &start)
    }
}

fn read_start(rt: &HostRuntime, source: Source) -> Result<Start, Fault>
    ensures { MatchResult result (Gives source) (λ _. MayFail source) }
{
    match source {
        Source::Row(typed) => Ok(Start::Given(read_row(rt, typed)?)),
        Source::Random { cells, seed } => Ok(Start::Random { cells, seed }),
        Source::Single { cells } => Ok(Start::Single { cells }),
    }
}
