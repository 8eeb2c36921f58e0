// A rule in words again, as it was meant.
ghost use Rattle.std.specs.Prelude.{◌≡◌, ◌++◌, codes, decimal, MatchResult, string_bytes};
ghost use Rattle.answers.specs.Answers.{spaced};
ghost use Rattle.faults.specs.Failure.{OutOfMemory};

use answers::given::GivenRule;
use faults::fault::Fault;
use std::alloc::Global;
use text::print::{Alphabet, write_cells};

/// The line `rule KINDS WIDTH TABLE`.
pub fn rule_text(heap: Global, given: &GivenRule) -> Result<String, Fault>
    ensures { MatchResult result
        (λ s. string_bytes s ≡ codes "rule " ++ (decimal given.now.kinds ++ (codes " " ++ (decimal given.now.wide ++ spaced given.now.table.items))))
        OutOfMemory }
{
    let wide = given.rule().local.wide();
    let mut line = format!(in heap; "rule {} {wide} ", given.kinds())?;
    write_cells(&mut line, Alphabet::Digits, given.table())?;
    Ok(line)
}
