#![tactic(auto)]

// Decides rules from standard input, a line each. The file `stdout` has the right answers, from an independent program. Of twins
// only the word is compared.
use answers::answer::answer_line;
use answers::endless::{EndlessRow, two_rows};
use answers::given::GivenRule;
use answers::workspace::Workspace;
use faults::fault::Fault;
use faults::name::Name;
use faults::no_words::BadCells;
use rules::local::LocalRule;
use std::alloc::Global;
use text::parse::NoCells;
use twins::Lengths;
use undone::Decided;
use vector_lines::{AnswersVectors, answer_vectors, have_one_next};

fn main(rt: HostRuntime) -> Result<(), NotAnswered> {
    Ok(answer_rules(&rt)?)
}

fn answer_rules(rt: &HostRuntime) -> Result<(), Fault> {
    answer_vectors(rt, &mut Decisions(Workspace::new(rt.alloc())?))
}

// Why the rules are not answered to their end, as it is told on standard error.
#[derive(Debug, Drop)]
enum NotAnswered {
    // A line that does not begin with kinds, width and table.
    FewArguments,
    Cells {
        name: Name,
        reason: NoCells,
        kinds: u32,
    },
    Fault(Fault),
}

impl From<Fault> for NotAnswered {
    fn from(fault: Fault) -> NotAnswered {
        match fault {
            Fault::NoRule(_) => NotAnswered::FewArguments,
            Fault::Cells(
                BadCells {
                    name,
                    reason,
                    kinds,
                },
            ) => NotAnswered::Cells {
                name,
                reason,
                kinds,
            },
            fault => NotAnswered::Fault(fault),
        }
    }
}

// Rules that are answered as the file has them.
#[derive(Drop)]
struct Decisions(Workspace);

impl AnswersVectors for Decisions {
    fn answer(&mut self, heap: Global, given: &GivenRule) -> Result<String, Fault> {
        match self.0.decide(given) {
            Decided::Twins(left, mid, right) => {
                let (first, second) = two_rows(Lengths { left, mid, right }, self.0.told());
                let verdict = check_twins(heap, given.rule().local, first, second)?;
                Ok(String::from_str(heap, verdict)?)
            }
            Decided::TwinsFull => Ok(String::from_str(heap, "twins")?),
            Decided::OrphanFull(n) => Ok(format!(in heap; "orphan of {n} cells")?),
            decided => Ok(answer_line(heap, given.kinds(), decided, self.0.told())?),
        }
    }
}

// Whether two rows differ and have one next row.
fn check_twins(
    heap: Global,
    rule: LocalRule,
    first: EndlessRow,
    second: EndlessRow,
) -> Result<&'static str, Fault> {
    if first.left.is_empty() || first.right.is_empty() {
        return Ok("twins, but a part is empty");
    }
    if first.mid == second.mid {
        return Ok("twins, but with the same middle");
    }
    if !have_one_next(heap, rule, first, second)? {
        return Ok("twins, but with different next rows");
    }
    Ok("twins")
}
