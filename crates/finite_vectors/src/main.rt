#![tactic(auto)]

// Finds the shortest twins that differ at finitely many places, of rules from standard input, a line each. The file `stdout` has the
// right lengths of their middles, from an independent program.
use answers::answer::finite_line;
use answers::endless::{EndlessRow, two_rows};
use answers::given::GivenRule;
use answers::twins_workspace::TwinsWorkspace;
use faults::fault::Fault;
use finite::Finite;
use rules::local::LocalRule;
use std::alloc::Global;
use twins::Lengths;
use vector_lines::{AnswersVectors, answer_vectors, have_one_next};

fn main(rt: HostRuntime) -> Result<(), Fault> {
    answer_vectors(&rt, &mut MiddleLengths(TwinsWorkspace::new(rt.alloc())?))
}

// Rules that are answered by how long the middles of their twins are.
#[derive(Drop)]
struct MiddleLengths(TwinsWorkspace);

impl AnswersVectors for MiddleLengths {
    fn answer(&mut self, heap: Global, given: &GivenRule) -> Result<String, Fault> {
        match self.0.find(given) {
            Finite::Twins(left, mid, right) => {
                let (first, second) = two_rows(Lengths { left, mid, right }, self.0.told());
                let rule = given.rule().local;
                if are_twins(rule, first, second) && have_one_next(heap, rule, first, second)? {
                    return Ok(format!(in heap; "{mid}")?);
                }
                Ok(format!(in heap; "{mid}, but not of twins")?)
            }
            finite => Ok(finite_line(heap, finite, self.0.told())?),
        }
    }
}

// Whether two rows have the same blocks, of one cell less than a window, on both sides, and middles that differ at both ends.
fn are_twins(rule: LocalRule, first: EndlessRow, second: EndlessRow) -> bool {
    let block = rule.wide() as usize - 1;
    first.left == second.left
        && first.right == second.right
        && first.left.len() == block
        && first.right.len() == block
        && first.mid.len() == second.mid.len()
        && first.mid.first() != second.mid.first()
        && first.mid.last() != second.mid.last()
}
