// Cells and words that two rows which differ at finitely many places are found in, of one rule after another.
ghost use Rattle.std.specs.Prelude.{◌≡◌, ◌≤◌, length, IfOk, vec_len};
ghost use Rattle.finite.specs.Told.{Answer, FinitePost};
ghost use Rattle.rules.specs.Rules.{rule_of};
ghost use Rattle.answers.specs.FiniteAnswers.{FiniteLine};

use crate::answer::finite_line;
use crate::answers_rules::AnswersRules;
use crate::given::GivenRule;
use finite::{Finite, ROWS, WORK};
use std::alloc::{AllocError, Global};
use text::print::NoText;

// Room for the rows of any rule, and for the work of any search.
#[derive(Drop)]
pub struct TwinsWorkspace {
    out: Vec<u32>,
    work: Vec<u32>,
    ghost room: { length out.items ≡ 1024 },
    ghost enough: { 4096 ≤ length work.items },
}

impl TwinsWorkspace {
    pub fn new(heap: Global) -> Result<TwinsWorkspace, AllocError>
        ensures { IfOk result (λ w. (vec_len w.out ≡ 1024) × (vec_len w.work ≡ 4096)) }
    {
        let out = vec![in heap; 0; ROWS]?;
        let work = vec![in heap; 0; WORK]?;
        Ok(TwinsWorkspace { out, work })
    }

    // Finds the rows of a rule, which stand first in the cells.
    pub fn find(&mut self, given: &GivenRule) -> Finite
        ensures post { FinitePost given.now.kinds given.now.wide given.now.table.items (length self.old.work.items) self.old.out.items self.new.out.items result }
        ensures answer { Answer (rule_of given.now.kinds given.now.wide given.now.table.items) self.old.out.items self.new.out.items result }
    {
        given.find_twins_in(self.out.as_mut_slice(), self.work.as_mut_slice())
    }

    // The cells, of which the first are the rows that were found last.
    pub fn told(&self) -> &[u32]
        ensures { result.now ≡ self.now.out.items }
    {
        &self.out
    }
}

impl AnswersRules for TwinsWorkspace {
    ghost says = { FiniteLine };

    fn answer(&mut self, heap: Global, given: &GivenRule) -> Result<String, NoText> {
        let finite = self.find(given);
        finite_line(heap, finite, self.told())
    }
}
