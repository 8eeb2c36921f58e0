// Cells and words that rules are decided in, one after another.
ghost use Rattle.std.specs.Prelude.{◌≡◌, ◌≤◌, length, IfOk, vec_len};
ghost use Rattle.undone.specs.Decided.{Answer, DecidedPost};
ghost use Rattle.rules.specs.Rules.{rule_of};
ghost use Rattle.answers.specs.Answers.{AnswerLine};

use crate::answer::answer_line;
use crate::answers_rules::AnswersRules;
use crate::given::GivenRule;
use rules::rule::MOST_WINDOWS;
use std::alloc::{AllocError, Global};
use text::print::NoText;
use undone::{Decided, WORK};

// Room for what is told of any rule whose way back can be run, and for the work of any decision.
#[derive(Drop)]
pub struct Workspace {
    out: Vec<u32>,
    work: Vec<u32>,
    ghost room: { length out.items ≡ 262144 },
    ghost enough: { 524288 ≤ length work.items },
}

impl Workspace {
    pub fn new(heap: Global) -> Result<Workspace, AllocError>
        ensures { IfOk result (λ d. (vec_len d.out ≡ 262144) × (vec_len d.work ≡ 524288)) }
    {
        let out = vec![in heap; 0; MOST_WINDOWS]?;
        let work = vec![in heap; 0; WORK]?;
        Ok(Workspace { out, work })
    }

    // Decides a rule; what is told stands first in the cells.
    pub fn decide(&mut self, given: &GivenRule) -> Decided
        ensures post { DecidedPost given.now.kinds given.now.wide given.now.table.items (length self.old.work.items) self.old.out.items self.new.out.items result }
        ensures answer { Answer (rule_of given.now.kinds given.now.wide given.now.table.items) self.old.out.items self.new.out.items result }
    {
        given.decide_in(self.out.as_mut_slice(), self.work.as_mut_slice())
    }

    // The cells, of which the last decision told the first.
    pub fn told(&self) -> &[u32]
        ensures { result.now ≡ self.now.out.items }
    {
        &self.out
    }

    // The same cells, for a caller that decides no more: the words of work are let go.
    pub fn into_told(self) -> Vec<u32>
        ensures { result.items ≡ self.out.items }
    {
        self.out
    }
}

impl AnswersRules for Workspace {
    ghost says = { AnswerLine };

    fn answer(&mut self, heap: Global, given: &GivenRule) -> Result<String, NoText> {
        let decided = self.decide(given);
        answer_line(heap, given.kinds(), decided, self.told())
    }
}
