// The least way back of a rule, where there is one that can be run.
ghost use Rattle.std.specs.Prelude.{◌^◌, take, MatchResult};
ghost use Rattle.rules.specs.Rules.{rule_of};
ghost use Rattle.running.specs.Refused.{Refused};
ghost use Rattle.theory.specs.Says.{Least};

use answers::answer::answer_line;
use answers::given::GivenRule;
use faults::fault::Fault;
use inverse::WayBack;
use std::alloc::Global;
use undone::Decided;

/// Finds the least way back, and writes its table to the front of `out`. A rule that has none, or one with a larger table, is
/// refused with its answer.
pub fn find_way_back(heap: Global, given: &GivenRule, out: &mut [u32]) -> Result<WayBack, Fault>
    ensures { MatchResult result
        (λ w. Least (rule_of given.now.kinds given.now.wide given.now.table.items) w.width w.place (take (given.now.kinds ^ w.width) out.new))
        (Refused (rule_of given.now.kinds given.now.wide given.now.table.items) out.old out.new) }
{
    let decided = given.decide_once(heap, out)?;
    if let Decided::Undone(width, place) = decided {
        return Ok(WayBack { width, place });
    }
    let answer = answer_line(heap, given.kinds(), decided, out)?;
    match decided {
        Decided::UndoneFull(_, _) => Err(Fault::FullWayBack(answer)),
        _ => Err(Fault::NotUndone(answer)),
    }
}
