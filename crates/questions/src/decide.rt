// A rule in words, decided.
ghost use Rattle.std.specs.Prelude.{◌≡◌, map, string_bytes, MatchResult};
ghost use Rattle.answers.specs.Answers.{answer_text};
ghost use Rattle.questions.specs.Answered.{IsDecided, Unanswered};
ghost use Rattle.reading.specs.Words.{Means};
ghost use Rattle.rules.specs.Rules.{rule_of};

use answers::answer::answer_line;
use answers::given::GivenRule;
use answers::workspace::Workspace;
use faults::fault::Fault;
use reading::rules_in_words::parse_rule;
use std::alloc::Global;
use undone::Decided;

/// A rule, its decision, whose cells stand first in `told`, and the line that tells it.
#[derive(Drop)]
pub struct DecidedRule {
    pub given: GivenRule,
    pub decided: Decided,
    pub told: Vec<u32>,
    pub line: String,
}

/// Decides the rule that the words mean. The words of work are let go before it is told.
pub fn decide_words(heap: Global, words: &[String]) -> Result<DecidedRule, Fault>
    ensures { MatchResult result
        (λ d. Means (map string_bytes words.now) (rule_of d.given.kinds d.given.wide d.given.table.items)
        × IsDecided (rule_of d.given.kinds d.given.wide d.given.table.items) d.told.items d.decided
        × (string_bytes d.line ≡ answer_text d.given.kinds d.told.items d.decided))
        (Unanswered (map string_bytes words.now)) }
{
    let given = parse_rule(heap, words).map_err(Fault::NoRule)?;
    let mut workspace = Workspace::new(heap)?;
    let decided = workspace.decide(&given);
    let told = workspace.into_told();
    let Ok(line) = answer_line(heap, given.kinds(), decided, told.as_slice()) else {
        return Err(Fault::Memory);
    };
    Ok(DecidedRule {
        given,
        decided,
        told,
        line,
    })
}
