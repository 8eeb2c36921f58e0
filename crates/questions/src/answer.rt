// The line that answers a rule in words, whatever is asked of it.
ghost use Rattle.std.specs.Prelude.{map, string_bytes, MatchResult};
ghost use Rattle.questions.specs.Answered.{Line, Unanswered};

use answers::answers_rules::AnswersRules;
use faults::fault::Fault;
use reading::rules_in_words::parse_rule;
use std::alloc::Global;

/// The line that answers the rule that the words mean.
pub fn answer_words<A: AnswersRules>(
    heap: Global,
    answers: &mut A,
    words: &[String],
) -> Result<String, Fault>
    ensures { MatchResult result
        (λ s. Line A.says (map string_bytes words.now) (string_bytes s))
        (Unanswered (map string_bytes words.now)) }
{
    let given = match parse_rule(heap, words) {
        Ok(given) => given,
        Err(reason) => return Err(Fault::NoRule(reason)),
    };
    answers.answer(heap, &given).map_err(|_| Fault::Memory)
}
