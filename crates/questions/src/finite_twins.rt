// A rule in words, and two rows of it that differ at finitely many places and have one next row.
ghost use Rattle.std.specs.Prelude.{◌≡◌, map, string_bytes, MatchResult};
ghost use Rattle.answers.specs.FiniteAnswers.{finite_text};
ghost use Rattle.questions.specs.Answered.{IsFound, Unanswered};
ghost use Rattle.reading.specs.Words.{Means};
ghost use Rattle.rules.specs.Rules.{rule_of};

use answers::answer::finite_line;
use answers::given::GivenRule;
use answers::twins_workspace::TwinsWorkspace;
use faults::fault::Fault;
use finite::Finite;
use reading::rules_in_words::parse_rule;
use std::alloc::Global;

/// A rule, what was found of it, whose rows stand first in the workspace's cells, and the line that tells it.
#[derive(Drop)]
pub struct FoundTwins {
    pub given: GivenRule,
    pub finite: Finite,
    pub workspace: TwinsWorkspace,
    pub line: String,
}

/// Finds two rows of the rule that the words mean.
pub fn find_words(heap: Global, words: &[String]) -> Result<FoundTwins, Fault>
    ensures { MatchResult result
        (λ f. Means (map string_bytes words.now) (rule_of f.given.kinds f.given.wide f.given.table.items)
        × IsFound (rule_of f.given.kinds f.given.wide f.given.table.items) f.workspace.out.items f.finite
        × (string_bytes f.line ≡ finite_text f.workspace.out.items f.finite))
        (Unanswered (map string_bytes words.now)) }
{
    let given = parse_rule(heap, words).map_err(Fault::NoRule)?;
    let mut workspace = TwinsWorkspace::new(heap)?;
    let finite = workspace.find(&given);
    let Ok(line) = finite_line(heap, finite, workspace.told()) else {
        return Err(Fault::Memory);
    };
    Ok(FoundTwins {
        given,
        finite,
        workspace,
        line,
    })
}
