// Rules that are answered one after another, in memory that is made once.
ghost use Rattle.std.specs.Prelude.{◌≡◌, ℕ, List, MatchResult, string_bytes};
ghost use Rattle.rules.specs.Rules.{Rule, rule_of};
ghost use Rattle.text.specs.declared.print.NoText.TheVariants.{Memory as no_memory};

use crate::given::GivenRule;
use std::alloc::Global;
use text::print::NoText;

/// Memory that answers rules, each by one line of text without its end.
pub trait AnswersRules {
    // What a line says of a rule.
    ghost says: { Rule → List ℕ → Type 0 };

    /// The line that answers a rule.
    fn answer(&mut self, heap: Global, given: &GivenRule) -> Result<String, NoText>
        ensures { MatchResult result
            (λ s. says (rule_of given.now.kinds given.now.wide given.now.table.items) (string_bytes s))
            (λ e. e ≡ no_memory) };
}
