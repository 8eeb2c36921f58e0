#![tactic(auto)]

// Questions about rules in words: from the words to the line that is printed.
pub mod answer;
pub mod decide;
pub mod finite_twins;
pub mod rule_text;
