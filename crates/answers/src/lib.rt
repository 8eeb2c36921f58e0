#![tactic(auto)]

// Rules that are decided, and the text of their answers.
pub mod answer;
pub mod answers_rules;
pub mod endless;
pub mod given;
pub mod twins_workspace;
pub mod workspace;
