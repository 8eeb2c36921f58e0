#![tactic(auto)]

// Rules and cells in words, as they are typed or stand on a line.
pub mod cells;
pub mod rules_in_words;
pub mod words;
