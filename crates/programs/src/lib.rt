#![tactic(auto)]

// The programs: from their arguments to what they print and write.
pub mod carry_out;
pub mod decide;
pub mod explore;
mod files;
mod finite_twins;
mod lines;
mod progress;
mod rule_lines;
pub mod run;
mod start;
mod texts;
