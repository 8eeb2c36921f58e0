#![tactic(auto)]

// Rules, by their tables, and the next rows of pieces.
pub mod cells;
pub mod local;
pub mod row;
pub mod rule;
pub mod sound;
