#![tactic(auto)]

// Rules that are run on a row of cells in a ring, from words to rows.
pub mod back;
pub mod find;
pub mod output;
pub mod prepare;
pub mod ready;
pub mod run;
pub mod source;
pub mod start;
pub mod table;
