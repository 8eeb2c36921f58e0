#![tactic(auto)]

// Cells as text: a digit for each cell, and back, or a picture of block characters.
pub mod parse;
pub mod print;
#[cfg(test)]
mod tests;
