#![tactic(auto)]

// Drawings in SVG, written as they are drawn.
pub mod drawing;
pub mod runs;
#[cfg(test)]
mod tests;
