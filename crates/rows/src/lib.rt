#![tactic(auto)]

// Rows of cells that own their memory: at random, in a ring, and the next row of a piece.
pub mod next;
pub mod random;
pub mod ring_row;
