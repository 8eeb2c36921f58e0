#![tactic(auto)]

// The pair graph of a rule: how many edges lie behind each pair of blocks, and how many before it.
//
// A pair is two blocks, p and p', as the number p * blocks + p'. An edge is two windows of which one cell comes: it leads from
// the pair that they begin with to the pair that they end with. So two pieces of one next row are a walk.
pub mod depths;
pub mod graph;
