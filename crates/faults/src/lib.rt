#![tactic(auto)]

// What can be wrong with a command. How it is told stands in the crate `messages`, so that another wording proves little anew.
pub mod fault;
pub mod name;
pub mod no_words;
