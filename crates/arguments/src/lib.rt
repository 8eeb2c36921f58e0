#![tactic(auto)]

// The arguments of the programs, read by the kit's crate clap: what they ask for, and the texts of help.
pub mod decide;
pub mod explore;
mod options;
mod parsed;
pub mod requests;
pub mod run;

/// The version that all programs tell. The script `undone` reads it here.
const VERSION: &str = "0.1.0";
