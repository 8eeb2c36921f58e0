#![tactic(auto)]

// Carries out command lines of `explore` from standard input, so that pictures, help and refusals are compared as well.
use faults::fault::Fault;
use programs::carry_out::carry_out_lines;
use programs::explore::explore;

fn main(rt: HostRuntime) -> Result<(), Fault> {
    carry_out_lines(&rt, "explore ", explore_words)
}

// The first word is the name of the program.
fn explore_words(rt: &HostRuntime, words: &[String]) -> Result<(), Fault> {
    match words {
        [_, args @ ..] => explore(rt, args),
        [] => Ok(()),
    }
}
