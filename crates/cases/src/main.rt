#![tactic(auto)]

// Carries out command lines of `run` from standard input, so that refusals are compared as well as rows.
use faults::fault::Fault;
use programs::carry_out::{carry_out_lines, decide_or_run};

fn main(rt: HostRuntime) -> Result<(), Fault> {
    carry_out_lines(&rt, "run ", decide_or_run)
}
