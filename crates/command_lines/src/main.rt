#![tactic(auto)]

// Carries out command lines of both commands from standard input, so that pictures and refusals are compared as well.
use faults::fault::Fault;
use programs::carry_out::{carry_out_lines, decide_or_run};

fn main(rt: HostRuntime) -> Result<(), Fault> {
    carry_out_lines(&rt, "", decide_or_run)
}
