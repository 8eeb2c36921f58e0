#![tactic(auto)]

// Decides whether rules can be run backwards.
use faults::fault::Fault;
use programs::carry_out::carry_out;
use programs::decide::decide;
use std::process::ExitCode;

fn main(rt: HostRuntime) -> Result<ExitCode, Fault> {
    carry_out(&rt, "decide", decide)
}
