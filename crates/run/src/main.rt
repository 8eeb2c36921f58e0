#![tactic(auto)]

// Runs a rule, or a way back, on a row in a ring.
use faults::fault::Fault;
use programs::carry_out::carry_out;
use programs::run::run;
use std::process::ExitCode;

fn main(rt: HostRuntime) -> Result<ExitCode, Fault> {
    carry_out(&rt, "run", run)
}
