#![tactic(auto)]

// Answers questions about rules, each a command of its own.
use faults::fault::Fault;
use programs::carry_out::carry_out;
use programs::explore::explore;
use std::process::ExitCode;

fn main(rt: HostRuntime) -> Result<ExitCode, Fault> {
    carry_out(&rt, "undone", explore)
}
