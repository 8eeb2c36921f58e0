#![tactic(auto)]

// Decides rules from standard input and prints each before its answer, so that what is printed of bad lines is compared as well.
use faults::fault::Fault;
use programs::carry_out::carry_out;
use programs::decide::decide;
use std::process::ExitCode;

fn main(rt: HostRuntime) -> Result<ExitCode, Fault> {
    carry_out(&rt, "decide", decide)
}
