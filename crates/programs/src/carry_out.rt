// What the programs do around the commands: they take their arguments, or lines of standard input, and tell what is wrong.
use crate::decide::decide;
use crate::run::run;
use faults::fault::Fault;
use messages::fault_line;
use reading::words::split_words;
use std::env::{Env, FillError};
use std::io::ErrorKind;
use std::process::ExitCode;
use std::{env, str};

// The longest argument that a system hands to a program.
const MOST_BYTES: usize = 131_072;

/// Carries out a command by the arguments of the program that has its name. That nobody reads what it prints is no fault.
pub fn carry_out<F: FnOnce(&HostRuntime, &[String]) -> Result<(), Fault>>(
    rt: &HostRuntime,
    name: &str,
    command: F,
) -> Result<ExitCode, Fault>
    requires { F.IsAlwaysCallable command }
{
    let carried_out = match arguments(rt) {
        Ok(words) => command(rt, words.as_slice()),
        Err(fault) => Err(fault),
    };
    match carried_out {
        Ok(()) => Ok(ExitCode::SUCCESS),
        Err(Fault::Output(e)) if e.kind() == ErrorKind::BrokenPipe => Ok(ExitCode::SUCCESS),
        Err(fault) => {
            let line = fault_line(rt.alloc(), name, &fault)?;
            eprintln!(rt; "{line}")?;
            Ok(ExitCode::FAILURE)
        }
    }
}

// The arguments behind the name of the program.
fn arguments(rt: &HostRuntime) -> Result<Vec<String>, Fault> {
    match env::args(rt) {
        Ok(words) => Ok(words.skip(1).collect(rt.alloc())?),
        Err(e) if e.kind() == ErrorKind::InvalidData => Err(no_utf8(rt)?),
        Err(_) => Err(Fault::Memory),
    }
}

// Which argument is the first that is no UTF-8.
fn no_utf8(rt: &HostRuntime) -> Result<Fault, Fault> {
    let mut bytes = vec![in rt.alloc(); 0; MOST_BYTES]?;
    for place in 1..usize::MAX {
        match rt.arg(place, bytes.as_mut_slice()) {
            Ok(n) if str::from_utf8(&bytes.as_slice()[..n]).is_err() => {
                let found = String::from_utf8_lossy(rt.alloc(), &bytes.as_slice()[..n])?;
                return Ok(Fault::NoUtf8(place, found));
            }
            Err(FillError::NotPresent) => break,
            _ => {}
        }
    }
    Ok(Fault::NoUtf8(0, String::new(rt.alloc())))
}

/// Carries out command lines from standard input, so that pictures and refusals are compared as well as rows. The command is given
/// all words of a line.
pub fn carry_out_lines<F: Fn(&HostRuntime, &[String]) -> Result<(), Fault>>(
    rt: &HostRuntime,
    begin: &str,
    command: F,
) -> Result<(), Fault>
    requires { F.IsAlwaysCallable command }
{
    for line in rt.lines(rt.alloc()) {
        let line = line?;
        // What every line begins with is put in front of it.
        let line = format!(in rt.alloc(); "{begin}{line}")?;
        println!(rt; "$ {line}")?;
        let words = split_words(rt.alloc(), line.as_str())?;
        if let Err(fault) = command(rt, words.as_slice()) {
            let name = words.first().map_or("", |word| word.as_str());
            let line = fault_line(rt.alloc(), name, &fault)?;
            println!(rt; "{line}")?;
        }
    }
    Ok(())
}

/// The first word is the command, and the others are its arguments: a `match`, since two commands need no table of functions.
pub fn decide_or_run(rt: &HostRuntime, words: &[String]) -> Result<(), Fault> {
    match words {
        [name, args @ ..] if name.as_str() == "decide" => decide(rt, args),
        [name, args @ ..] if name.as_str() == "run" => run(rt, args),
        _ => Ok(println!(rt; "no such command")?),
    }
}
