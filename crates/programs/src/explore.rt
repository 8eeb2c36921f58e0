// The program `explore`: commands that ask more of a rule than whether it can be run backwards.
use crate::finite_twins::find_finite;
use arguments::explore::parse_explore;
use arguments::requests::Asked;
use faults::fault::Fault;

/// Carries out the arguments. Nothing is printed before all of them are found to be in order.
pub fn explore(rt: &HostRuntime, args: &[String]) -> Result<(), Fault> {
    match parse_explore(rt.alloc(), args)? {
        Asked::Text(text) => Ok(rt.print(text)?),
        Asked::For(request) => find_finite(rt, request),
    }
}
