//! The program `locations`: writes an answer to each line of its standard input, a Git location.
//!
//! It ignores its arguments. The status is 0 if every line is settled, 1 if one is not, and 2 for a fault,
//! which is reported on standard error.
#![tactic(auto)]

use git_location::lines;
use std::process::ExitCode;

fn main(rt: HostRuntime) -> ExitCode {
    let outcome = lines::run(rt.alloc(), &mut rt.stdin(), &mut rt.stdout());
    if let Err(fault) = &outcome {
        // If standard error fails, the status still reports the fault.
        let _ = rt.eprintln(lines::fault_line(fault));
    }
    ExitCode::from(lines::status(&outcome))
}
