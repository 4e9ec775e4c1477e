//! A program that answers lines, with an end of its own.

ghost use Rattle.std.specs.Prelude.{◌≡◌, IfErr, IfOk, None, Some, option_map};
ghost use Rattle.gix_url.specs.Answers.{Ran, RanToEnd, fault_text, status_of};

use gix_url::lines::{RunError, fault_line, run, status};
use std::alloc::Global;
use std::io::{Read, Write};

/// Answers all lines of the input, and returns the outcome and the status of the program.
pub fn answer_all<R: Read, W: Write>(
    alloc: Global,
    input: &mut R,
    output: &mut W,
) -> (Result<bool, RunError>, u8)
    ensures answered { Ran W.contents (R.remaining input.old) output.old output.new result.0 }
    ensures read_to_end { RanToEnd (R.remaining input.new) result.0 }
    ensures status { result.1 ≡ status_of result.0 }
{
    let outcome = run(alloc, input, output);
    let status = status(&outcome);
    (outcome, status)
}

/// The message for standard error, if the outcome is a fault.
pub fn message(outcome: &Result<bool, RunError>) -> Option<&'static str>
    ensures none { IfOk outcome.now (λ good. result ≡ None) }
    ensures fault { IfErr outcome.now
        (λ fault. option_map (λ t. t.now) result ≡ Some (fault_text fault)) }
{
    match outcome {
        Ok(_) => None,
        Err(fault) => Some(fault_line(fault)),
    }
}
