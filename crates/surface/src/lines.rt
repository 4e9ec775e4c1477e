//! The run over lines.

use gix_url::lines::{self, RunError};
use std::alloc::Global;
use std::io::{self, Read, Write};

/// The error of a run, destructured and rebuilt.
pub fn same_fault(fault: RunError) -> RunError {
    match fault {
        RunError::Memory => RunError::Memory,
        RunError::Read(error) => unread(error),
        RunError::Write(error) => unwritten(error),
    }
}

/// The error of a reader.
pub fn unread(error: io::Error) -> RunError {
    RunError::Read(error)
}

/// The error of a writer.
pub fn unwritten(error: io::Error) -> RunError {
    RunError::Write(error)
}

/// Calls `lines::run`.
pub fn run<R: Read, W: Write>(
    alloc: Global,
    input: &mut R,
    output: &mut W,
) -> Result<bool, RunError> {
    lines::run(alloc, input, output)
}

/// Calls `lines::fault_line`.
pub fn fault_line(fault: &RunError) -> &'static str {
    lines::fault_line(fault)
}

/// Calls `lines::status`.
pub fn status(outcome: &Result<bool, RunError>) -> u8 {
    lines::status(outcome)
}
