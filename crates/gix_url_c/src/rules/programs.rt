//! The export for the program that Git runs for Secure Shell. With 102 only the numbers are reported.

ghost use Rattle.c_values.specs.Codes.{UnlessMemory};
ghost use Rattle.c_values.specs.Entries.{entries_passed};
ghost use Rattle.c_values.specs.Left.{LeavesLengths, LeavesBuffer};
ghost use Rattle.c_values.specs.ProgramNumbers.{ReportsProgram, settings_passed};
ghost use Rattle.c_values.specs.Stops.{LeavesStop, no_stop};

use c_values::codes::MEMORY;
use c_values::rules::entries::{EntryBytes, entries_of};
use c_values::rules::programs::{GivenVariables, ProgramNumbers, find};
use c_values::rules::stops::{Stop, no_stop};
use std::alloc::Global;

/// Copies the text of the program that Git runs for Secure Shell to the buffer:
/// [`git_rules::ssh::program::SshProgram::of`].
///
/// Returns 0; 1 if memory is refused; 102 if the text doesn't fit; 104 if Git stops at an entry without a value, with
/// the place of that entry.
#[unsafe(no_mangle)]
pub extern "C" fn gix_url_c_ssh_program(
    alloc: Global,
    entries: &[EntryBytes<'_>],
    variables: &GivenVariables<'_>,
    built: &mut ProgramNumbers,
    buffer: &mut [u8],
    stop: &mut Stop,
) -> u32
    ensures reported { UnlessMemory result
        (ReportsProgram (settings_passed (entries_passed entries.now) variables.now)
        built.new buffer.old buffer.new stop.new result) }
    ensures buffer { LeavesBuffer result buffer.old buffer.new }
    ensures numbers { LeavesLengths result built.old built.new }
    ensures stop { LeavesStop result stop.new }
{
    *stop = no_stop();
    match entries_of(alloc, entries) {
        Ok(entries) => find(&entries, variables, built, buffer, stop),
        Err(_) => MEMORY,
    }
}
