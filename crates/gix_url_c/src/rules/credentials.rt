//! The export for the settings of Git's credential code in a configuration, for a URL. With 102 only the
//! numbers are reported.

ghost use Rattle.c_values.specs.Codes.{UnlessMemory};
ghost use Rattle.c_values.specs.CredentialNumbers.{ReportsCredentials};
ghost use Rattle.c_values.specs.Entries.{entries_passed};
ghost use Rattle.c_values.specs.Left.{LeavesLengths, LeavesBuffer};
ghost use Rattle.c_values.specs.Stops.{LeavesStop, no_stop};

use c_values::codes::MEMORY;
use c_values::rules::credentials::{CredentialNumbers, write_for_text};
use c_values::rules::entries::{EntryBytes, entries_of};
use c_values::rules::stops::{Stop, no_stop};
use std::alloc::Global;

/// Copies the user that helpers are asked about to the buffer, and the indices of the entries whose values are the
/// helpers to `indices`: [`git_rules::credentials::credentials_for`] for the request that
/// [`gix_url::credential::reading`] reads in the text.
///
/// Returns 0; 1 if memory is refused; 102 if the user or the indices don't fit; 104 if Git stops at an entry without a
/// value, and 105 at one without a boolean value, with the place of that entry.
#[unsafe(no_mangle)]
pub extern "C" fn gix_url_c_credentials(
    alloc: Global,
    entries: &[EntryBytes<'_>],
    text: &[u8],
    built: &mut CredentialNumbers,
    buffer: &mut [u8],
    indices: &mut [usize],
    stop: &mut Stop,
) -> u32
    ensures reported { UnlessMemory result (ReportsCredentials (entries_passed entries.now) text.now
        built.new buffer.old buffer.new indices.old indices.new stop.new result) }
    ensures buffer { LeavesBuffer result buffer.old buffer.new }
    ensures indices { LeavesBuffer result indices.old indices.new }
    ensures numbers { LeavesLengths result built.old built.new }
    ensures stop { LeavesStop result stop.new }
{
    *stop = no_stop();
    match entries_of(alloc, entries) {
        Ok(entries) => write_for_text(alloc, &entries, text, built, buffer, indices, stop),
        Err(_) => MEMORY,
    }
}
