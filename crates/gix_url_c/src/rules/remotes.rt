//! The export for a remote of a configuration. With 102 only the numbers are reported.

ghost use Rattle.c_values.specs.Codes.{UnlessMemory};
ghost use Rattle.c_values.specs.Entries.{entries_passed};
ghost use Rattle.c_values.specs.Left.{LeavesLengths, LeavesBuffer};
ghost use Rattle.c_values.specs.RemoteNumbers.{ReportsRemote};
ghost use Rattle.c_values.specs.Stops.{LeavesStop, no_stop};

use c_values::codes::MEMORY;
use c_values::rules::entries::{EntryBytes, entries_of};
use c_values::rules::remotes::{RemoteNumbers, write_named};
use c_values::rules::stops::{Stop, no_stop};
use std::alloc::Global;

/// Copies the URLs and values of the remote with this name to the buffer, and the lengths of its URLs to `lengths`:
/// first those to fetch from, and then those to push to. See [`git_rules::remote::Remote::of`].
///
/// Returns 0; 1 if memory is refused; 102 if the texts or the lengths don't fit; 104 if Git stops at an entry without
/// a value, with the place of that entry.
#[unsafe(no_mangle)]
pub extern "C" fn gix_url_c_remote<'a>(
    alloc: Global,
    entries: &[EntryBytes<'a>],
    name: &'a [u8],
    built: &mut RemoteNumbers,
    buffer: &mut [u8],
    lengths: &mut [usize],
    stop: &mut Stop,
) -> u32
    ensures reported { UnlessMemory result (ReportsRemote (entries_passed entries.now) name.now
        built.new buffer.old buffer.new lengths.old lengths.new stop.new result) }
    ensures buffer { LeavesBuffer result buffer.old buffer.new }
    ensures lengths { LeavesBuffer result lengths.old lengths.new }
    ensures numbers { LeavesLengths result built.old built.new }
    ensures stop { LeavesStop result stop.new }
{
    *stop = no_stop();
    match entries_of(alloc, entries) {
        Ok(entries) => write_named(alloc, &entries, name, built, buffer, lengths, stop),
        Err(_) => MEMORY,
    }
}
