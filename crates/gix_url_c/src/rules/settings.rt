//! The export for the entries of `http.*` whose values Git uses for a URL. With 102 only the numbers are reported.

ghost use Rattle.std.specs.Prelude.{IsUtf8};
ghost use Rattle.c_values.specs.Codes.{UnlessMemory, UnlessNone};
ghost use Rattle.c_values.specs.Entries.{entries_passed};
ghost use Rattle.c_values.specs.Left.{LeavesLengths, LeavesBuffer};
ghost use Rattle.c_values.specs.SettingNumbers.{ReportsSettings};
ghost use Rattle.c_values.specs.Stops.{LeavesStop, no_stop};

use c_values::codes::NO_LOCATION;
use c_values::rules::entries::EntryBytes;
use c_values::rules::settings::{SettingNumbers, write_passed};
use c_values::rules::stops::{Stop, no_stop};
use std::alloc::Global;

/// Copies the indices of the entries of `http.*` whose values Git uses for a URL to `indices`:
/// [`git_rules::pattern::settings::settings_for`] for the normal form of the URL, and
/// [`git_rules::pattern::settings::settings_without_place`] if it has none.
///
/// Returns 0; 1 if memory is refused; 101 if the name isn't UTF-8; 102 if the indices don't fit; 104 if Git stops at
/// an entry without a value, with the place of that entry.
#[unsafe(no_mangle)]
pub extern "C" fn gix_url_c_settings(
    alloc: Global,
    entries: &[EntryBytes<'_>],
    name: &[u8],
    text: &[u8],
    built: &mut SettingNumbers,
    indices: &mut [usize],
    stop: &mut Stop,
) -> u32
    ensures reported { UnlessNone result (¬ IsUtf8 name.now) (UnlessMemory result
        (ReportsSettings (entries_passed entries.now) name.now text.now
        built.new indices.old indices.new stop.new result)) }
    ensures indices { LeavesBuffer result indices.old indices.new }
    ensures numbers { LeavesLengths result built.old built.new }
    ensures stop { LeavesStop result stop.new }
{
    *stop = no_stop();
    let Ok(name) = str::from_utf8(name) else {
        return NO_LOCATION;
    };
    write_passed(alloc, entries, name, text, built, indices, stop)
}
