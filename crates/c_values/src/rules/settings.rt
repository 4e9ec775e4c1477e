//! The entries of `http.*` whose values Git uses for a URL. With 102 only the numbers are reported.

ghost use Rattle.std.specs.Prelude.{◌≡◌, ◌⊎◌, Some, None};
ghost use Rattle.c_values.specs.Codes.{UnlessMemory, no_room, ok};
ghost use Rattle.c_values.specs.Entries.{entries_passed};
ghost use Rattle.c_values.specs.Left.{LeavesLengths, LeavesBuffer};
ghost use Rattle.c_values.specs.SettingNumbers.{PutsIndices, ReportsFor, ReportsSettings, abnormal_number, longest_subsection};
ghost use Rattle.c_values.specs.Stops.{LeavesStop, no_stop};

use crate::buffer::put;
use crate::codes::MEMORY;
use crate::output::part;
use crate::rules::entries::{EntryBytes, entries_of};
use crate::rules::stops::{NO_VALUE, Stop, no_stop, stop_at};
use git_rules::config::Entry;
use git_rules::normal::{NormalError, NormalUrl, needed_buffer_len};
use git_rules::pattern::settings::{SettingsError, settings_for, settings_without_place};
use std::alloc::Global;

/// The report of `gix_url_c_settings`, apart from the indices of the settings.
#[repr(C)]
#[derive(Clone, Copy)]
pub struct SettingNumbers {
    /// Why the URL has no normal form: 1 to 6; 0 if it has one.
    pub why: u8,
    /// The number of settings.
    pub settings: usize,
}

/// Copies and reports the indices of the settings for a URL, by the entries of the caller.
pub fn write_passed(
    alloc: Global,
    entries: &[EntryBytes<'_>],
    name: &str,
    text: &[u8],
    built: &mut SettingNumbers,
    indices: &mut [usize],
    stop: &mut Stop,
) -> u32
    ensures reported { UnlessMemory result (ReportsSettings (entries_passed entries.now) name.now text.now
        built.new indices.old indices.new stop.new result) }
    ensures indices { LeavesBuffer result indices.old indices.new }
    ensures numbers { LeavesLengths result built.old built.new }
    ensures stop { LeavesStop result stop.new }
{
    *stop = no_stop();
    match entries_of(alloc, entries) {
        Ok(entries) => write_settings(alloc, &entries, name, text, built, indices, stop),
        Err(_) => MEMORY,
    }
}

/// Copies and reports the indices of the settings for a URL.
fn write_settings(
    alloc: Global,
    entries: &[Entry<'_>],
    name: &str,
    text: &[u8],
    built: &mut SettingNumbers,
    indices: &mut [usize],
    stop: &mut Stop,
) -> u32
    ensures reported { UnlessMemory result
        (ReportsSettings entries.now name.now text.now built.new indices.old indices.new stop.new result) }
    ensures indices { LeavesBuffer result indices.old indices.new }
    ensures numbers { LeavesLengths result built.old built.new }
    ensures stop { LeavesStop result stop.new }
{
    *stop = no_stop();
    let Ok(mut buffer) = vec![in alloc; 0u8; needed_buffer_len(text.len())] else {
        return MEMORY;
    };
    match NormalUrl::parse_in(text, buffer.as_mut_slice()) {
        Ok(place) => write_for_place(alloc, entries, name, &place, built, indices, stop),
        // The buffer is long enough.
        Err(NormalError::NoRoom) => MEMORY,
        Err(error) => {
            let why = abnormal_number(error);
            write_without_place(alloc, entries, name, why, built, indices, stop)
        }
    }
}

/// Copies and reports the indices of the settings for a place.
fn write_for_place(
    alloc: Global,
    entries: &[Entry<'_>],
    name: &str,
    place: &NormalUrl<'_>,
    built: &mut SettingNumbers,
    indices: &mut [usize],
    stop: &mut Stop,
) -> u32
    ensures reported { UnlessMemory result
        (ReportsFor entries.now name.now (Some place.now) 0 built.new indices.old indices.new stop.new result) }
    ensures indices { LeavesBuffer result indices.old indices.new }
    ensures numbers { LeavesLengths result built.old built.new }
    ensures stop { LeavesStop result stop.new }
{
    *stop = no_stop();
    let Ok(mut buffer) = vec![in alloc; 0u8; needed_buffer_len(longest(entries))] else {
        return MEMORY;
    };
    match settings_for(alloc, entries, name, place, buffer.as_mut_slice()) {
        Ok(found) => write_indices(&found, 0, built, indices),
        // The buffer is long enough for each entry.
        Err(SettingsError::Memory | SettingsError::NoRoom) => MEMORY,
        Err(SettingsError::NoValue { at }) => stop_at(NO_VALUE, at, stop),
    }
}

/// Copies and reports the indices of the settings for a URL that has no normal form, for this reason.
fn write_without_place(
    alloc: Global,
    entries: &[Entry<'_>],
    name: &str,
    why: u8,
    built: &mut SettingNumbers,
    indices: &mut [usize],
    stop: &mut Stop,
) -> u32
    ensures reported { UnlessMemory result
        (ReportsFor entries.now name.now None why built.new indices.old indices.new stop.new result) }
    ensures indices { LeavesBuffer result indices.old indices.new }
    ensures numbers { LeavesLengths result built.old built.new }
    ensures stop { LeavesStop result stop.new }
{
    *stop = no_stop();
    match settings_without_place(alloc, entries, name) {
        Ok(found) => write_indices(&found, why, built, indices),
        Err(SettingsError::Memory | SettingsError::NoRoom) => MEMORY,
        Err(SettingsError::NoValue { at }) => stop_at(NO_VALUE, at, stop),
    }
}

/// Copies and reports the indices.
fn write_indices(found: &[usize], why: u8, built: &mut SettingNumbers, indices: &mut [usize]) -> u32
    ensures reported { PutsIndices found.now why built.new indices.old indices.new result }
    ensures indices { LeavesBuffer result indices.old indices.new }
    ensures numbers { LeavesLengths result built.old built.new }
    ensures code { (result ≡ ok) ⊎ (result ≡ no_room) }
{
    *built = SettingNumbers {
        why,
        settings: found.len(),
    };
    put(found, indices)
}

/// The length of the longest subsection, or 0 if there is none.
fn longest(entries: &[Entry<'_>]) -> usize
    ensures { result ≡ longest_subsection entries.now }
{
    let mut longest: usize = 0;
    for entry in entries {
        longest = longest.max(part(entry.subsection).len());
    }
    longest
}

/// The number of the reason why a URL has no normal form; 0 if the buffer is too short.
fn abnormal_number(error: NormalError) -> u8
    ensures { result ≡ abnormal_number error }
{
    match error {
        NormalError::NoRoom => 0,
        NormalError::NoUrl => 1,
        NormalError::BrokenEscape => 2,
        NormalError::NoHost => 3,
        NormalError::BadHost => 4,
        NormalError::BadPort => 5,
        NormalError::AboveRoot => 6,
    }
}
