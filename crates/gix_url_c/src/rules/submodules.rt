//! The exports for submodules: a URL that is resolved, an entry that is checked, and the list of a file. With 102
//! only the sizes are reported.

ghost use Rattle.std.specs.Prelude.{◌≡◌};
ghost use Rattle.git_modules.specs.Submodules.{submodules_of};
ghost use Rattle.c_values.specs.Codes.{UnlessMemory, memory};
ghost use Rattle.c_values.specs.Entries.{entries_passed, entry_passed};
ghost use Rattle.c_values.specs.Left.{LeavesLengths, LeavesBuffer};
ghost use Rattle.c_values.specs.SubmoduleNumbers.{ChecksEntry, PutsSubmodules, ReportsResolution, refused_number};

use c_values::codes::{MEMORY, OK};
use c_values::rules::entries::{EntryBytes, entries_of, entry_of};
use c_values::rules::submodules::{
    CheckNumbers, ResolvedNumbers, SubmoduleSizes, refused_number, write_resolution,
    write_submodules,
};
use git_modules::submodules::refusal::check;
use git_modules::submodules::submodules;
use std::alloc::Global;

/// Copies the URL of a submodule, resolved against that of the remote, to the buffer:
/// [`git_modules::resolve::resolve`], [`git_modules::resolve::is_relative`] and
/// [`git_modules::resolve::climbs`]. If Git resolves no URL, the buffer is unchanged.
///
/// Returns 0, or 102 if the URL doesn't fit.
#[unsafe(no_mangle)]
pub extern "C" fn gix_url_c_resolve(
    parent: &[u8],
    url: &[u8],
    built: &mut ResolvedNumbers,
    buffer: &mut [u8],
) -> u32
    ensures reported { ReportsResolution parent.now url.now built.new buffer.old buffer.new result }
    ensures buffer { LeavesBuffer result buffer.old buffer.new }
    ensures no_memory { ¬ (result ≡ memory) }
{
    write_resolution(parent, url, built, buffer)
}

/// Reports the parts of an entry that `git fsck` refuses: [`git_modules::submodules::refusal::check`].
///
/// Returns 0.
#[unsafe(no_mangle)]
pub extern "C" fn gix_url_c_check(entry: &EntryBytes<'_>, built: &mut CheckNumbers) -> u32
    ensures reported { ChecksEntry (entry_passed entry.now) built.new result }
    ensures no_memory { ¬ (result ≡ memory) }
{
    let found = check(&entry_of(entry));
    *built = CheckNumbers {
        name: refused_number(found.name),
        value: refused_number(found.value),
    };
    OK
}

/// Copies the names of the submodules of a `.gitmodules` file to the buffer, and five numbers for each submodule to
/// `numbers`: the length of its name, and the indices of the entries of its path, its URL, its way to update and its
/// branch. A missing entry has the largest `usize`. See [`git_modules::submodules::submodules`].
///
/// Returns 0; 1 if memory is refused; 102 if the names or the numbers don't fit.
#[unsafe(no_mangle)]
pub extern "C" fn gix_url_c_submodules(
    alloc: Global,
    entries: &[EntryBytes<'_>],
    built: &mut SubmoduleSizes,
    buffer: &mut [u8],
    numbers: &mut [usize],
) -> u32
    ensures reported { UnlessMemory result (PutsSubmodules (submodules_of (entries_passed entries.now))
        built.new buffer.old buffer.new numbers.old numbers.new result) }
    ensures buffer { LeavesBuffer result buffer.old buffer.new }
    ensures numbers { LeavesBuffer result numbers.old numbers.new }
    ensures sizes { LeavesLengths result built.old built.new }
{
    let Ok(entries) = entries_of(alloc, entries) else {
        return MEMORY;
    };
    match submodules(alloc, &entries) {
        Ok(found) => write_submodules(alloc, &found, built, buffer, numbers),
        Err(_) => MEMORY,
    }
}
