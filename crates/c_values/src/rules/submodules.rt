//! A URL of a submodule that is resolved, an entry that is checked, and the list of a file. With 102 only the sizes are
//! reported.

ghost use Rattle.std.specs.Prelude.{◌≡◌, ◌≤◌, ◌++◌, ◌⊎◌, IfOk, drop, length, option_map};
ghost use Rattle.std.specs.List.{flat_map};
ghost use Rattle.git_modules.specs.Resolve.{resolved_text};
ghost use Rattle.git_modules.specs.SubmoduleView.{used_value};
ghost use Rattle.c_values.specs.Codes.{UnlessMemory, memory, no_room, ok};
ghost use Rattle.c_values.specs.Output.{Puts};
ghost use Rattle.c_values.specs.Left.{LeavesLengths, LeavesBuffer};
ghost use Rattle.c_values.specs.SubmoduleNumbers.{PutsSubmodules, ReportsResolution, index_or, submodule_names, submodule_numbers, refused_number, unresolved_number};

use crate::buffer::{write_at, write_both};
use crate::codes::{MEMORY, NO_ROOM, OK};
use git_modules::resolve::outcome::Resolved;
use git_modules::resolve::{ResolveError, climbs, is_relative, resolve};
use git_modules::submodules::refusal::Refused;
use git_modules::submodules::{Submodule, Used, submodules};
use std::alloc::{AllocError, Global};

/// The report of `gix_url_c_resolve` about a resolved URL, apart from its text.
#[repr(C)]
#[derive(Clone, Copy)]
pub struct ResolvedNumbers {
    /// Why Git resolves no URL: 1 the URL of the remote is empty, 2 nothing is left of it; 0 if it resolves one.
    pub why: u8,
    /// Whether the URL begins with `./` or `../`.
    pub is_relative: bool,
    /// Whether the URL leaves the path of the URL of the remote.
    pub climbs: bool,
    /// The length of the resolved URL.
    pub len: usize,
}

/// The parts of an entry of `.gitmodules` that `git fsck` refuses. `gix_url_c_check` reports them.
#[repr(C)]
#[derive(Clone, Copy)]
pub struct CheckNumbers {
    /// 1 if it refuses the name; otherwise 0.
    pub name: u8,
    /// The value that it refuses: 2 the URL, 3 the path, 4 the way to update; otherwise 0.
    pub value: u8,
}

/// The number of submodules, and the length of their names. `gix_url_c_submodules` reports them.
#[repr(C)]
#[derive(Clone, Copy)]
pub struct SubmoduleSizes {
    /// The number of submodules.
    pub submodules: usize,
    /// The length of all names together, in bytes.
    pub bytes: usize,
}

/// Copies the URL of a submodule, resolved against that of the remote, to the buffer: `gix_url_c_resolve`.
pub fn write_resolution(
    parent: &[u8],
    url: &[u8],
    built: &mut ResolvedNumbers,
    buffer: &mut [u8],
) -> u32
    ensures reported { ReportsResolution parent.now url.now built.new buffer.old buffer.new result }
    ensures buffer { LeavesBuffer result buffer.old buffer.new }
    ensures no_memory { ¬ (result ≡ memory) }
{
    let (is_relative, climbs) = (is_relative(url), climbs(parent, url));
    match resolve(parent, url) {
        Ok(resolved) => {
            *built = ResolvedNumbers {
                why: 0,
                is_relative,
                climbs,
                len: usize::try_from(size_of(&resolved)).unwrap_or(usize::MAX),
            };
            write_resolved(&resolved, buffer)
        }
        Err(error) => {
            *built = ResolvedNumbers {
                why: unresolved_number(error),
                is_relative,
                climbs,
                len: 0,
            };
            OK
        }
    }
}

/// The length of the resolved URL.
fn size_of(resolved: &Resolved<'_>) -> u128
    ensures { result ≡ length (resolved_text resolved.now) }
{
    resolved.front.len() as u128 + (resolved.separator.len() as u128 + resolved.rest.len() as u128)
}

/// Copies the resolved URL to the buffer, if it fits.
fn write_resolved(resolved: &Resolved<'_>, buffer: &mut [u8]) -> u32
    ensures put { Puts (resolved_text resolved.now) buffer.old buffer.new result }
    ensures buffer { LeavesBuffer result buffer.old buffer.new }
    ensures code { (result ≡ ok) ⊎ (result ≡ no_room) }
{
    if (buffer.len() as u128) < size_of(resolved) {
        return NO_ROOM;
    }
    write_parts(resolved, buffer);
    OK
}

/// Copies the resolved URL to the front of the buffer, which is long enough.
fn write_parts(resolved: &Resolved<'_>, buffer: &mut [u8])
    requires { length (resolved_text resolved.now) ≤ length buffer.old }
    ensures { let text = resolved_text resolved.now in buffer.new ≡ text ++ drop (length text) buffer.old }
{
    let at = write_at(buffer, 0, resolved.front);
    let at = write_at(buffer, at, resolved.separator);
    let _ = write_at(buffer, at, resolved.rest);
}

/// The number of the reason why Git resolves no URL.
fn unresolved_number(error: ResolveError) -> u8
    ensures { result ≡ unresolved_number error }
{
    match error {
        ResolveError::EmptyParent => 1,
        ResolveError::NothingLeft => 2,
    }
}

/// The number of the refused part, or 0.
pub fn refused_number(found: Option<Refused>) -> u8
    ensures { result ≡ refused_number found }
{
    match found {
        None => 0,
        Some(Refused::Name) => 1,
        Some(Refused::Url) => 2,
        Some(Refused::Path) => 3,
        Some(Refused::Update) => 4,
    }
}

/// Copies and reports the names and numbers of submodules.
pub fn write_submodules(
    alloc: Global,
    found: &[Submodule<'_>],
    built: &mut SubmoduleSizes,
    buffer: &mut [u8],
    numbers: &mut [usize],
) -> u32
    ensures reported { UnlessMemory result
        (PutsSubmodules found.now built.new buffer.old buffer.new numbers.old numbers.new result) }
    ensures buffer { LeavesBuffer result buffer.old buffer.new }
    ensures numbers { LeavesBuffer result numbers.old numbers.new }
    ensures sizes { LeavesLengths result built.old built.new }
{
    let Ok(bytes) = names_of(alloc, found) else {
        return MEMORY;
    };
    let Ok(measured) = numbers_of(alloc, found) else {
        return MEMORY;
    };
    *built = SubmoduleSizes {
        submodules: found.len(),
        bytes: bytes.len(),
    };
    write_both(&bytes, &measured, buffer, numbers)
}

/// The bytes of the names.
fn names_of(alloc: Global, found: &[Submodule<'_>]) -> Result<Vec<u8>, AllocError>
    ensures { IfOk result (λ bytes. bytes.items ≡ submodule_names found.now) }
{
    let mut bytes = Vec::new(alloc);
    for submodule in found {
        bytes.extend_from_slice(submodule.name)?;
    }
    Ok(bytes)
}

/// The numbers of the submodules.
fn numbers_of(alloc: Global, found: &[Submodule<'_>]) -> Result<Vec<usize>, AllocError>
    ensures { IfOk result (λ numbers. numbers.items ≡ flat_map submodule_numbers found.now) }
{
    let mut numbers = Vec::new(alloc);
    for submodule in found {
        numbers.extend_from_slice(&numbers_of_one(submodule))?;
    }
    Ok(numbers)
}

/// The numbers of a submodule.
fn numbers_of_one(submodule: &Submodule<'_>) -> [usize; 5]
    ensures { result ≡ submodule_numbers submodule.now }
{
    [
        submodule.name.len(),
        index_or(submodule.path),
        index_or(submodule.url),
        index_or(submodule.update),
        index_or(submodule.branch),
    ]
}

/// The index of the entry with a value, or the largest `usize`.
fn index_or(used: Option<Used<'_>>) -> usize
    ensures { result ≡ index_or (option_map used_value used.entry) }
{
    match used {
        Some(used) => used.index,
        None => usize::MAX,
    }
}
