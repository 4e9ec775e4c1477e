//! The defects of a submodule as a whole, even if each of its entries is correct.
//!
//! A definition of one line decides each defect, over the submodule or over all submodules.

ghost use Rattle.std.specs.Prelude.{◌≡◌, IfOk, OnOk, false, map};
ghost use Rattle.std.specs.Option.{option_map_or, unwrap_or};
ghost use Rattle.git_modules.specs.SubmoduleDefects.{has_no_path, has_no_url, has_same_path};
ghost use Rattle.git_modules.specs.SubmoduleInternal.{HasPaths, NotesPath, noted_path};

use crate::submodules::Submodule;
use std::alloc::{AllocError, Global};
use std::collections::BTreeMap;

/// The defects of a submodule. [`defects_of`] has an example.
#[derive(Clone, Copy, Debug, PartialEq, Eq)]
pub struct Defects {
    /// Git uses no path for it, or an empty one.
    pub no_path: bool,
    /// Git uses no URL for it.
    pub no_url: bool,
    /// Another submodule has the same path.
    pub same_path: bool,
}

/// Returns the defects of each of the submodules of a file, in their order.
///
/// - `no_path`: Git uses no path for the submodule, or an empty one, which is the path of no folder.
/// - `no_url`: Git uses no URL for the submodule. Git 2.39.5 stops at its folder ("No url found for submodule
///   path"), unless a URL is in `.git/config`.
/// - `same_path`: another submodule has the same path, byte for byte. Git 2.39.5 then uses the one whose
///   `path` is the last in the file, in whatever order their names and URLs are (`cache_put_path` in
///   `submodule-config.c`).
///
/// A path that a later path of the same submodule replaces is ignored. Git then forgets it, also for the other
/// submodules that had it before.
///
/// The time is proportional to the number of submodules times its logarithm, and to the length of the paths.
/// Allocates as a map keyed by the paths grows, and once for the list.
///
/// # Errors
///
/// Returns `AllocError` if an allocation fails.
///
/// ```
/// /// Whether each submodule of the entries has a path of its own and a URL.
/// fn are_whole(alloc: Global, entries: &[Entry<'_>]) -> Result<bool, AllocError> {
///     let found = submodules(alloc, entries)?;
///     for it in &defects_of(alloc, found.as_slice())? {
///         if it.no_path || it.no_url || it.same_path {
///             return Ok(false); // of `submodule.a.path=a` alone
///         }
///     }
///     Ok(true)
/// }
/// ```
pub fn defects_of(alloc: Global, submodules: &[Submodule<'_>]) -> Result<Vec<Defects>, AllocError>
    ensures no_path { IfOk result (λ found. map (λ it. it.no_path) found.items
        ≡ map has_no_path submodules.now) }
    ensures no_url { IfOk result (λ found. map (λ it. it.no_url) found.items
        ≡ map has_no_url submodules.now) }
    ensures same_path { IfOk result (λ found. map (λ it. it.same_path) found.items
        ≡ map (has_same_path submodules.now) submodules.now) }
{
    let paths = paths_of(alloc, submodules)?;
    let mut found = Vec::with_capacity(alloc, submodules.len())?;
    for submodule in submodules {
        found.push(Defects {
            no_path: has_no_path(submodule),
            no_url: submodule.url.is_none(),
            same_path: is_of_several(&paths, submodule),
        })?;
    }
    Ok(found)
}

/// Whether the submodule has no path, or an empty one.
fn has_no_path(submodule: &Submodule<'_>) -> bool
    ensures { result ≡ has_no_path submodule.now }
{
    match submodule.path {
        Some(path) => path.value.is_empty(),
        None => true,
    }
}

/// The paths of the submodules, and for each whether several submodules have it.
fn paths_of<'a>(
    alloc: Global,
    submodules: &[Submodule<'a>],
) -> Result<BTreeMap<&'a [u8], bool>, AllocError>
    ensures { IfOk result (λ paths. HasPaths submodules.now paths) }
{
    let mut paths = BTreeMap::new(alloc);
    for submodule in submodules {
        if let Some(path) = submodule.path {
            note_path(&mut paths, path.value)?;
        }
    }
    Ok(paths)
}

/// Records a path, as that of several submodules if it was recorded before.
fn note_path<'a>(paths: &mut BTreeMap<&'a [u8], bool>, path: &'a [u8]) -> Result<(), AllocError>
    ensures { OnOk result (NotesPath paths.old path.now paths.new) }
{
    let is_noted = paths.contains_key(path);
    paths.insert(path, is_noted)?;
    Ok(())
}

/// Whether the path of the submodule is recorded as that of several.
fn is_of_several(paths: &BTreeMap<&[u8], bool>, submodule: &Submodule<'_>) -> bool
    ensures { result ≡ option_map_or (λ path. unwrap_or (noted_path paths.now path.value) false)
        submodule.now.path false }
{
    match submodule.path {
        Some(path) => paths.get(path.value).copied().unwrap_or(false),
        None => false,
    }
}
