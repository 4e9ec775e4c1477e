//! The submodules of a `.gitmodules` file, and the dangers in them.
//!
//! For each key of a submodule the last value counts that Git accepts. The submodules are in the order in which
//! their names first occur.

ghost use Rattle.std.specs.Prelude.{◌≡◌, IfOk, OnOk, map, not, option_map};
ghost use Rattle.git_modules.specs.Submodules.{has_component, is_refused_name, names_of, submodule_of, submodules_of, taken_name, use_by, value_by};
ghost use Rattle.git_modules.specs.SubmoduleView.{used_value};
ghost use Rattle.git_modules.specs.SubmoduleInternal.{HasUses, NotesName, NotesUse, is_noted, noted_use};
ghost use Rattle.git_syntax.specs.Bytes.{is_any_slash};

pub mod defect;
pub mod refusal;
pub mod risk;
mod url;

use git_rules::config::Entry;
use git_syntax::bytes::starts_with_byte;
use std::alloc::{AllocError, Global};
use std::collections::BTreeMap;
use std::marker::Model;

/// A value that Git uses, and the index of its entry. [`submodules`] has an example.
#[derive(Clone, Copy)]
pub struct Used<'a> {
    /// The value, unchanged.
    pub value: &'a [u8],
    /// The index of the entry that sets it.
    pub index: usize,
}

/// A submodule of a `.gitmodules` file. It borrows all texts. [`submodules`] has an example.
#[derive(Clone, Drop)]
pub struct Submodule<'a> {
    /// The name: the subsection of its entries, unchanged.
    pub name: &'a [u8],
    /// The folder of the submodule, or `None` if no entry sets one, or each of them looks like an option.
    pub path: Option<Used<'a>>,
    /// The URL that it is cloned from, or `None` if no entry sets one, or each of them looks like an option.
    pub url: Option<Used<'a>>,
    /// The way to update it. Git stops unless it is `checkout`, `rebase`, `merge` or `none`.
    pub update: Option<Used<'a>>,
    /// The branch to which `git submodule update --remote` updates it.
    pub branch: Option<Used<'a>>,
}

impl<'a> Model for Submodule<'a> {
    ghost use Rattle.git_modules.specs.Submodules.{GitSubmodule};

    ghost Value = { GitSubmodule };

    ghost use Rattle.git_modules.specs.SubmoduleView.{git_submodule};

    ghost view = { git_submodule };
}

/// Returns the submodules of a `.gitmodules` file, in the order in which their names first occur.
///
/// The entries are those of the file; the letter case (ASCII) of section and name is ignored. A submodule consists
/// of the entries of the section `submodule` with the same subsection, byte for byte, which is its name. The values
/// are those that Git 2.39.5 uses for the file in a working tree (`parse_config` in `submodule-config.c`, with
/// `overwrite`):
///
/// - The last value of a key is used. (For a file in an older commit Git uses the first.)
/// - Git ignores an entry whose name is empty or has a component `..` (between `/` and `\`), and a path or a URL
///   that begins with `-`. They are ignored here too.
/// - Git stops at a key without a value, and at an `update` that isn't one of its four words. Here an entry without
///   a value is ignored, and `update` is returned unchanged.
///
/// A submodule is listed even if none of its values is used.
///
/// The time is proportional to the number of entries times its logarithm, and to the length of the names. Allocates
/// as the list and five maps keyed by the names grow.
///
/// # Errors
///
/// Returns `AllocError` if an allocation fails.
///
/// ```
/// /// The URL of the submodule at this path, and the index of the entry that gives it.
/// fn url_at<'a>(
///     alloc: Global,
///     entries: &[Entry<'a>],
///     path: &[u8],
/// ) -> Result<Option<(&'a [u8], usize)>, AllocError> {
///     let mut found = None;
///     for submodule in &submodules(alloc, entries)? {
///         if let (Some(at), Some(url)) = (submodule.path, submodule.url) {
///             if at.value == path {
///                 found = Some((url.value, url.index));
///             }
///         }
///     }
///     Ok(found)
/// }
/// ```
pub fn submodules<'a>(
    alloc: Global,
    entries: &[Entry<'a>],
) -> Result<Vec<Submodule<'a>>, AllocError>
    ensures { IfOk result (λ found. found.items ≡ submodules_of entries.now) }
{
    let names = names_of(alloc, entries)?;
    let paths = uses_by(alloc, entries, "path", false)?;
    let urls = uses_by(alloc, entries, "url", false)?;
    let updates = uses_by(alloc, entries, "update", true)?;
    let branches = uses_by(alloc, entries, "branch", true)?;
    let mut found = Vec::new(alloc);
    for name in &names {
        found.push(Submodule {
            name,
            path: use_of(&paths, name),
            url: use_of(&urls, name),
            update: use_of(&updates, name),
            branch: use_of(&branches, name),
        })?;
    }
    Ok(found)
}

/// The names of the submodules, in the order in which they first occur.
fn names_of<'a>(alloc: Global, entries: &[Entry<'a>]) -> Result<Vec<&'a [u8]>, AllocError>
    ensures { IfOk result (λ found. map (λ t. t.now) found.items ≡ names_of entries.now) }
{
    let mut found = Vec::new(alloc);
    let mut seen = BTreeMap::new(alloc);
    for entry in entries {
        if let Some(name) = taken_name(entry) {
            if is_new(&mut seen, name)? {
                found.push(name)?;
            }
        }
    }
    Ok(found)
}

/// Records a name, and returns whether it is new.
fn is_new<'a>(seen: &mut BTreeMap<&'a [u8], ()>, name: &'a [u8]) -> Result<bool, AllocError>
    ensures is_new { IfOk result (λ new. new ≡ not (is_noted seen.old name.now)) }
    ensures noted { OnOk result (NotesName seen.old name.now seen.new) }
{
    if let Some(_) = seen.get(name) {
        return Ok(false);
    }
    seen.insert(name, ())?;
    Ok(true)
}

/// The value that Git uses by this key, for each submodule that has one.
fn uses_by<'a>(
    alloc: Global,
    entries: &[Entry<'a>],
    key: &str,
    options: bool,
) -> Result<BTreeMap<&'a [u8], Used<'a>>, AllocError>
    ensures { IfOk result (λ uses. HasUses key.now options entries.now uses) }
{
    let mut uses = BTreeMap::new(alloc);
    for (index, entry) in entries.iter().enumerate() {
        if let Some((name, used)) = use_by(index, entry, key, options) {
            note_use(&mut uses, name, used)?;
        }
    }
    Ok(uses)
}

/// Records a value for a name, and replaces the previous one.
fn note_use<'a>(
    uses: &mut BTreeMap<&'a [u8], Used<'a>>,
    name: &'a [u8],
    used: Used<'a>,
) -> Result<(), AllocError>
    ensures { OnOk result (NotesUse uses.old name.now (used_value used.entry) uses.new) }
{
    uses.insert(name, used)?;
    Ok(())
}

/// The recorded value for a name.
fn use_of<'a>(uses: &BTreeMap<&'a [u8], Used<'a>>, name: &[u8]) -> Option<Used<'a>>
    ensures { option_map used_value result ≡ noted_use uses.now name.now }
{
    uses.get(name).copied()
}

// ---- entries

/// The name of the submodule of an entry.
fn submodule_of<'a>(entry: &Entry<'a>) -> Option<&'a [u8]>
    ensures { option_map (λ t. t.now) result ≡ submodule_of entry.now }
{
    if entry.is_section("submodule") {
        entry.subsection
    } else {
        None
    }
}

/// The name of the submodule for which Git uses an entry.
fn taken_name<'a>(entry: &Entry<'a>) -> Option<&'a [u8]>
    ensures { option_map (λ t. t.now) result ≡ taken_name entry.now }
{
    let name = submodule_of(entry)?;
    if is_refused_name(name) {
        None
    } else {
        Some(name)
    }
}

/// The value that an entry sets for a submodule and this key.
fn value_by<'a>(entry: &Entry<'a>, key: &str) -> Option<&'a [u8]>
    ensures { option_map (λ t. t.now) result ≡ value_by key.now entry.now }
{
    if submodule_of(entry).is_some() && entry.is_name(key) {
        entry.value
    } else {
        None
    }
}

/// The name of the submodule for which Git uses an entry by this key, and the value.
fn use_by<'a>(
    index: usize,
    entry: &Entry<'a>,
    key: &str,
    options: bool,
) -> Option<(&'a [u8], Used<'a>)>
    ensures { option_map (λ given. (given.0.now, used_value given.1)) result
        ≡ use_by key.now options (index, entry.now) }
{
    let name = taken_name(entry)?;
    let value = value_by(entry, key)?;
    if !options && starts_with_byte(value, b'-') {
        None
    } else {
        Some((name, Used { value, index }))
    }
}

// ---- names

/// Whether Git refuses the name of a submodule.
fn is_refused_name(name: &[u8]) -> bool
    ensures { result ≡ is_refused_name name.now }
{
    name.is_empty() || has_component(name, b"..")
}

/// Whether one of the components of the text is this one.
fn has_component(text: &[u8], component: &[u8]) -> bool
    ensures { result ≡ has_component component.now text.now }
{
    text.split(|byte| is_separator(*byte))
        .any(|part| part == component)
}

/// Whether the byte is a `/` or a `\`.
fn is_separator(byte: u8) -> bool
    ensures { result ≡ is_any_slash byte }
{
    byte == b'/' || byte == b'\\'
}
