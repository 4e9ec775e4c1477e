//! The entries of a configuration in C's form: numbers, and the bytes of each part.

ghost use Rattle.std.specs.Prelude.{◌≡◌, IfOk};
ghost use Rattle.c_values.specs.Entries.{entries_passed, entry_passed};

use crate::input::present;
use git_rules::config::Entry;
use std::alloc::{AllocError, Global};

/// An entry of a configuration in C's form. The bytes of a missing part are ignored. Exports over a
/// configuration take a slice of entries.
#[repr(C)]
#[derive(Clone, Copy)]
pub struct EntryBytes<'a> {
    /// The section.
    pub section: &'a [u8],
    /// The subsection.
    pub subsection: &'a [u8],
    /// The name.
    pub name: &'a [u8],
    /// The value.
    pub value: &'a [u8],
    /// The place of the entry, which a stop reports.
    pub at: usize,
    /// The line of the entry, which is ignored.
    pub line: usize,
    /// Whether there is a subsection.
    pub has_subsection: bool,
    /// Whether there is a value.
    pub has_value: bool,
}

/// The entries in the library's own form.
pub fn entries_of<'a>(
    alloc: Global,
    passed: &[EntryBytes<'a>],
) -> Result<Vec<Entry<'a>>, AllocError>
    ensures { IfOk result (λ found. found.items ≡ entries_passed passed.now) }
{
    let mut found = Vec::with_capacity(alloc, passed.len())?;
    for entry in passed {
        found.push(entry_of(entry))?;
    }
    Ok(found)
}

/// The entry in the library's own form.
pub fn entry_of<'a>(passed: &EntryBytes<'a>) -> Entry<'a>
    ensures { result ≡ entry_passed passed.now }
{
    Entry {
        section: passed.section,
        subsection: present(passed.has_subsection, passed.subsection),
        name: passed.name,
        value: present(passed.has_value, passed.value),
        at: passed.at,
    }
}
