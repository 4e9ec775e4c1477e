//! Entries of a configuration in the form that C gets: their parts, and eight numbers for each.

ghost use Rattle.std.specs.Prelude.{◌≡◌, ◌++◌, [], IfOk, OnOk, map};
ghost use Rattle.std.specs.List.{flat_map};
ghost use Rattle.c_values.specs.EntryNumbers.{entry_numbers, entry_texts, file_numbers, file_texts};

use crate::output::part;
use git_modules::config_file::FileEntry;
use git_rules::config::Entry;
use std::alloc::{AllocError, Global};

/// The parts of entries, four for each, and their numbers, eight for each.
#[derive(Drop)]
pub(crate) struct Written<'a> {
    /// Section, subsection, name and value; a missing part is empty.
    pub texts: Vec<&'a [u8]>,
    /// The lengths of the four parts, the place, the line, and whether there is a subsection and a value.
    pub numbers: Vec<usize>,
}

/// The parts and numbers of the entries of a listing. Their line is 0.
pub(crate) fn written_listing<'a>(
    alloc: Global,
    entries: &[Entry<'a>],
) -> Result<Written<'a>, AllocError>
    ensures texts { IfOk result (λ w. map (λ t. t.now) w.texts.items ≡ flat_map entry_texts entries.now) }
    ensures numbers { IfOk result (λ w. w.numbers.items ≡ flat_map (entry_numbers 0) entries.now) }
{
    let mut written = nothing(alloc);
    for entry in entries {
        write_entry(&mut written, entry, 0)?;
    }
    Ok(written)
}

/// The parts and numbers of the entries of a file.
pub(crate) fn written_file<'a>(
    alloc: Global,
    entries: &[FileEntry<'a>],
) -> Result<Written<'a>, AllocError>
    ensures texts { IfOk result (λ w. map (λ t. t.now) w.texts.items ≡ flat_map file_texts entries.now) }
    ensures numbers { IfOk result (λ w. w.numbers.items ≡ flat_map file_numbers entries.now) }
{
    let mut written = nothing(alloc);
    for found in entries {
        write_entry(&mut written, &found.entry, found.line)?;
    }
    Ok(written)
}

/// No parts and no numbers.
fn nothing<'a>(alloc: Global) -> Written<'a>
    ensures texts { result.texts.items ≡ [] }
    ensures numbers { result.numbers.items ≡ [] }
{
    Written {
        texts: Vec::new(alloc),
        numbers: Vec::new(alloc),
    }
}

/// Appends the parts and the numbers of an entry.
fn write_entry<'a>(
    written: &mut Written<'a>,
    entry: &Entry<'a>,
    line: usize,
) -> Result<(), AllocError>
    ensures texts { OnOk result (map (λ t. t.now) written.new.texts.items
        ≡ map (λ t. t.now) written.old.texts.items ++ entry_texts entry.now) }
    ensures numbers { OnOk result (written.new.numbers.items ≡ written.old.numbers.items ++ entry_numbers line entry.now) }
{
    let (subsection, value) = (part(entry.subsection), part(entry.value));
    written
        .texts
        .extend_from_slice(&[entry.section, subsection, entry.name, value])?;
    written.numbers.extend_from_slice(&[
        entry.section.len(),
        subsection.len(),
        entry.name.len(),
        value.len(),
        entry.at,
        line,
        usize::from(entry.subsection.is_some()),
        usize::from(entry.value.is_some()),
    ])
}
