//! The section and the subsection of entries, and the list of entries.

ghost use Rattle.std.specs.Prelude.{IfOk};
ghost use Rattle.git_modules.specs.ConfigFileKeeping as shown;

use crate::config_file::FileEntry;
use crate::config_file::step::Step;
use git_rules::config::Entry;
use git_syntax::bytes::cut;
use std::alloc::AllocError;

/// The section and the subsection of the entries below a header.
#[derive(Clone, Copy)]
pub(super) struct Owner<'a> {
    section: &'a [u8],
    subsection: Option<&'a [u8]>,
}

/// The owner of the entries below a header, by the prefix of their keys. The prefix of entries before any header is
/// empty.
pub(super) fn owner_of(stem: &[u8]) -> Owner<'_>
    ensures { shown.Owns stem.now result }
{
    match cut(stem, b'.') {
        Some((section, subsection)) => Owner {
            section,
            subsection: Some(subsection),
        },
        None => Owner {
            section: stem,
            subsection: None,
        },
    }
}

/// Stores the step at an offset if it is a setting, and returns the owner of the next entries.
pub(super) fn keep<'a>(
    found: &mut Vec<FileEntry<'a>>,
    owner: Owner<'a>,
    step: Step<'a>,
    at: usize,
    line: usize,
) -> Result<Owner<'a>, AllocError>
    ensures { IfOk result
        (λ next. shown.Keeps step.entry owner.entry at line found.old.items found.new.items next) }
{
    match step {
        Step::Nothing => Ok(owner),
        Step::Header(stem) => Ok(owner_of(stem)),
        Step::Setting(name, value) => {
            let entry = Entry {
                section: owner.section,
                subsection: owner.subsection,
                name,
                value,
                at,
            };
            found.push(FileEntry { entry, line })?;
            Ok(owner)
        }
    }
}
