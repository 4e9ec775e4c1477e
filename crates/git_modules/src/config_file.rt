//! The entries of a configuration file, as Git reads its text (`config.c` of Git 2.39.5).
//!
//! A text is a list of items: white space, comments, headers and settings. Each setting is an entry below the last
//! header before it.

ghost use Rattle.std.specs.Prelude.{◌≡◌, ◌+◌, ◌<◌, ◌≤◌, IfErr, IfOk, length};
ghost use Rattle.git_modules.specs.ConfigFileBytes as spec;
ghost use Rattle.git_modules.specs.ConfigFileItems as item;
ghost use Rattle.git_modules.specs.ConfigFileSteps as shown;
ghost use Rattle.git_modules.specs.ConfigFiles as file;

mod bytes;
pub mod flaw;
mod header;
mod keep;
pub mod law;
mod place;
mod step;
mod value;
mod word;

use crate::config_file::flaw::FileError;
use crate::config_file::keep::{keep, owner_of};
use crate::config_file::place::{error_at, first_place, lines_between};
use crate::config_file::step::{Step, read_step};
use git_rules::config::Entry;
use std::alloc::Global;

/// An entry of a configuration file, and the number of its line. [`entries`] has an example.
#[derive(Clone, Drop)]
pub struct FileEntry<'a> {
    /// The entry: its section and its name in lower case, its subsection and its value decoded, and the byte offset
    /// of its name in the text. An entry before any header has an empty section and no subsection.
    pub entry: Entry<'a>,
    /// The number of the line, counted from 1, in which the name begins.
    pub line: usize,
}

/// Returns the entries of the text of a configuration file or of a `.gitmodules` file, in its order: those that
/// `git config --file FILE --list -z` lists. `include.path` and `includeIf` are ordinary entries: no other file is
/// read.
///
/// The sections, subsections and values, without their quotes, escapes and comments, are written to the buffer,
/// which must be at least as long as the text. The entries borrow from the buffer, not from the text; a section is
/// written once for all of its entries. Allocates only the list of entries, as it grows. The time is linear in the
/// length of the text.
///
/// A byte 0 in a subsection or a value is an error: Git takes it for the end of the subsection or the value, so
/// that `[a "b\0c"] d` is read as a variable `b` of the section `a`. Git reads at most 2,147,483,647 bytes of a
/// file; this function reads a longer text to its end.
///
/// ```
/// /// The first line of a `.gitmodules` file that sets a URL.
/// fn first_line_of_url(
///     alloc: Global,
///     text: &[u8],
///     buffer: &mut [u8],
/// ) -> Result<Option<usize>, FileError> {
///     for found in &config_file::entries(alloc, text, buffer)? {
///         if found.entry.sets("submodule", "url") {
///             return Ok(Some(found.line));
///         }
///     }
///     Ok(None)
/// }
/// ```
///
/// # Errors
///
/// [`FileError::ShortBuffer`] if the buffer is shorter than the text. [`FileError::Refused`] if the text isn't a
/// configuration, with the offset of the first error. [`FileError::Memory`] if an allocation fails.
pub fn entries<'a>(
    alloc: Global,
    text: &[u8],
    buffer: &'a mut [u8],
) -> Result<Vec<FileEntry<'a>>, FileError>
    ensures entries { IfOk result (λ found. file.HasFileEntries text.now found.items) }
    ensures buffer { IfOk result (λ found. length text.now ≤ length buffer.old) }
    ensures errors { IfErr result (λ e. file.IsFileError text.now (length buffer.old) e) }
{
    if buffer.len() < text.len() {
        return Err(FileError::ShortBuffer);
    }
    let mut found = Vec::new(alloc);
    let mut at = read_mark(text)?;
    let mut unused_buffer = buffer;
    let mut owner = owner_of(b"");
    let before = lines_between(text, 0, at);
    let mut line = 1 + before;
    while at < text.len() {
        let (step, rest, next) = read_item(text, at, line, unused_buffer)?;
        owner = keep(&mut found, owner, step, at, line)?;
        line += lines_between(text, at, next);
        unused_buffer = rest;
        at = next;
    }
    Ok(found)
}

/// Returns the offset after the byte order mark of a text, if it has one, otherwise 0.
fn read_mark(text: &[u8]) -> Result<usize, FileError>
    ensures { file.ReadsMark text.now result }
{
    match first_place(text) {
        Ok(at) => Ok(at),
        Err(wrong) => Err(error_at(text, 0, 1, wrong)),
    }
}

/// Reads the item at an offset, in a line.
fn read_item<'a>(
    text: &[u8],
    at: usize,
    line: usize,
    unused_buffer: &'a mut [u8],
) -> Result<(Step<'a>, &'a mut [u8], usize), FileError>
    requires start { at < length text.now }
    requires line { line ≡ file.line_at text.now at }
    requires unused_buffer { length text.now ≤ at + length unused_buffer.old }
    ensures item { IfOk result (λ p. item.item_of (spec.left_at text.now at)
        ≡ Ok (shown.item_in p.0, spec.left_at text.now p.2)) }
    ensures next { IfOk result (λ p. at < p.2) }
    ensures within { IfOk result (λ p. p.2 ≤ length text.now) }
    ensures left { IfOk result (λ p. length text.now ≤ p.2 + length p.1.now) }
    ensures errors { IfErr result (λ e. file.IsErrorAt text.now (item.item_of (spec.left_at text.now at)) e) }
{
    match read_step(text, at, unused_buffer) {
        Ok(read) => Ok(read),
        Err(wrong) => Err(error_at(text, at, line, wrong)),
    }
}
