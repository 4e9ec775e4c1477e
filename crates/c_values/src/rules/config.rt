//! The entries of a configuration that is read: the output of `git config --list -z`, or the text of a file. With 102
//! only the sizes are reported.

ghost use Rattle.std.specs.Prelude.{◌≡◌, ◌++◌, ◌∷◌, [], ◌⊎◌, IfErr, IfOk, OnOk, map};
ghost use Rattle.c_values.specs.Codes.{UnlessMemory, memory, no_room, ok};
ghost use Rattle.c_values.specs.EntryNumbers.{IsListingOf, PutsParts, ReportsFile, ReportsListing, Unlists, file_flaw_number, flaw_stop};
ghost use Rattle.c_values.specs.Left.{LeavesLengths, LeavesBuffer};
ghost use Rattle.c_values.specs.Stops.{LeavesStop, no_stop};

use crate::buffer::write_both;
use crate::codes::MEMORY;
use crate::rules::pieces::joined;
use crate::rules::stops::{NO_CONFIGURATION, Stop, no_stop};
use crate::rules::written::{Written, written_file, written_listing};
use git_modules::config_file;
use git_modules::config_file::flaw::{FileError, Flaw};
use git_rules::config::{Entry, EntryError, Reader};
use std::alloc::{AllocError, Global};

/// The number of entries, and the length of their parts. `gix_url_c_read_listing` and `gix_url_c_read_file` report
/// them.
#[repr(C)]
#[derive(Clone, Copy)]
pub struct EntrySizes {
    /// The number of entries.
    pub entries: usize,
    /// The length of all parts together, in bytes.
    pub bytes: usize,
}

/// Why a listing isn't read.
enum Unlisted {
    /// Memory was refused.
    Memory,
    /// The text isn't a listing.
    Flawed(EntryError),
}

impl From<AllocError> for Unlisted {
    ghost use Rattle.c_values.specs.declared.rules.config.Unlisted.TheVariants.{Memory};

    ghost from_gives = { λ _ e. e ≡ Memory };

    fn from(_: AllocError) -> Unlisted {
        Unlisted::Memory
    }
}

/// Reads a listing, and copies the parts and the numbers of its entries: `gix_url_c_read_listing`.
pub fn read_listing(
    alloc: Global,
    text: &[u8],
    built: &mut EntrySizes,
    buffer: &mut [u8],
    numbers: &mut [usize],
    stop: &mut Stop,
) -> u32
    ensures reported { UnlessMemory result
        (ReportsListing text.now built.new buffer.old buffer.new numbers.old numbers.new stop.new result) }
    ensures buffer { LeavesBuffer result buffer.old buffer.new }
    ensures numbers { LeavesBuffer result numbers.old numbers.new }
    ensures sizes { LeavesLengths result built.old built.new }
    ensures stop { LeavesStop result stop.new }
{
    *stop = no_stop();
    match listed(alloc, text) {
        Ok(entries) => match written_listing(alloc, &entries) {
            Ok(written) => write_parts(alloc, &written, entries.len(), built, buffer, numbers),
            Err(_) => MEMORY,
        },
        Err(Unlisted::Memory) => MEMORY,
        Err(Unlisted::Flawed(flaw)) => {
            *stop = flaw_stop(flaw);
            NO_CONFIGURATION
        }
    }
}

/// Reads the text of a configuration file, and copies the parts and the numbers of its entries: `gix_url_c_read_file`.
pub fn read_file(
    alloc: Global,
    text: &[u8],
    built: &mut EntrySizes,
    buffer: &mut [u8],
    numbers: &mut [usize],
    stop: &mut Stop,
) -> u32
    ensures reported { UnlessMemory result
        (ReportsFile text.now built.new buffer.old buffer.new numbers.old numbers.new stop.new result) }
    ensures buffer { LeavesBuffer result buffer.old buffer.new }
    ensures numbers { LeavesBuffer result numbers.old numbers.new }
    ensures sizes { LeavesLengths result built.old built.new }
    ensures stop { LeavesStop result stop.new }
{
    *stop = no_stop();
    let Ok(mut scratch) = vec![in alloc; 0u8; text.len()] else {
        return MEMORY;
    };
    match config_file::entries(alloc, text, scratch.as_mut_slice()) {
        Ok(entries) => match written_file(alloc, &entries) {
            Ok(written) => write_parts(alloc, &written, entries.len(), built, buffer, numbers),
            Err(_) => MEMORY,
        },
        // The scratch buffer is as long as the text.
        Err(FileError::Memory | FileError::ShortBuffer) => MEMORY,
        Err(FileError::Refused { flaw, at, line }) => {
            *stop = Stop {
                at,
                line,
                flaw: file_flaw_number(flaw),
            };
            NO_CONFIGURATION
        }
    }
}

/// The entries of a listing, or why the text isn't one.
fn listed(alloc: Global, text: &[u8]) -> Result<Vec<Entry<'_>>, Unlisted>
    ensures found { IfOk result (λ found. IsListingOf text.now found.items) }
    ensures refused { IfErr result (Unlists text.now) }
{
    let mut found = Vec::new(alloc);
    for item in Reader::new(text) {
        match item {
            Ok(entry) => keep(&mut found, entry)?,
            Err(flaw) => return Err(Unlisted::Flawed(flaw)),
        }
    }
    Ok(found)
}

/// Appends an entry.
fn keep<'a>(found: &mut Vec<Entry<'a>>, entry: Entry<'a>) -> Result<(), AllocError>
    ensures { OnOk result (found.new.items ≡ found.old.items ++ entry.entry ∷ []) }
{
    found.push(entry)?;
    Ok(())
}

/// Copies and reports the parts and the numbers of so many entries.
fn write_parts(
    alloc: Global,
    written: &Written<'_>,
    entries: usize,
    built: &mut EntrySizes,
    buffer: &mut [u8],
    numbers: &mut [usize],
) -> u32
    ensures reported { UnlessMemory result
        (PutsParts entries (map (λ t. t.now) written.now.texts.items) written.now.numbers.items
        built.new buffer.old buffer.new numbers.old numbers.new result) }
    ensures buffer { LeavesBuffer result buffer.old buffer.new }
    ensures numbers { LeavesBuffer result numbers.old numbers.new }
    ensures sizes { LeavesLengths result built.old built.new }
    ensures code { (result ≡ memory) ⊎ ((result ≡ ok) ⊎ (result ≡ no_room)) }
{
    match joined(alloc, &written.texts) {
        Ok(bytes) => {
            *built = EntrySizes {
                entries,
                bytes: bytes.len(),
            };
            write_both(&bytes, &written.numbers, buffer, numbers)
        }
        Err(_) => MEMORY,
    }
}

/// The report about a place that is not an entry.
fn flaw_stop(flaw: EntryError) -> Stop
    ensures { result ≡ flaw_stop flaw }
{
    match flaw {
        EntryError::NoKey { at } => Stop {
            at,
            line: 0,
            flaw: 12,
        },
        EntryError::NoEnd { at } => Stop {
            at,
            line: 0,
            flaw: 13,
        },
    }
}

/// The number of a flaw of a file.
fn file_flaw_number(flaw: Flaw) -> u8
    ensures { result ≡ file_flaw_number flaw }
{
    match flaw {
        Flaw::PartialMark => 1,
        Flaw::NoStart => 2,
        Flaw::NoSection => 3,
        Flaw::BadSection => 4,
        Flaw::NoQuote => 5,
        Flaw::OpenSubsection => 6,
        Flaw::OpenHeader => 7,
        Flaw::NoEquals => 8,
        Flaw::BadEscape => 9,
        Flaw::OpenQuote => 10,
        Flaw::ZeroByte => 11,
    }
}
