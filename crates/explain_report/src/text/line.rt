//! Lines as they are shown, whole and in pieces, and texts written for a terminal.
//!
//! No text written here contains a control character, so it can't control a terminal. No contract says that
//! different texts are written differently.

ghost use Rattle.std.specs.Prelude.{◌≡◌, ◌++◌, ℕ, IfOk, List, OnOk, false, string_bytes};
ghost use Rattle.explain_report.specs.Printed.{IsPrinted, WritesPrinted};
ghost use Rattle.explain_report.specs.Pieces.{AreShownOf, cut_shown};
ghost use Rattle.explain_report.specs.Secrets.{has_secret, shown_of, text_shown};

use crate::text::cut::{Cut, Part, Piece};
use crate::text::joined::shows;
use crate::text::lossy;
use crate::text::marked::{MarkedLine, plain};
use crate::text::printed::{Spelling, spelled, write_quoted, write_text};
use crate::text::secret::{between, shown_bytes};
use crate::text::shell_word::write_word;
use bstr::ByteSlice;
use git_parts::parts::parts_of;
use std::alloc::{AllocError, Global};
use std::fmt;

/// A line as it is shown.
#[derive(Drop)]
pub struct SeenLine<'a> {
    /// Its pieces.
    pub cut: Cut<'a>,
    /// The line as one text, with `redacted` in place of possible secrets, and U+FFFD for bytes that aren't UTF-8.
    pub input: String,
}

impl<'a> SeenLine<'a> {
    /// Returns a line, which is refused or has no secret except in its password, as it is shown.
    pub fn of(alloc: Global, line: MarkedLine<'a>) -> Result<SeenLine<'a>, AllocError>
        ensures input { IfOk result (λ seen. string_bytes seen.input ≡ text_shown line.entry.bytes.now) }
        ensures pieces { IfOk result (λ seen. AreShownOf line.entry.bytes.now (cut_shown seen.cut)) }
    {
        if line.has_secret() {
            return SeenLine::in_pieces(alloc, line.bytes, pieces_of(line.bytes));
        }
        SeenLine::plain(alloc, line)
    }

    /// A line without secrets as it is shown.
    fn plain(alloc: Global, line: MarkedLine<'a>) -> Result<SeenLine<'a>, AllocError>
        requires { has_secret line.bytes.now ≡ false }
        ensures input { IfOk result (λ seen. string_bytes seen.input ≡ text_shown line.entry.bytes.now) }
        ensures pieces { IfOk result (λ seen. AreShownOf line.entry.bytes.now (cut_shown seen.cut)) }
    {
        let shown = plain(line);
        let cut = pieces_showing(line.bytes, pieces_of(line.bytes), shown);
        let input = lossy(alloc, shown)?;
        Ok(SeenLine { cut, input })
    }

    /// Returns a line as it is shown, without the parts of its location.
    pub fn without_parts(alloc: Global, line: &'a [u8]) -> Result<SeenLine<'a>, AllocError>
        ensures input { IfOk result (λ seen. string_bytes seen.input ≡ text_shown line.now) }
        ensures pieces { IfOk result (λ seen. AreShownOf line.now (cut_shown seen.cut)) }
    {
        SeenLine::in_pieces(alloc, line, Cut::of_secrets(line))
    }

    /// A line as it is shown, in these pieces if they are shown as the line is.
    fn in_pieces(alloc: Global, line: &'a [u8], cut: Cut<'a>) -> Result<SeenLine<'a>, AllocError>
        ensures input { IfOk result (λ seen. string_bytes seen.input ≡ text_shown line.now) }
        ensures pieces { IfOk result (λ seen. AreShownOf line.now (cut_shown seen.cut)) }
    {
        let shown = shown_bytes(alloc, line)?;
        let cut = pieces_showing(line, cut, shown.as_slice());
        let input = lossy(alloc, shown.as_slice());
        drop(shown);
        Ok(SeenLine { cut, input: input? })
    }
}

/// These pieces of a line if they are shown as this text of the line, otherwise one hidden piece.
fn pieces_showing<'a>(line: &'a [u8], cut: Cut<'a>, shown: &[u8]) -> Cut<'a>
    requires { shown.now ≡ shown_of line.now }
    ensures { AreShownOf line.now (cut_shown result) }
{
    if shows(cut.pieces(), shown) {
        cut
    } else {
        Cut::hidden(line)
    }
}

/// Returns the pieces of a line: the parts of its location, or for a refused line its possible secrets and the text
/// between them.
pub fn pieces_of(line: &[u8]) -> Cut<'_> {
    match parts_of(line) {
        Ok(parts) => Cut::of_parts(line, &parts),
        Err(_) => Cut::of_secrets(line),
    }
}

/// The width of a character as it is written, in columns.
fn columns_of(character: char, bytes: &[u8]) -> usize {
    match spelled(character, bytes) {
        Spelling::Plain(columns) => columns,
        Spelling::Short(text) => text.len(),
        Spelling::Bytes => bytes.len().saturating_mul(4),
        Spelling::Number => match u32::from(character) {
            0..0x100 => 6,
            0x100..0x1000 => 7,
            0x1000..0x10000 => 8,
            0x10000..0x100000 => 9,
            _ => 10,
        },
    }
}

/// Formats bytes as they are shown.
#[derive(Clone, Copy)]
pub struct Shown<'a>(pub &'a [u8]);

impl fmt::Display for Shown<'_> {
    fn fmt<W: fmt::Write>(&self, f: &mut fmt::Formatter<W>) -> fmt::Result
        ensures { OnOk result (WritesPrinted W.write_str_gives f.old f.new) }
    {
        write_text(f, self.0)
    }
}

/// Formats bytes as they are shown, in quotes. Quotes inside are escaped.
#[derive(Clone, Copy, PartialEq)]
pub struct Quoted<'a>(pub &'a [u8]);

impl fmt::Display for Quoted<'_> {
    fn fmt<W: fmt::Write>(&self, f: &mut fmt::Formatter<W>) -> fmt::Result
        ensures { OnOk result (WritesPrinted W.write_str_gives f.old f.new) }
    {
        write_quoted(f, self.0)
    }
}

/// Formats bytes as a word that a POSIX shell reads as these bytes: in `'..'`, with `'\''` for a quote; or in `$'..'`,
/// which has been in POSIX since 2024, if a character is escaped.
#[derive(Clone, Copy)]
pub struct ShellWord<'a>(pub &'a [u8]);

impl fmt::Display for ShellWord<'_> {
    fn fmt<W: fmt::Write>(&self, f: &mut fmt::Formatter<W>) -> fmt::Result
        ensures { OnOk result (WritesPrinted W.write_str_gives f.old f.new) }
    {
        write_word(f, self.0)
    }
}

/// Appends a text as it is shown. An error means that memory was refused.
pub fn write_shown(out: &mut String, text: &[u8]) -> Result<(), AllocError>
    ensures { OnOk result
        ((added : List ℕ) × (string_bytes out.new ≡ string_bytes out.old ++ added) × IsPrinted added) }
{
    match write_text(out, text) {
        Ok(()) => Ok(()),
        Err(_) => Err(AllocError),
    }
}

/// Returns the width of a text as it is shown, in columns.
pub fn columns(text: &[u8]) -> usize {
    let mut sum = 0usize;
    for (from, to, character) in text.char_indices() {
        sum = sum.saturating_add(columns_of(character, between(text, from, to)));
    }
    sum
}

/// Returns the longest front of whole characters that takes at most `limit` columns.
pub fn front(text: &[u8], limit: usize) -> &[u8] {
    let mut sum = 0usize;
    for (from, to, character) in text.char_indices() {
        sum = sum.saturating_add(columns_of(character, between(text, from, to)));
        if limit < sum {
            return between(text, 0, from);
        }
    }
    text
}

/// Returns the longest end of whole characters that takes at most `limit` columns.
pub fn end(text: &[u8], limit: usize) -> &[u8] {
    let mut sum = 0usize;
    for (from, to, character) in text.char_indices().rev() {
        sum = sum.saturating_add(columns_of(character, between(text, from, to)));
        if limit < sum {
            return between(text, to, text.len());
        }
    }
    text
}

/// Splits a text at an offset in bytes. An offset inside of a character is rounded down to its start, and one past the
/// end is the end.
pub fn halves(text: &[u8], place: usize) -> (&[u8], &[u8]) {
    let mut at = 0usize;
    for (_from, to, _character) in text.char_indices() {
        if place < to {
            break;
        }
        at = to;
    }
    text.split_at(at.min(text.len()))
}

/// Whether the piece is a hidden one.
pub fn is_hidden(piece: &Piece<'_>) -> bool {
    matches!(piece.part(), Part::Password)
}
