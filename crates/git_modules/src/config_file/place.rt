//! Offsets in a text: its start, the lines before an offset, and errors.

ghost use Rattle.std.specs.Prelude.{◌≡◌, ◌+◌, ◌≤◌, ◌==◌, count_by, length, false};
ghost use Rattle.git_syntax.specs.Bytes.{newline};
ghost use Rattle.git_modules.specs.ConfigFileBytes as spec;
ghost use Rattle.git_modules.specs.ConfigFileItems.{mark_end, mark_rest, start_of};
ghost use Rattle.git_modules.specs.ConfigFilePieces as piece;
ghost use Rattle.git_modules.specs.ConfigFiles.{IsErrorOf, IsInLineEnd, line_at};

use crate::config_file::bytes::{byte_at, ends_line};
use crate::config_file::flaw::{FileError, Flaw};
use git_syntax::bytes::{before, starts_with_byte};

/// The reason why reading ends at an offset.
#[derive(Clone, Copy)]
pub(super) struct Wrong {
    pub(super) flaw: Flaw,
    /// The byte offset.
    pub(super) at: usize,
    /// Whether Git names the line after the one of the offset.
    pub(super) is_late: bool,
}

/// An error at an offset, for which Git names its line.
pub(super) fn flaw_at(flaw: Flaw, at: usize) -> Wrong
    ensures { result ≡ record { flaw = flaw; at = at; is_late = false } }
{
    Wrong {
        flaw,
        at,
        is_late: false,
    }
}

/// An error at an offset. If a line ends there, Git has already counted it.
pub(super) fn flaw_after(flaw: Flaw, at: usize, text: &[u8]) -> Wrong
    ensures { result
        ≡ record { flaw = flaw; at = at; is_late = piece.ends_line (spec.left_at text.now at) } }
{
    Wrong {
        flaw,
        at,
        is_late: ends_line(text, at),
    }
}

/// The offset after the byte order mark of a text, if it has one, otherwise 0.
pub(super) fn first_place(text: &[u8]) -> Result<usize, Wrong>
    ensures { piece.IsReached text.now (start_of (spec.unix_text text.now)) result }
{
    match byte_at(text, 0) {
        Some((0xef, second)) => second_place(text, second),
        _ => Ok(0),
    }
}

/// The offset after the second and the third byte of a byte order mark.
fn second_place(text: &[u8], at: usize) -> Result<usize, Wrong>
    requires { at ≤ length text.now }
    ensures { piece.IsReached text.now (mark_rest (spec.left_at text.now at)) result }
{
    match byte_at(text, at) {
        Some((0xbb, third)) => third_place(text, third),
        _ => Err(flaw_after(Flaw::PartialMark, at, text)),
    }
}

/// The offset after the third byte of a byte order mark.
fn third_place(text: &[u8], at: usize) -> Result<usize, Wrong>
    requires { at ≤ length text.now }
    ensures { piece.IsReached text.now (mark_end (spec.left_at text.now at)) result }
{
    match byte_at(text, at) {
        Some((0xbf, suffix)) => Ok(suffix),
        _ => Err(flaw_after(Flaw::PartialMark, at, text)),
    }
}

/// The number of line feeds between two offsets.
pub(super) fn lines_between(text: &[u8], from: usize, to: usize) -> usize
    requires order { from ≤ to }
    requires within { to ≤ length text.now }
    ensures { line_at text.now from + result ≡ line_at text.now to }
{
    count_feeds(&text[from..to])
}

/// The number of line feeds in a text.
fn count_feeds(text: &[u8]) -> usize
    ensures { result ≡ count_by (λ c. c == newline) text.now }
{
    text.iter().filter(|byte| **byte == b'\n').count()
}

/// The public error, by an earlier offset and its line.
pub(super) fn error_at(text: &[u8], from: usize, line: usize, wrong: Wrong) -> FileError
    requires line { line ≡ line_at text.now from }
    requires order { from ≤ wrong.at }
    requires within { wrong.at ≤ length text.now }
    ensures { IsErrorOf text.now (piece.refusal_of text.now wrong) result }
{
    let lines = lines_between(text, from, wrong.at);
    let late = if wrong.is_late { 1 } else { 0 };
    FileError::Refused {
        flaw: wrong.flaw,
        at: front_of_line_end(text, wrong.at),
        line: line + lines + late,
    }
}

/// The offset, or that of the carriage return before it if a line end is around the offset. Git reads both bytes of a
/// line end as one.
fn front_of_line_end(text: &[u8], at: usize) -> usize
    requires { at ≤ length text.now }
    ensures within { result ≤ at }
    ensures left { spec.left_at text.now result ≡ spec.left_at text.now at }
    ensures line { line_at text.now result ≡ line_at text.now at }
    ensures front { ¬ IsInLineEnd text.now result }
{
    let (front, rest) = text.split_at(at);
    if !starts_with_byte(rest, b'\n') {
        return at;
    }
    match before(front, b'\r') {
        Some(kept) => kept.len(),
        None => at,
    }
}
