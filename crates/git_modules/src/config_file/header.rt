//! Headers: `[section]`, `[section "subsection"]` and the old form `[section.subsection]`.
//!
//! The prefix of the keys below a header is written to a buffer as it is read.

ghost use Rattle.std.specs.Prelude.{◌≡◌, ◌+◌, ◌<◌, ◌≤◌, ◌==◌, ◌&&◌, length, take, false, not};
ghost use Rattle.git_syntax.specs.Bytes.{backslash, newline};
ghost use Rattle.git_modules.specs.ConfigFileBytes as spec;
ghost use Rattle.git_modules.specs.ConfigFileFlaws.{prefixed};
ghost use Rattle.git_modules.specs.ConfigFileHeaders as header;
ghost use Rattle.git_modules.specs.ConfigFilePieces as piece;
ghost use Rattle.git_rules.specs.CommandLines.{double_quote};

use crate::config_file::bytes::byte_at;
use crate::config_file::flaw::Flaw;
use crate::config_file::place::{Wrong, flaw_after, flaw_at};
use crate::config_file::word::{Class, past_word, read_word};

/// Writes the prefix of the keys below a header to the front of the buffer; returns its length, and the offset
/// after the header. Reading starts after the header's `[`.
pub(super) fn read_header(
    text: &[u8],
    start: usize,
    buffer: &mut [u8],
) -> Result<(usize, usize), Wrong>
    requires start { start ≤ length text.now }
    requires buffer { length text.now ≤ start + length buffer.old }
    ensures stem { header.header_of (spec.left_at text.now start)
        ≡ piece.read_as text.now buffer.new result }
    ensures within { piece.IsWithin text.now start 0 result }
{
    let (len, at) = read_word(text, start, Class::Section, buffer);
    read_after(text, at, len, buffer)
}

/// Reads the rest of a header after its section, which is in the front of the buffer.
fn read_after(
    text: &[u8],
    start: usize,
    len: usize,
    buffer: &mut [u8],
) -> Result<(usize, usize), Wrong>
    requires start { start ≤ length text.now }
    requires buffer { len + length text.now ≤ start + length buffer.old }
    ensures stem { header.after_section (take len buffer.old) (spec.left_at text.now start)
        ≡ piece.read_as text.now buffer.new result }
    ensures within { piece.IsWithin text.now start len result }
{
    match byte_at(text, start) {
        None => Err(flaw_after(Flaw::BadSection, start, text)),
        Some((b']', suffix)) => {
            if len == 0 {
                return Err(flaw_at(Flaw::NoSection, start));
            }
            Ok((len, suffix))
        }
        Some((b'\n', _)) => Err(flaw_at(Flaw::NoQuote, start)),
        Some((b' ' | b'\t' | b'\r', suffix)) => read_subsection(text, suffix, len, buffer),
        Some(_) => Err(flaw_at(Flaw::BadSection, start)),
    }
}

/// Writes a dot and a subsection after the section, which is in the front of the buffer.
fn read_subsection(
    text: &[u8],
    start: usize,
    len: usize,
    buffer: &mut [u8],
) -> Result<(usize, usize), Wrong>
    requires start { start ≤ length text.now }
    requires buffer { len + length text.now ≤ start + length buffer.old }
    ensures stem { header.subsection_of (take len buffer.old)
        (spec.past_word spec.is_blank (spec.left_at text.now start))
        ≡ piece.read_as text.now buffer.new result }
    ensures within { piece.IsWithin text.now start len result }
{
    let at = past_word(text, start, Class::AfterSection);
    match byte_at(text, at) {
        Some((b'"', suffix)) => {
            buffer[len] = b'.';
            let (len, at) = read_quoted(text, suffix, len + 1, buffer)?;
            read_end(text, at, len)
        }
        _ => Err(flaw_at(Flaw::NoQuote, at)),
    }
}

/// Reads the `]` after a subsection.
fn read_end(text: &[u8], start: usize, len: usize) -> Result<(usize, usize), Wrong>
    requires { start ≤ length text.now }
    ensures { piece.ReadsEnd text.now start len result }
{
    match byte_at(text, start) {
        Some((b']', suffix)) => Ok((len, suffix)),
        _ => Err(flaw_after(Flaw::OpenHeader, start, text)),
    }
}

/// Writes the bytes up to the closing quote after the front of the buffer.
fn read_quoted(
    text: &[u8],
    start: usize,
    front: usize,
    buffer: &mut [u8],
) -> Result<(usize, usize), Wrong>
    requires start { start ≤ length text.now }
    requires buffer { front + length text.now ≤ start + length buffer.old }
    ensures subsection { prefixed (take front buffer.old)
        (header.quoted_text false (spec.left_at text.now start))
        ≡ piece.read_as text.now buffer.new result }
    ensures within { piece.IsWithin text.now start front result }
{
    let mut at = start;
    let mut len = front;
    let mut is_escaped = false;
    while let Some((byte, suffix)) = byte_at(text, at) {
        if byte == b'\n' {
            return Err(flaw_at(Flaw::OpenSubsection, at));
        }
        if byte == 0 {
            return Err(flaw_at(Flaw::ZeroByte, at));
        }
        if is_last_quote(byte, is_escaped) {
            return Ok((len, suffix));
        }
        (len, is_escaped) = write_quoted(byte, is_escaped, len, buffer);
        at = suffix;
    }
    Err(flaw_at(Flaw::OpenSubsection, at))
}

/// Whether a byte is the closing quote of a subsection.
fn is_last_quote(byte: u8, is_escaped: bool) -> bool
    ensures { result ≡ (not is_escaped && (byte == double_quote)) }
{
    !is_escaped && byte == b'"'
}

/// Writes a byte of a subsection, unless it begins an escape. Returns the number of bytes written, and whether an
/// escape begins.
fn write_quoted(byte: u8, is_escaped: bool, len: usize, buffer: &mut [u8]) -> (usize, bool)
    requires { len < length buffer.old }
    ensures bytes { piece.PutsQuoted byte is_escaped len buffer.old buffer.new result }
    ensures least { len ≤ result.0 }
    ensures most { result.0 ≤ len + 1 }
{
    if !is_escaped && byte == b'\\' {
        return (len, true);
    }
    buffer[len] = byte;
    (len + 1, false)
}
