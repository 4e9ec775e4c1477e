//! Characters and texts written for a terminal.
//!
//! `\` is doubled. A control character, a byte that isn't UTF-8, and a character that is invisible or has no width are
//! escaped as in the `Debug` output of a byte string.

ghost use Rattle.std.specs.Prelude.{◌≡◌, ◌<◌, OnOk, true};
ghost use Rattle.explain_report.specs.Printed.{AddsPrinted, IsSpelled, is_printed};

use crate::text::secret::between;
use bstr::ByteSlice;
use std::fmt::{self, Write};
use unicode_width::UnicodeWidthChar;

/// The way to write a character.
#[derive(Clone, Copy)]
pub(crate) enum Spelling {
    /// Unchanged, with this number of columns.
    Plain(usize),
    /// As this text.
    Short(&'static str),
    /// Each byte as a hexadecimal escape.
    Bytes,
    /// As an escape of the character's number.
    Number,
}

/// The way to write a character with these bytes. Bytes that aren't a character are U+FFFD.
pub(crate) fn spelled(character: char, bytes: &[u8]) -> Spelling
    ensures { IsSpelled character result }
{
    match character {
        '\0' => Spelling::Short("\\0"),
        '\t' => Spelling::Short("\\t"),
        '\n' => Spelling::Short("\\n"),
        '\r' => Spelling::Short("\\r"),
        '\\' => Spelling::Short("\\\\"),
        ' '..='~' => Spelling::Plain(1),
        '\0'..='\x7f' => Spelling::Bytes,
        '\u{fffd}' if bytes != b"\xef\xbf\xbd".as_slice() => Spelling::Bytes,
        _ => spelled_wide(character),
    }
}

/// The way to write a character beyond ASCII.
fn spelled_wide(character: char) -> Spelling
    ensures { IsSpelled character result }
{
    if character.is_control() {
        return Spelling::Number;
    }
    let is_printed = character.escape_debug().next() == Some(character);
    match character.width() {
        Some(columns) if is_printed && 0 < columns => Spelling::Plain(columns),
        _ => Spelling::Number,
    }
}

/// Writes a character.
pub(crate) fn write_character<W: Write>(out: &mut W, character: char, bytes: &[u8]) -> fmt::Result
    ensures { OnOk result (AddsPrinted W.write_str_gives out.old out.new) }
{
    match spelled(character, bytes) {
        Spelling::Plain(_) => out.write_char(character),
        Spelling::Short(text) => out.write_str(text),
        Spelling::Bytes => write_bytes(out, bytes),
        Spelling::Number => write_number(out, character),
    }
}

/// Writes each byte as a hexadecimal escape.
pub(crate) fn write_bytes<W: Write>(out: &mut W, bytes: &[u8]) -> fmt::Result
    ensures { OnOk result (AddsPrinted W.write_str_gives out.old out.new) }
{
    for byte in bytes {
        write_byte(out, *byte)?;
    }
    Ok(())
}

/// Writes a byte as a hexadecimal escape.
fn write_byte<W: Write>(out: &mut W, byte: u8) -> fmt::Result
    ensures { OnOk result (AddsPrinted W.write_str_gives out.old out.new) }
{
    out.write_str("\\x")?;
    out.write_char(digit(byte / 16))?;
    out.write_char(digit(byte % 16))
}

/// A hexadecimal digit.
fn digit(value: u8) -> char
    requires { value < 16 }
    ensures { is_printed result ≡ true }
{
    if value < 10 {
        char::from(b'0' + value)
    } else {
        char::from(b'a' + (value - 10))
    }
}

/// Writes the escape of a character's number.
fn write_number<W: Write>(out: &mut W, character: char) -> fmt::Result
    ensures { OnOk result (AddsPrinted W.write_str_gives out.old out.new) }
{
    let mut rest = character.escape_unicode();
    while let Some(it) = rest.next() {
        out.write_char(it)?;
    }
    Ok(())
}

/// Writes a text as it is shown.
pub(crate) fn write_text<W: Write>(out: &mut W, text: &[u8]) -> fmt::Result
    ensures { OnOk result (AddsPrinted W.write_str_gives out.old out.new) }
{
    for (from, to, character) in text.char_indices() {
        write_character(out, character, between(text, from, to))?;
    }
    Ok(())
}

/// Writes a text in quotes, as it is shown. Quotes inside are escaped.
pub(crate) fn write_quoted<W: Write>(out: &mut W, text: &[u8]) -> fmt::Result
    ensures { OnOk result (AddsPrinted W.write_str_gives out.old out.new) }
{
    out.write_str("\"")?;
    for (from, to, character) in text.char_indices() {
        write_in_quotes(out, character, between(text, from, to))?;
    }
    out.write_str("\"")
}

/// Writes a character of a quoted text.
fn write_in_quotes<W: Write>(out: &mut W, character: char, bytes: &[u8]) -> fmt::Result
    ensures { OnOk result (AddsPrinted W.write_str_gives out.old out.new) }
{
    match character {
        '"' => out.write_str("\\\""),
        _ => write_character(out, character, bytes),
    }
}
