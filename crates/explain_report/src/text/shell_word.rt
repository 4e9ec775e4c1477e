//! Bytes written as a word for a POSIX shell, which reads it as these bytes.

ghost use Rattle.std.specs.Prelude.{OnOk};
ghost use Rattle.explain_report.specs.Printed.{AddsPrinted, IsPrinted};

use crate::text::printed::{Spelling, spelled, write_bytes};
use crate::text::secret::between;
use bstr::ByteSlice;
use std::fmt::{self, Write};

/// Writes a text as a word for a shell.
pub(crate) fn write_word<W: Write>(out: &mut W, text: &[u8]) -> fmt::Result
    ensures { OnOk result (AddsPrinted W.write_str_gives out.old out.new) }
{
    let is_escaped = has_escape(text);
    out.write_str(opening(is_escaped))?;
    for (from, to, character) in text.char_indices() {
        let bytes = between(text, from, to);
        write_in_word(out, character, bytes, is_escaped)?;
    }
    out.write_str("'")
}

/// The opening quote of a word, with or without escaped characters.
fn opening(is_escaped: bool) -> &'static str
    ensures { IsPrinted result.now }
{
    if is_escaped { "$'" } else { "'" }
}

/// Whether a character of the text other than `\` is written as an escape.
fn has_escape(text: &[u8]) -> bool {
    for (from, to, character) in text.char_indices() {
        let spelling = spelled(character, between(text, from, to));
        if character != '\\' && !matches!(spelling, Spelling::Plain(_)) {
            return true;
        }
    }
    false
}

/// Writes a character of a word for a shell, with or without escaped characters.
fn write_in_word<W: Write>(
    out: &mut W,
    character: char,
    bytes: &[u8],
    is_escaped: bool,
) -> fmt::Result
    ensures { OnOk result (AddsPrinted W.write_str_gives out.old out.new) }
{
    match (character, spelled(character, bytes)) {
        ('\'', _) => out.write_str(quote(is_escaped)),
        ('\\', _) if !is_escaped => out.write_str("\\"),
        (_, Spelling::Plain(_)) => out.write_char(character),
        (_, Spelling::Short(text)) => out.write_str(text),
        (_, Spelling::Bytes | Spelling::Number) => write_bytes(out, bytes),
    }
}

/// A quote in a word, with or without escaped characters.
fn quote(is_escaped: bool) -> &'static str
    ensures { IsPrinted result.now }
{
    if is_escaped { "\\'" } else { "'\\''" }
}
