//! Values: their quotes, escapes, continued lines, comments and white space.
//!
//! A value is written as it is read, including the white space at its end, which only counts if other bytes follow
//! it.

ghost use Rattle.std.specs.Prelude.{◌≡◌, ◌+◌, ◌<◌, ◌≤◌, length};
ghost use Rattle.git_modules.specs.ConfigFileBytes as spec;
ghost use Rattle.git_modules.specs.ConfigFilePieces as piece;
ghost use Rattle.git_modules.specs.ConfigFileValuePieces as shown;
ghost use Rattle.git_modules.specs.ConfigFileValues as value;

use crate::config_file::bytes::byte_at;
use crate::config_file::flaw::Flaw;
use crate::config_file::place::{Wrong, flaw_at};

/// The mode in which a byte of a value is read.
#[derive(Clone, Copy)]
pub(super) enum Mode {
    /// Outside quotes.
    Plain,
    /// Within quotes.
    Quoted,
    /// After a `\`.
    Escape,
    /// After a `\` within quotes.
    QuotedEscape,
    /// In a comment, up to the end of the line.
    Comment,
}

/// The meaning of a byte of a value, with the mode for the next byte.
#[derive(Clone, Copy)]
pub(super) enum Part {
    /// The line and the value end.
    End,
    /// The value can't be read.
    Flaw(Flaw),
    /// White space outside quotes.
    Blank,
    /// No byte of the value: a comment.
    Nothing,
    /// No byte of the value: a quote, a `\` or the end of a continued line.
    Mark(Mode),
    /// This byte of the value.
    Byte(u8, Mode),
}

/// The meaning of a byte.
pub(super) fn part_of(mode: Mode, byte: u8) -> Part
    ensures { result ≡ value.part_of mode byte }
{
    match mode {
        Mode::Plain => plain_part(byte),
        Mode::Quoted => quoted_part(byte),
        Mode::Escape => escape_part(byte, Mode::Plain),
        Mode::QuotedEscape => escape_part(byte, Mode::Quoted),
        Mode::Comment => {
            if byte == b'\n' {
                Part::End
            } else {
                Part::Nothing
            }
        }
    }
}

/// The meaning of a byte outside quotes.
fn plain_part(byte: u8) -> Part
    ensures { result ≡ value.plain_part byte }
{
    match byte {
        b'\n' => Part::End,
        b' ' | b'\t' | b'\r' => Part::Blank,
        b'#' | b';' => Part::Nothing,
        b'"' => Part::Mark(Mode::Quoted),
        b'\\' => Part::Mark(Mode::Escape),
        0 => Part::Flaw(Flaw::ZeroByte),
        _ => Part::Byte(byte, Mode::Plain),
    }
}

/// The meaning of a byte within quotes.
fn quoted_part(byte: u8) -> Part
    ensures { result ≡ value.quoted_part byte }
{
    match byte {
        b'\n' => Part::Flaw(Flaw::OpenQuote),
        b'"' => Part::Mark(Mode::Plain),
        b'\\' => Part::Mark(Mode::QuotedEscape),
        0 => Part::Flaw(Flaw::ZeroByte),
        _ => Part::Byte(byte, Mode::Quoted),
    }
}

/// The meaning of a byte after a `\`.
fn escape_part(byte: u8, mode: Mode) -> Part
    ensures { result ≡ value.escaped_part byte mode }
{
    match byte {
        b'\n' => Part::Mark(mode),
        b't' => Part::Byte(b'\t', mode),
        b'b' => Part::Byte(8, mode),
        b'n' => Part::Byte(b'\n', mode),
        b'\\' | b'"' => Part::Byte(byte, mode),
        _ => Part::Flaw(Flaw::BadEscape),
    }
}

/// The written part of a value: `end` bytes, of which all after the first `kept` are trailing white space; and the
/// mode for the next byte.
#[derive(Clone, Copy)]
struct Written {
    end: usize,
    kept: usize,
    mode: Mode,
}

/// The reason why a value ends.
#[derive(Clone, Copy)]
enum Ending {
    /// The line ends.
    Line,
    /// The value can't be read.
    Flaw(Flaw),
}

/// Writes the value that begins at an offset to the front of the buffer. Returns its length, and the offset after
/// its last line.
pub(super) fn read_value(
    text: &[u8],
    start: usize,
    buffer: &mut [u8],
) -> Result<(usize, usize), Wrong>
    requires start { start ≤ length text.now }
    requires buffer { length text.now ≤ start + length buffer.old }
    ensures value { value.value_of (spec.left_at text.now start)
        ≡ piece.read_as text.now buffer.new result }
    ensures within { piece.IsWithin text.now start 0 result }
{
    let mut at = start;
    let mut written = Written {
        end: 0,
        kept: 0,
        mode: Mode::Plain,
    };
    while let Some((byte, suffix)) = byte_at(text, at) {
        let part = part_of(written.mode, byte);
        match write_part(written, part, buffer) {
            Ok(next) => written = next,
            Err(Ending::Line) => return Ok((written.kept, suffix)),
            Err(Ending::Flaw(flaw)) => return Err(flaw_at(flaw, at)),
        }
        at = suffix;
    }
    end_value(written, at)
}

/// The result at the end of the text within a value.
fn end_value(written: Written, at: usize) -> Result<(usize, usize), Wrong>
    ensures { shown.EndsValue written at result }
{
    match written.mode {
        Mode::Plain | Mode::Escape | Mode::Comment => Ok((written.kept, at)),
        Mode::Quoted => Err(flaw_at(Flaw::OpenQuote, at)),
        Mode::QuotedEscape => Err(Wrong {
            flaw: Flaw::OpenQuote,
            at,
            is_late: true,
        }),
    }
}

/// Writes the meaning of a byte of a value.
fn write_part(written: Written, part: Part, buffer: &mut [u8]) -> Result<Written, Ending>
    requires tail { shown.HasTail buffer.old written }
    requires buffer { written.end < length buffer.old }
    ensures { shown.PutsPart part buffer.old written buffer.new result }
{
    match part {
        Part::End => Err(Ending::Line),
        Part::Flaw(flaw) => Err(Ending::Flaw(flaw)),
        Part::Nothing => Ok(Written {
            end: written.end,
            kept: written.kept,
            mode: Mode::Comment,
        }),
        Part::Blank => Ok(write_blank(written, buffer)),
        Part::Mark(mode) => Ok(Written {
            end: written.end,
            kept: written.end,
            mode,
        }),
        Part::Byte(byte, mode) => {
            buffer[written.end] = byte;
            Ok(Written {
                end: written.end + 1,
                kept: written.end + 1,
                mode,
            })
        }
    }
}

/// Writes a space, unless nothing precedes it.
fn write_blank(written: Written, buffer: &mut [u8]) -> Written
    requires tail { shown.HasTail buffer.old written }
    requires buffer { written.end < length buffer.old }
    ensures { shown.PutsBlank buffer.old written buffer.new result }
{
    if written.end == 0 {
        return written;
    }
    buffer[written.end] = b' ';
    Written {
        end: written.end + 1,
        kept: written.kept,
        mode: written.mode,
    }
}
