//! The sink that writes a text to a formatter.
//!
//! The output is the text as UTF-8, with U+FFFD in place of invalid bytes, whatever options the formatter has.
//! A text of common length is written in one call, so that a formatter over a growing buffer allocates once.

ghost use Rattle.std.specs.Prelude.{◌≡◌, ◌≤◌, length};
ghost use Rattle.std.specs.Fmt.{WritesOnOk, WritesStyledOnOk};
ghost use Rattle.git_syntax.specs.Bytes.{lossy_text};
ghost use Rattle.git_location.specs.Internal.Pieces.{pieces_text};
ghost use Rattle.git_location.specs.Internal.Sinks.{ShowsEnd, ShowsText, shows_joined, shows_nothing, shows_to_end};

use crate::writer::fill::fill;
use crate::writer::piece::Pieces;
use crate::writer::sink::Sink;
use bstr::ByteSlice;
use std::fmt;

/// The maximal length of a text that is written in one call.
const ROOM: usize = 128;

/// Writes the pieces to the formatter.
pub fn show_pieces<W: fmt::Write>(f: &mut fmt::Formatter<W>, pieces: &Pieces<'_>) -> fmt::Result
    ensures writes { WritesOnOk W.write_str_gives f.old result
        (lossy_text (pieces_text pieces.now)) f.new }
    ensures styled { WritesStyledOnOk W.write_str_gives f.old result
        (lossy_text (pieces_text pieces.now)) f.new }
{
    let size = pieces.len();
    if size <= ROOM as u128 {
        show_at_once(f, pieces, size as usize)
    } else {
        pieces.put::<fmt::Formatter<W>, Shown>(f)
    }
}

/// Writes the pieces of a text of this length, which fits into the buffer, in one call.
fn show_at_once<W: fmt::Write>(
    f: &mut fmt::Formatter<W>,
    pieces: &Pieces<'_>,
    size: usize,
) -> fmt::Result
    requires size { size ≡ length (pieces_text pieces.now) }
    requires buffer { size ≤ 128 }
    ensures { WritesStyledOnOk W.write_str_gives f.old result
        (lossy_text (pieces_text pieces.now)) f.new }
{
    let mut buffer = [0; ROOM];
    fill(&mut buffer, pieces);
    show_lossy(f, buffer.split_at(size).0)
}

/// The sink for a formatter.
struct Shown;

impl<W: fmt::Write> Sink<fmt::Formatter<W>> for Shown {
    type Fault = fmt::Error;

    ghost takes = { ShowsText W.write_str_gives };

    ghost ends = { ShowsEnd W.write_str_gives };

    fn put(place: &mut fmt::Formatter<W>, slice: &str) -> fmt::Result {
        place.write_str(slice)
    }

    fn write_end(place: &mut fmt::Formatter<W>, end: &[u8]) -> fmt::Result {
        show_lossy(place, end)
    }

    ghost takes_nothing = { shows_nothing W.write_str_gives };

    ghost takes_joined = { shows_joined W.write_str_gives };

    ghost ends_joined = { shows_to_end W.write_str_gives };
}

/// Writes any bytes to the formatter.
fn show_lossy<W: fmt::Write>(f: &mut fmt::Formatter<W>, bytes: &[u8]) -> fmt::Result
    ensures { WritesStyledOnOk W.write_str_gives f.old result (lossy_text bytes.now) f.new }
{
    match str::from_utf8(bytes) {
        Ok(text) => f.write_str(text),
        Err(_) => show_characters(f, bytes),
    }
}

/// Writes bytes to the formatter, one character a call.
fn show_characters<W: fmt::Write>(f: &mut fmt::Formatter<W>, bytes: &[u8]) -> fmt::Result
    ensures { WritesStyledOnOk W.write_str_gives f.old result (lossy_text bytes.now) f.new }
{
    for character in bytes.chars() {
        f.write_char(character)?;
    }
    Ok(())
}
