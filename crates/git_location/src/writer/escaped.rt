//! Texts that are written with escapes, a block of bytes at a time.
//!
//! A block and its escapes are put together in a buffer, so a sink is called once a block and not once an
//! escape.

ghost use Rattle.std.specs.Prelude.{◌≡◌, ◌+◌, ◌<◌, ◌≤◌, ◌++◌, OnOk, length, take, true};
ghost use Rattle.std.specs.Fmt.{digit_glyph};
ghost use Rattle.percent_encoding.specs.Percent.{encode_byte, percent_encode};

use crate::writer::sink::Sink;
use git_syntax::text::as_text;
use percent_encoding::AsciiSet;

/// The number of bytes in a block.
const BLOCK: usize = 32;

/// The hexadecimal digits.
const DIGITS: [u8; 16] = *b"0123456789ABCDEF";

/// Puts the text with the bytes of the set, and those that aren't ASCII, as escapes.
#[inline(never)]
pub(crate) fn write_escaped<T, S: Sink<T>>(
    place: &mut T,
    text: &[u8],
    set: AsciiSet,
) -> Result<(), S::Fault>
    ensures { OnOk result (S.takes place.old (percent_encode set text.now) place.new) }
{
    let mut buffer = [0; 96];
    let mut rest = text;
    while !rest.is_empty() {
        let (block, suffix) = rest.split_at(rest.len().min(BLOCK));
        let size = escape_block(&mut buffer, block, set);
        S::put(place, as_text(&buffer[..size]))?;
        rest = suffix;
    }
    Ok(())
}

/// Writes the block with escapes to the front of the buffer, and returns its length there.
fn escape_block(buffer: &mut [u8; 96], block: &[u8], set: AsciiSet) -> usize
    requires { length block.now ≤ 32 }
    ensures bytes { take result buffer.new ≡ percent_encode set block.now }
    ensures bound { result ≤ 96 }
{
    let mut size = 0;
    for byte in block {
        size = write_byte(buffer, size, *byte, set);
    }
    size
}

/// Writes a byte, or its escape, at this index of the buffer, and returns the index after it.
#[inline(always)]
fn write_byte(buffer: &mut [u8; 96], at: usize, byte: u8, set: AsciiSet) -> usize
    requires { at ≤ 93 }
    ensures bytes { take result buffer.new ≡ take at buffer.old ++ encode_byte set byte }
    ensures bound { result ≤ at + 3 }
{
    if set.should_percent_encode(byte) {
        buffer[at] = b'%';
        buffer[at + 1] = digit(byte / 16);
        buffer[at + 2] = digit(byte % 16);
        return at + 3;
    }
    buffer[at] = byte;
    at + 1
}

/// The hexadecimal digit of a value.
#[inline(always)]
fn digit(value: u8) -> u8
    requires { value < 16 }
    ensures { result ≡ digit_glyph true value }
{
    DIGITS[value as usize]
}
