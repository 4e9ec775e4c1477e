//! White space as Unicode defines it, in the bytes of a text.
//!
//! In UTF-8 it begins with one of ten bytes, of which most texts have none.

ghost use Rattle.std.specs.Prelude.{◌≡◌, chars, get_or};
ghost use Rattle.std.specs.Char.{is_whitespace};
ghost use Rattle.std.specs.Int.{is_in_range};
ghost use Rattle.std.specs.List.{list_any};
ghost use Rattle.git_syntax.specs.Internal.WhiteSpace as spec;
ghost use Rattle.git_syntax.specs.Bytes.{is_c_space};

/// Whether the text has white space.
pub(crate) fn has_white_space(text: &str) -> bool
    ensures { result ≡ list_any is_whitespace (chars text.now) }
{
    let bytes = text.as_bytes();
    may_hold_space(bytes) && holds_space(bytes)
}

/// Whether the text has a byte with which white space may begin.
#[inline(never)]
fn may_hold_space(text: &[u8]) -> bool
    ensures { result ≡ list_any spec.may_begin_space text.now }
{
    // A loop without an early exit is compiled to test many bytes at once, but not if it is part of another
    // function.
    let mut may = false;
    for byte in text {
        may |= may_begin_space(*byte);
    }
    may
}

/// Whether white space may begin with the byte.
fn may_begin_space(byte: u8) -> bool
    ensures { result ≡ spec.may_begin_space byte }
{
    is_ascii_space(byte) | (byte == 0xC2) | is_between(0xE1, 0xE3, byte)
}

/// Whether the byte is white space of ASCII.
fn is_ascii_space(byte: u8) -> bool
    ensures { result ≡ is_c_space byte }
{
    is_between(b'\t', b'\r', byte) | (byte == b' ')
}

/// Whether the byte is one of these two or between them.
fn is_between(first: u8, last: u8, byte: u8) -> bool
    ensures { result ≡ is_in_range first last byte }
{
    first <= byte && byte <= last
}

/// Whether white space begins with some byte of the text.
fn holds_space(text: &[u8]) -> bool
    ensures { result ≡ spec.holds_space text.now }
{
    let mut rest = text;
    while let [first, suffix @ ..] = rest {
        if may_begin_space(*first) && are_space(*first, byte_at(suffix, 0), byte_at(suffix, 1)) {
            return true;
        }
        rest = suffix;
    }
    false
}

/// The byte of the text at this index, or 0 if the text is shorter.
fn byte_at(text: &[u8], at: usize) -> u8
    ensures { result ≡ get_or text.now at 0 }
{
    if at < text.len() { text[at] } else { 0 }
}

/// Whether the three bytes begin with white space.
fn are_space(first: u8, second: u8, third: u8) -> bool
    ensures { result ≡ spec.are_space first second third }
{
    match first {
        0xC2 => second == 0x85 || second == 0xA0,
        0xE1 => second == 0x9A && third == 0x80,
        0xE2 => is_wide_end(second, third),
        0xE3 => second == 0x80 && third == 0x80,
        _ => is_ascii_space(first),
    }
}

/// Whether the two bytes after `0xE2` end white space.
fn is_wide_end(second: u8, third: u8) -> bool
    ensures { result ≡ spec.is_wide_end second third }
{
    match second {
        0x80 => is_between(0x80, 0x8A, third) || is_between(0xA8, 0xA9, third) || third == 0xAF,
        0x81 => third == 0x9F,
        _ => false,
    }
}
