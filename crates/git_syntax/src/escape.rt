//! Percent-encoding: the sets of escaped bytes, tests of escaped texts, and decoding.
//!
//! Each test is the definition of the same name in `specs/Escapes.antt` or `specs/Bytes.antt`.

ghost use Rattle.std.specs.Prelude.{◌≡◌, ◌∷◌, ◌<◌, ◌+◌, ◌≤◌, ◌↔◌, IsTrue, IsUtf8, length, take, true};
ghost use Rattle.std.specs.Char.{is_digit};
ghost use Rattle.percent_encoding.specs.Percent as percent;
ghost use Rattle.git_syntax.specs.Escapes as spec;
ghost use Rattle.git_syntax.specs.Safeguards.{PasswordSet, PathSet, UserSet};
ghost use Rattle.git_syntax.specs.Bytes.{LacksWhiteSpace};
ghost use Rattle.git_syntax.specs.Internal.Decoding.{PadsBlock, SplitsDecoded, SplitsEscape};

use crate::bytes::cut;
use crate::digits::digit;
use crate::runs::past_run;
use crate::text::{is_plain, is_printable, is_utf8};
use crate::white_space::has_white_space;
use percent_encoding::{AsciiSet, CONTROLS, ascii_set};
use simdutf8::Checker;
use std::simd::u8x64;

/// The bytes that are escaped in the path of an HTTP location.
pub const PATH: AsciiSet = ascii_set!(
    CONTROLS
        .add(b' ')
        .add(b'"')
        .add(b'%')
        .add(b'<')
        .add(b'>')
        .add(b'`')
        .add(b'{')
        .add(b'}')
);

/// The bytes that are escaped in a password: those of the path, and the delimiters of a URL except `:`.
pub const PASSWORD: AsciiSet = ascii_set!(
    PATH.add(b'#')
        .add(b'/')
        .add(b'?')
        .add(b'@')
        .add(b'[')
        .add(b'\\')
        .add(b']')
        .add(b'^')
        .add(b'|')
);

/// The bytes that are escaped in a user: those of the password, and `:`.
pub const USER: AsciiSet = ascii_set!(PASSWORD.add(b':'));

/// Each set of escaped bytes is the documented set, to which the definition of a location's text refers. It
/// has exactly these bytes of ASCII. The law is about ASCII only: by the definition of percent-encoding,
/// every other byte is escaped.
///
/// - `path`: in a path of HTTP, the controls, the space, `"`, `%`, `<`, `>`, `` ` ``, `{` and `}`.
/// - `password`: in a password, those and `#`, `/`, `?`, `@`, `[`, `\`, `]`, `^` and `|`.
/// - `user`: in a user, those and `:`.
///
/// By this law a program that compares written texts knows which bytes of ASCII are written unescaped.
pub fn law_sets()
    ensures path { PathSet }
    ensures password { PasswordSet }
    ensures user { UserSet }
{}

/// Whether two hexadecimal digits follow every `%` of the text.
pub fn is_sound(text: &[u8]) -> bool
    ensures { result ≡ spec.is_sound text.now }
{
    let mut rest = text;
    while let Some((_, suffix)) = cut(rest, b'%') {
        let Some((_, left)) = past_run(suffix) else {
            return false;
        };
        rest = left;
    }
    true
}

/// Whether the text begins with two hexadecimal digits.
pub fn begins_with_digits(text: &[u8]) -> bool
    ensures { result ≡ spec.begins_with_digits text.now }
{
    match text {
        [high, low, ..] => is_hexadecimal(*high) && is_hexadecimal(*low),
        _ => false,
    }
}

/// Whether the byte is a hexadecimal digit of either case.
pub(crate) fn is_hexadecimal(byte: u8) -> bool
    ensures { result ≡ is_digit byte 16 }
{
    digit(byte).is_some()
}

/// Whether the text has a `%`.
pub fn has_percent(text: &[u8]) -> bool
    ensures { result ≡ spec.has_percent text.now }
{
    text.contains(&b'%')
}

/// Whether the text decodes to UTF-8.
pub fn decodes_to_utf8(text: &[u8]) -> bool
    ensures { IsTrue result ↔ IsUtf8 (percent.percent_decode text.now) }
{
    if is_plain(text) {
        return true;
    }
    if has_percent(text) {
        decoding_is_utf8(text)
    } else {
        is_utf8(text)
    }
}

/// Whether the decoding of the text is UTF-8. The decoded bytes are tested 64 at once.
pub(crate) fn decoding_is_utf8(text: &[u8]) -> bool
    ensures { IsTrue result ↔ IsUtf8 (percent.percent_decode text.now) }
{
    let mut checker = Checker::new();
    let mut rest = text;
    while !rest.is_empty() {
        let (block, suffix) = decoded_block(rest);
        checker = checker.step(u8x64::from_array(block));
        rest = suffix;
    }
    checker.finish()
}

/// The next 64 bytes of a decoding, or as many as are left and zeros after them, and the rest of the text.
fn decoded_block(text: &[u8]) -> ([u8; 64], &[u8])
    ensures bytes { PadsBlock text.now result.0 result.1.now }
    ensures shorter { 0 < length text.now
        → length (percent.percent_decode result.1.now) < length (percent.percent_decode text.now) }
{
    let mut block = [0; 64];
    let mut rest = text;
    for at in 0..64 {
        let Some((byte, suffix)) = split_decoded(rest) else {
            return (block, rest);
        };
        block[at] = byte;
        rest = suffix;
    }
    (block, rest)
}

/// The first four bytes of the decoding, or all of it if it is shorter, and their number.
pub fn front(text: &[u8]) -> ([u8; 4], usize)
    ensures small { result.1 ≤ 4 }
    ensures full { length (take result.1 result.0) ≡ result.1 }
    ensures bytes { take result.1 result.0 ≡ take 4 (percent.percent_decode text.now) }
{
    let mut window = [0; 4];
    let mut count = 0;
    let mut rest = text;
    while let Some((byte, suffix)) = split_decoded(rest) {
        if count == 4 {
            return (window, count);
        }
        window[count] = byte;
        count += 1;
        rest = suffix;
    }
    (window, count)
}

/// The first byte of the decoding of a text, and the text after it; `None` if the text is empty.
#[inline(always)]
pub fn split_decoded(text: &[u8]) -> Option<(u8, &[u8])>
    ensures { SplitsDecoded text.now result }
{
    if let Some(escape) = split_escape(text) {
        return Some(escape);
    }
    let (first, suffix) = text.split_first()?;
    Some((*first, suffix))
}

/// The byte of the escape that the text begins with, and the text after the escape; `None` if it begins with none.
#[inline(always)]
fn split_escape(text: &[u8]) -> Option<(u8, &[u8])>
    ensures { SplitsEscape text.now result }
{
    let [sign, high, low, rest @ ..] = text else {
        return None;
    };
    if *sign != b'%' {
        return None;
    }
    let Some(high) = digit(*high) else {
        return None;
    };
    let Some(low) = digit(*low) else {
        return None;
    };
    Some((high * 16 + low, rest))
}

/// Whether the spelling decodes to the path.
pub fn decodes_to(spelling: &[u8], path: &[u8]) -> bool
    ensures { IsTrue result ↔ (percent.percent_decode spelling.now ≡ path.now) }
{
    let mut left = spelling;
    let mut rest = path;
    while let Some((byte, suffix)) = split_decoded(left) {
        let Some((first, tail)) = rest.split_first() else {
            return false;
        };
        if *first != byte {
            return false;
        }
        left = suffix;
        rest = tail;
    }
    rest.is_empty()
}

/// Whether the text has no white space, as Unicode defines it.
pub fn lacks_white_space(text: &str) -> bool
    ensures { IsTrue result ↔ LacksWhiteSpace text.now }
{
    is_printable(text.as_bytes()) || !has_white_space(text)
}

/// Writes the decoding of the text to the front of the buffer and returns its length in bytes.
pub fn decode_into(buffer: &mut [u8], text: &[u8]) -> usize
    requires { length (percent.percent_decode text.now) ≤ length buffer.old }
    ensures size { result ≡ length (percent.percent_decode text.now) }
    ensures bytes { take result buffer.new ≡ percent.percent_decode text.now }
{
    let mut size = 0;
    let mut rest = text;
    while let Some((byte, suffix)) = split_decoded(rest) {
        buffer[size] = byte;
        size += 1;
        rest = suffix;
    }
    size
}
