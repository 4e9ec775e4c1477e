//! Tests of whole texts, and conversions of bytes that are known to be UTF-8.
//!
//! If a caller has proved that bytes are UTF-8, they are converted without another test.

ghost use Rattle.std.specs.Prelude.{◌≡◌, ◌↔◌, IsTrue, IsUtf8, string_bytes};
ghost use Rattle.git_syntax.specs.Escapes as spec;

use crate::blocks::{are_plain, are_printable};

/// Whether each byte is printable ASCII and none is `%`. Such a text is UTF-8, has no white space, and decodes
/// to itself.
pub fn is_plain(text: &[u8]) -> bool
    ensures { result ≡ spec.is_plain text.now }
{
    if text.len() >= 16 {
        are_plain(text)
    } else {
        text.iter().all(|byte| is_plain_byte(*byte))
    }
}

/// Whether the byte is printable ASCII and isn't `%`.
fn is_plain_byte(byte: u8) -> bool
    ensures { result ≡ spec.is_plain_byte byte }
{
    b' ' < byte && byte < 127 && byte != b'%'
}

/// Whether each byte is printable ASCII. Such a text is UTF-8 and has no white space.
pub(crate) fn is_printable(text: &[u8]) -> bool
    ensures { result ≡ spec.is_printable text.now }
{
    if text.len() >= 16 {
        are_printable(text)
    } else {
        text.iter().all(|byte| is_printable_byte(*byte))
    }
}

/// Whether the byte is printable ASCII.
fn is_printable_byte(byte: u8) -> bool
    ensures { result ≡ spec.is_printable_byte byte }
{
    b' ' < byte && byte < 127
}

/// Whether the bytes are UTF-8.
pub fn is_text(bytes: &[u8]) -> bool
    ensures { IsTrue result ↔ IsUtf8 bytes.now }
{
    is_plain(bytes) || is_utf8(bytes)
}

/// Whether the bytes, of which some are probably not ASCII, are UTF-8. They are tested 64 at once.
pub fn is_utf8(bytes: &[u8]) -> bool
    ensures { IsTrue result ↔ IsUtf8 bytes.now }
{
    simdutf8::is_utf8(bytes)
}

/// The bytes as text.
pub fn as_text(bytes: &[u8]) -> &str
    requires { IsUtf8 bytes.now }
    ensures { result.now ≡ bytes.now }
{
    // SAFETY: the bytes are UTF-8, which each caller proves.
    unsafe { str::from_utf8_unchecked(bytes) }
}

/// The bytes as a string. They are not copied.
pub fn into_text(bytes: Vec<u8>) -> String
    requires { IsUtf8 bytes.items }
    ensures { string_bytes result ≡ bytes.items }
{
    // SAFETY: the bytes are UTF-8, which each caller proves.
    unsafe { String::from_utf8_unchecked(bytes) }
}
