//! Words: runs of bytes of a class.

ghost use Rattle.std.specs.Prelude.{◌≡◌, ◌+◌, ◌≤◌, length, take};
ghost use Rattle.git_syntax.specs.Bytes.{lowercase};
ghost use Rattle.git_modules.specs.ConfigFileBytes as spec;
ghost use Rattle.git_modules.specs.ConfigFilePieces as piece;

use crate::config_file::bytes::byte_at;

/// A class of bytes.
#[derive(Clone, Copy)]
pub(super) enum Class {
    /// Bytes of a name.
    Name,
    /// Bytes of a section.
    Section,
    /// White space that may follow a name.
    AfterName,
    /// White space that may follow a section.
    AfterSection,
}

/// Whether a byte is of a class.
pub(super) fn is_of(class: Class, byte: u8) -> bool
    ensures { result ≡ piece.is_of class byte }
{
    match class {
        Class::Name => byte.is_ascii_alphanumeric() || byte == b'-',
        Class::Section => byte.is_ascii_alphanumeric() || byte == b'-' || byte == b'.',
        Class::AfterName => byte == b' ' || byte == b'\t',
        Class::AfterSection => byte == b' ' || byte == b'\t' || byte == b'\r',
    }
}

/// Writes the word that begins at an offset to the front of the buffer, in lower case. Returns its length, and the
/// offset after it.
pub(super) fn read_word(
    text: &[u8],
    start: usize,
    class: Class,
    buffer: &mut [u8],
) -> (usize, usize)
    requires start { start ≤ length text.now }
    requires buffer { length text.now ≤ start + length buffer.old }
    ensures bytes { take result.0 buffer.new
        ≡ lowercase (spec.word (piece.is_of class) (spec.left_at text.now start)) }
    ensures left { spec.left_at text.now result.1
        ≡ spec.past_word (piece.is_of class) (spec.left_at text.now start) }
    ensures size { result.0 + start ≤ result.1 }
    ensures most { result.1 ≤ length text.now }
{
    let mut at = start;
    let mut len = 0;
    while let Some((byte, suffix)) = byte_at(text, at) {
        if !is_of(class, byte) {
            return (len, at);
        }
        buffer[len] = byte.to_ascii_lowercase();
        len += 1;
        at = suffix;
    }
    (len, at)
}

/// The offset after the word that begins at an offset.
pub(super) fn past_word(text: &[u8], start: usize, class: Class) -> usize
    requires { start ≤ length text.now }
    ensures left { spec.left_at text.now result
        ≡ spec.past_word (piece.is_of class) (spec.left_at text.now start) }
    ensures least { start ≤ result }
    ensures most { result ≤ length text.now }
{
    let mut at = start;
    while let Some((byte, suffix)) = byte_at(text, at) {
        if !is_of(class, byte) {
            return at;
        }
        at = suffix;
    }
    at
}
