//! The normal form of escapes: a byte that must be escaped is written as an escape with upper-case digits, an
//! escaped delimiter stays escaped, and no other byte is escaped.

ghost use Rattle.std.specs.Prelude.{◌≡◌, ◌∷◌, ◌+◌, ◌*◌, ◌++◌, ◌<◌, ◌≤◌, MatchOption, length, take, true, []};
ghost use Rattle.std.specs.Char.{digit_value};
ghost use Rattle.git_syntax.specs.Bytes.{is_hexadecimal, percent_sign};
ghost use Rattle.git_syntax.specs.Escapes.{is_sound};
ghost use Rattle.git_rules.specs.Normal as spec;
ghost use Rattle.git_rules.specs.NormalPieces.{SplitsNormal};

use percent_encoding::percent_encode_byte;

/// Writes the normal form of a text to the front of the buffer; returns it, and the rest of the buffer.
pub(super) fn normal_in<'a>(text: &[u8], buffer: &'a mut [u8]) -> (&'a [u8], &'a mut [u8])
    requires sound { is_sound text.now ≡ true }
    requires buffer { 3 * length text.now ≤ length buffer.old }
    ensures text { result.0.now ≡ spec.normal_text text.now }
    ensures left { length buffer.old ≤ length result.1.now + 3 * length text.now }
{
    let size = write_normal(buffer, 0, text);
    let (form, left) = buffer.split_at_mut(size);
    (form, left)
}

/// Writes the normal form of a text to the buffer from index `start` on, and returns the index after it.
pub(super) fn write_normal(buffer: &mut [u8], start: usize, text: &[u8]) -> usize
    requires sound { is_sound text.now ≡ true }
    requires buffer { start + 3 * length text.now ≤ length buffer.old }
    ensures bytes { take result buffer.new ≡ take start buffer.old ++ spec.normal_text text.now }
    ensures least { start ≤ result }
    ensures most { result ≤ start + 3 * length text.now }
{
    let mut at = start;
    let mut rest = text;
    while let Some((byte, escaped, suffix)) = split_normal(rest) {
        at = write_byte(buffer, at, byte, escaped);
        rest = suffix;
    }
    at
}

/// The first byte of a text, decoded, whether it was escaped, and the text after it.
fn split_normal(text: &[u8]) -> Option<(u8, bool, &[u8])>
    requires { is_sound text.now ≡ true }
    ensures { MatchOption result (text.now ≡ []) (λ p. SplitsNormal text.now p.0 p.1 p.2.now) }
{
    let (first, suffix) = text.split_first()?;
    if *first == b'%' {
        let (byte, rest) = split_digits(suffix);
        return Some((byte, true, rest));
    }
    Some((*first, false, suffix))
}

/// The byte that the two digits after a `%` spell, and the text after them.
fn split_digits(suffix: &[u8]) -> (u8, &[u8])
    requires { is_sound (percent_sign ∷ suffix.now) ≡ true }
    ensures { SplitsNormal (percent_sign ∷ suffix.now) result.0 true result.1.now }
{
    match suffix {
        [high, low, rest @ ..] => (digit(*high) * 16 + digit(*low), rest),
        _ => unreachable!(),
    }
}

/// The value of a hexadecimal digit in either case.
fn digit(byte: u8) -> u8
    requires { is_hexadecimal byte ≡ true }
    ensures value { result ≡ digit_value byte }
    ensures small { result < 16 }
{
    match byte {
        b'0'..=b'9' => byte - b'0',
        b'A'..=b'F' => byte - b'A' + 10,
        b'a'..=b'f' => byte - b'a' + 10,
        _ => unreachable!(),
    }
}

/// Writes the normal form of a byte to the buffer from index `at` on, and returns the index after it.
fn write_byte(buffer: &mut [u8], at: usize, byte: u8, escaped: bool) -> usize
    requires { at + 3 ≤ length buffer.old }
    ensures bytes { take result buffer.new ≡ take at buffer.old ++ spec.normal_byte escaped byte }
    ensures least { at ≤ result }
    ensures most { result ≤ at + 3 }
{
    if is_unsafe(byte) || (escaped && is_reserved(byte)) {
        put(buffer, at, percent_encode_byte(byte).as_bytes())
    } else {
        put(buffer, at, &[byte])
    }
}

/// Writes the bytes to the buffer from index `at` on, and returns the index after them.
pub(super) fn put(buffer: &mut [u8], at: usize, bytes: &[u8]) -> usize
    requires { at + length bytes.now ≤ length buffer.old }
    ensures end { result ≡ at + length bytes.now }
    ensures bytes { take result buffer.new ≡ take at buffer.old ++ bytes.now }
{
    let end = at + bytes.len();
    buffer[at..end].copy_from_slice(bytes);
    end
}

/// Whether a byte is always escaped.
fn is_unsafe(byte: u8) -> bool
    ensures { result ≡ spec.is_unsafe byte }
{
    byte <= b' ' || 127 <= byte || is_unsafe_mark(byte)
}

/// Whether a printable byte is always escaped.
fn is_unsafe_mark(byte: u8) -> bool
    ensures { result ≡ spec.is_unsafe_mark byte }
{
    matches!(
        byte,
        b'<' | b'>' | b'"' | b'%' | b'{' | b'}' | b'|' | b'\\' | b'^' | b'`'
    )
}

/// Whether a byte is a delimiter, which stays escaped if it was escaped.
fn is_reserved(byte: u8) -> bool
    ensures { result ≡ spec.is_reserved byte }
{
    byte == b':'
        || byte == b'/'
        || byte == b'?'
        || byte == b'#'
        || byte == b'['
        || byte == b']'
        || byte == b'@'
        || is_sub_delimiter(byte)
}

/// Whether a byte is a sub-delimiter (RFC 3986), which separates parts of a component.
fn is_sub_delimiter(byte: u8) -> bool
    ensures { result ≡ spec.is_sub_delimiter byte }
{
    byte == b'!'
        || byte == b'$'
        || byte == b'&'
        || byte == b'\''
        || byte == b'('
        || byte == b')'
        || byte == b'*'
        || byte == b'+'
        || byte == b','
        || byte == b';'
        || byte == b'='
}
