//! Cuts of a text around a byte or a mark, tests of bytes, and copies into a buffer.
//!
//! The contract of a cut is a concatenation: the pieces joined are the text, and one of them lacks the byte
//! that was searched for. No caller sees an index.

ghost use Rattle.std.specs.Prelude.{◌≡◌, ◌↔◌, ◌+◌, ◌≤◌, ◌++◌, IsTrue, length, take, vec_capacity, vec_len};
ghost use Rattle.std.specs.List.{list_all};
ghost use Rattle.memchr.specs.Find.{IsFirstByte};
ghost use Rattle.git_syntax.specs.Bytes.{FreeOf, IsLowercase, Lacks, StartsPath, begins_with, is_helper_name, is_name_byte, is_path_start, is_scheme_text};
ghost use Rattle.git_syntax.specs.Internal.Cuts.{CutsAt, CutsAtLast, CutsAtMark, StripsFirst, StripsLast};

use bstr::ByteSlice;
use memchr::memchr3;

/// The bytes before and after the first `c`, or `None` if no byte is `c`.
pub fn cut(bytes: &[u8], c: u8) -> Option<(&[u8], &[u8])>
    ensures { CutsAt c bytes.now result }
{
    let at = bytes.find_byte(c)?;
    Some((bytes.split_at(at).0, bytes.split_at(at + 1).1))
}

/// The bytes before and after the last `c`, or `None` if no byte is `c`.
pub fn last_cut(bytes: &[u8], c: u8) -> Option<(&[u8], &[u8])>
    ensures { CutsAtLast c bytes.now result }
{
    let at = bytes.rfind_byte(c)?;
    Some((bytes.split_at(at).0, bytes.split_at(at + 1).1))
}

/// The bytes before and after the first `://`, or `None` if there is none.
pub fn cut_at_mark(bytes: &[u8]) -> Option<(&[u8], &[u8])>
    ensures { CutsAtMark bytes.now result }
{
    let at = bytes.find(b"://")?;
    Some((bytes.split_at(at).0, bytes.split_at(at + 3).1))
}

/// The bytes after the first byte, if that is `c`; otherwise `None`.
pub fn after(bytes: &[u8], c: u8) -> Option<&[u8]>
    ensures { StripsFirst c bytes.now result }
{
    match bytes {
        [first, rest @ ..] if *first == c => Some(rest),
        _ => None,
    }
}

/// The bytes before the last byte, if that is `c`; otherwise `None`.
pub fn before(bytes: &[u8], c: u8) -> Option<&[u8]>
    ensures { StripsLast c bytes.now result }
{
    match bytes {
        [rest @ .., last] if *last == c => Some(rest),
        _ => None,
    }
}

/// Whether a path may start at the byte: at a `/`, and on the web also at a `?` or a `#`.
pub fn is_path_start(byte: u8, web: bool) -> bool
    ensures { result ≡ is_path_start web byte }
{
    byte == b'/' || (web && (byte == b'?' || byte == b'#'))
}

/// The index of the first byte at which a path may start.
fn path_start(bytes: &[u8], web: bool) -> Option<usize>
    ensures { IsFirstByte (is_path_start web) bytes.now result }
{
    if web {
        memchr3(b'/', b'?', b'#', bytes)
    } else {
        bytes.find_byte(b'/')
    }
}

/// The bytes before the first byte at which a path may start, and the rest.
pub fn cut_before_path(bytes: &[u8], web: bool) -> (&[u8], &[u8])
    ensures joined { bytes.now ≡ result.0.now ++ result.1.now }
    ensures front { Lacks (is_path_start web) result.0.now }
    ensures rest { StartsPath web result.1.now }
{
    match path_start(bytes, web) {
        Some(at) => bytes.split_at(at),
        None => bytes.split_at(bytes.len()),
    }
}

/// Whether no byte is `c`.
pub fn is_free_of(bytes: &[u8], c: u8) -> bool
    ensures { IsTrue result ↔ FreeOf c bytes.now }
{
    !bytes.contains(&c)
}

/// Whether the first byte is `c`.
pub fn starts_with_byte(bytes: &[u8], c: u8) -> bool
    ensures { result ≡ begins_with c bytes.now }
{
    match bytes {
        [] => false,
        [first, ..] => *first == c,
    }
}

/// Whether the byte is a letter, a digit, `+`, `-` or `.`.
fn is_name_byte(byte: u8) -> bool
    ensures { result ≡ is_name_byte byte }
{
    byte.is_ascii_alphanumeric() || byte == b'+' || byte == b'-' || byte == b'.'
}

/// Whether each byte is a letter, a digit, `+`, `-` or `.`.
fn are_name_bytes(bytes: &[u8]) -> bool
    ensures { result ≡ list_all is_name_byte bytes.now }
{
    bytes.iter().all(|byte| is_name_byte(*byte))
}

/// Whether the text is a scheme: a letter, then letters, digits, `+`, `-` and `.`.
pub fn is_scheme_text(bytes: &[u8]) -> bool
    ensures { result ≡ is_scheme_text bytes.now }
{
    match bytes {
        [] => false,
        [first, rest @ ..] => first.is_ascii_alphabetic() && are_name_bytes(rest),
    }
}

/// Whether the text is the name of a remote helper: like a scheme, except that it may begin with a digit.
pub fn is_helper_name(bytes: &[u8]) -> bool
    ensures { result ≡ is_helper_name bytes.now }
{
    match bytes {
        [] => false,
        [first, rest @ ..] => first.is_ascii_alphanumeric() && are_name_bytes(rest),
    }
}

/// Whether the text has no upper-case letter of ASCII.
pub fn is_lowercase(bytes: &[u8]) -> bool
    ensures { IsTrue result ↔ IsLowercase bytes.now }
{
    bytes.iter().all(|byte| byte.to_ascii_lowercase() == *byte)
}

/// Appends the bytes, which fit into the vector's capacity.
pub fn append_within(out: &mut Vec<u8>, bytes: &[u8])
    requires { vec_len out.old + length bytes.now ≤ vec_capacity out.old }
    ensures items { out.new.items ≡ out.old.items ++ bytes.now }
    ensures len { vec_len out.new ≡ vec_len out.old + length bytes.now }
    ensures capacity { vec_capacity out.old ≤ vec_capacity out.new }
{
    let appended = out.extend_from_slice(bytes);
    prove!(appended.is_ok());
    let _ = appended;
}

/// Copies the bytes to the front of the buffer and returns their number.
pub(crate) fn copy_into(buffer: &mut [u8], bytes: &[u8]) -> usize
    requires { length bytes.now ≤ length buffer.old }
    ensures size { result ≡ length bytes.now }
    ensures bytes { take result buffer.new ≡ bytes.now }
{
    buffer[..bytes.len()].copy_from_slice(bytes);
    bytes.len()
}
