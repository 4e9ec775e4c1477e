//! Quick tests for texts that are written without an escape, as most are.
//!
//! A text that passes is written as it is. One that doesn't pass may also be.

ghost use Rattle.std.specs.Prelude.{◌≡◌, IsTrue};
ghost use Rattle.std.specs.Int.{is_in_range};
ghost use Rattle.std.specs.List.{list_all};
ghost use Rattle.percent_encoding.specs.Percent.{percent_encode};
ghost use Rattle.git_syntax.specs.declared.escape.TheConstants.{PATH, PASSWORD, USER};
ghost use Rattle.git_location.specs.Internal.KeptBytes as spec;

/// Whether each byte is one of those that most paths consist of.
pub(crate) fn needs_no_escape(text: &[u8]) -> bool
    ensures { IsTrue result → percent_encode PATH text.now ≡ text.now }
{
    are_unescaped_in_path(text)
}

/// Whether each byte is one of those that most users, passwords and hosts consist of.
pub(crate) fn user_needs_no_escape(text: &[u8]) -> bool
    ensures user { IsTrue result → percent_encode USER text.now ≡ text.now }
    ensures password { IsTrue result → percent_encode PASSWORD text.now ≡ text.now }
{
    are_unescaped_in_user(text)
}

/// Whether each byte passes the test of a path.
fn are_unescaped_in_path(text: &[u8]) -> bool
    ensures { result ≡ list_all spec.is_unescaped_in_path text.now }
{
    // A loop without an early exit is compiled to test many bytes at once.
    let mut ready = true;
    for byte in text {
        ready &= is_unescaped_in_path(*byte);
    }
    ready
}

/// Whether each byte passes the test of a user.
fn are_unescaped_in_user(text: &[u8]) -> bool
    ensures { result ≡ list_all spec.is_unescaped_in_user text.now }
{
    let mut ready = true;
    for byte in text {
        ready &= is_unescaped_in_user(*byte);
    }
    ready
}

/// Whether the byte is one from `&` to `;`, from `?` to `_`, or a lower-case letter.
fn is_unescaped_in_path(byte: u8) -> bool
    ensures { result ≡ spec.is_unescaped_in_path byte }
{
    is_between(b'&', b';', byte) | is_between(b'?', b'_', byte) | is_between(b'a', b'z', byte)
}

/// Whether the byte is one from `&` to `.`, a digit or a letter.
fn is_unescaped_in_user(byte: u8) -> bool
    ensures { result ≡ spec.is_unescaped_in_user byte }
{
    is_between(b'&', b'.', byte)
        | is_between(b'0', b'9', byte)
        | is_between(b'A', b'Z', byte)
        | is_between(b'a', b'z', byte)
}

/// Whether the byte is one of these two or between them.
fn is_between(first: u8, last: u8, byte: u8) -> bool
    ensures { result ≡ is_in_range first last byte }
{
    first <= byte && byte <= last
}
