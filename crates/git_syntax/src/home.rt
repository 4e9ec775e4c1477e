//! The front of a path: the `/` before a home folder, and the root in place of an empty path.

ghost use Rattle.std.specs.Prelude.{◌≡◌, false, true};
ghost use Rattle.git_syntax.specs.Grammar as grammar;

use crate::bytes::starts_with_byte;

/// Whether the path begins with `/~`.
pub fn begins_at_home(path: &[u8]) -> bool
    ensures { result ≡ grammar.begins_at_home path.now }
{
    match path {
        [first, second, ..] => *first == b'/' && *second == b'~',
        _ => false,
    }
}

/// The path without the `/` before a `~` at its front.
pub fn from_home(path: &[u8]) -> &[u8]
    ensures { result.now ≡ grammar.from_home path.now }
{
    match path {
        [b'/', rest @ ..] if starts_with_byte(rest, b'~') => rest,
        _ => path,
    }
}

/// The path, or `/` if it is empty.
pub fn or_root(path: &[u8]) -> &[u8]
    ensures { result.now ≡ grammar.or_root path.now }
{
    if path.is_empty() { b"/" } else { path }
}
