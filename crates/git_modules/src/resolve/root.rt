//! The root of a parent: a front of it, which a URL keeps unless it climbs.

ghost use Rattle.std.specs.Prelude.{◌≡◌, ◌≤◌, length, false};
ghost use Rattle.git_modules.specs.ResolveRoots.{authority_length, is_within, mark_length, name_length, root_of};

use super::left::is_remote;

/// The root of a parent.
pub fn root_of(parent: &[u8]) -> &[u8]
    ensures { result.now ≡ root_of parent.now }
{
    if !is_remote(parent) {
        return b"";
    }
    let name = name_length(parent);
    let size = name + mark_length(parent.split_at(name).1);
    parent.split_at(size).0
}

/// The length of the text before the first `:` outside brackets.
fn name_length(text: &[u8]) -> usize
    ensures size { result ≡ name_length false text.now }
    ensures within { result ≤ length text.now }
{
    let mut within = false;
    for (i, byte) in text.iter().enumerate() {
        if *byte == b':' && !within {
            return i;
        }
        within = is_within(within, *byte);
    }
    text.len()
}

/// Whether the byte after this one is within brackets.
fn is_within(within: bool, byte: u8) -> bool
    ensures { result ≡ is_within within byte }
{
    byte == b'[' || (within && byte != b']')
}

/// The length of the root in the text after a name.
fn mark_length(text: &[u8]) -> usize
    ensures size { result ≡ mark_length text.now }
    ensures within { result ≤ length text.now }
{
    match text {
        [_, b'/', b'/', rest @ ..] => 3 + authority_length(rest),
        [_, b'/', ..] => 1,
        _ => 0,
    }
}

/// The length of the text before the first `/`.
fn authority_length(text: &[u8]) -> usize
    ensures size { result ≡ authority_length text.now }
    ensures within { result ≤ length text.now }
{
    for (i, byte) in text.iter().enumerate() {
        if *byte == b'/' {
            return i;
        }
    }
    text.len()
}
