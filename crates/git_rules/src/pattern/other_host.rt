//! Whether a URL names another host, as its first bytes tell, without its normal form.

ghost use Rattle.std.specs.Prelude.{◌≡◌, ◌∷◌, ◌++◌, [], IsTrue, MatchOption, codes};
ghost use Rattle.git_syntax.specs.Bytes.{FreeOf, at_sign};
ghost use Rattle.git_class.specs.WebClass as web;
ghost use Rattle.git_rules.specs.OtherHosts.{DiffersPlainly, FollowsScheme, NamesOtherHost};

use git_syntax::bytes::{after, is_free_of};

/// Whether the URL names another host. False says nothing.
///
/// It is true for a URL of HTTP without an `@` whose host goes on differently after a common front, if the front and
/// the byte after it are lower-case letters, digits, `-`, `.` and `_`.
pub(crate) fn names_other_host(url: &[u8], host: &[u8]) -> bool
    ensures { IsTrue result → NamesOtherHost url.now host.now }
{
    match after_scheme(url) {
        None => false,
        Some(rest) => is_other(rest, host),
    }
}

/// Whether the text after a scheme has no `@` and names another host. False says nothing.
fn is_other(rest: &[u8], host: &[u8]) -> bool
    ensures { IsTrue result → (DiffersPlainly rest.now host.now × FreeOf at_sign rest.now) }
{
    if !differs_plainly(rest, host) {
        return false;
    }
    is_free_of(rest, b'@')
}

/// The text after `https://` or `http://`, if the URL begins so.
fn after_scheme(url: &[u8]) -> Option<&[u8]>
    ensures { MatchOption result (Unit {0}) (λ rest. FollowsScheme url.now rest.now) }
{
    let rest = after_http(url)?;
    match after(rest, b's') {
        Some(more) => Some(after_mark(more)?),
        None => Some(after_mark(rest)?),
    }
}

/// The text after `http`, if it begins so.
fn after_http(text: &[u8]) -> Option<&[u8]>
    ensures { MatchOption result (Unit {0}) (λ rest. text.now ≡ codes "http" ++ rest.now) }
{
    after(after(after(after(text, b'h')?, b't')?, b't')?, b'p')
}

/// The text after `://`, if it begins so.
fn after_mark(text: &[u8]) -> Option<&[u8]>
    ensures { MatchOption result (Unit {0}) (λ rest. text.now ≡ codes "://" ++ rest.now) }
{
    after(after(after(text, b':')?, b'/')?, b'/')
}

/// Whether the text goes on differently than the host after a common front, all of bytes of plain hosts.
fn differs_plainly(text: &[u8], host: &[u8]) -> bool
    ensures { IsTrue result → DiffersPlainly text.now host.now }
{
    let mut rest = text;
    let mut own = host;
    while let Some((byte, more)) = first_and_rest(rest) {
        if !is_plain_host_byte(byte) {
            return false;
        }
        let Some((first, others)) = first_and_rest(own) else {
            return byte != b'.'; // a `.` at the end of a host adds no label
        };
        if first != byte {
            return true;
        }
        rest = more;
        own = others;
    }
    false
}

/// The first byte and those after it, or `None` if there is none.
fn first_and_rest(text: &[u8]) -> Option<(u8, &[u8])>
    ensures { MatchOption result (text.now ≡ []) (λ p. text.now ≡ p.0 ∷ p.1.now) }
{
    match text {
        [] => None,
        [first, rest @ ..] => Some((*first, rest)),
    }
}

/// Whether the byte is a lower-case letter, a digit, `-`, `.` or `_`.
fn is_plain_host_byte(byte: u8) -> bool
    ensures { result ≡ web.is_plain_host_byte byte }
{
    byte.is_ascii_lowercase()
        || byte.is_ascii_digit()
        || byte == b'-'
        || byte == b'.'
        || byte == b'_'
}
