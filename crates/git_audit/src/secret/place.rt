//! The position of a possible password in a text.

ghost use Rattle.std.specs.Prelude.{◌≡◌, ◌+◌, ◌≤◌, ◌||◌, ◌==◌, IfSome, codes, length};
ghost use Rattle.std.specs.List.{list_all, list_any};
ghost use Rattle.std.specs.Char.{is_ascii_digit};
ghost use Rattle.git_syntax.specs.Bytes.{right_bracket};
ghost use Rattle.git_audit.specs.Secrets as spec;

use crate::danger::token::has_front;
use crate::secret::mark::{Class, Mark};
use git_syntax::bytes::{is_helper_name, starts_with_byte};

/// A possible password: its index and its length, in bytes.
#[derive(Clone, Copy)]
pub(super) struct Secret {
    pub(super) at: usize,
    pub(super) len: usize,
}

/// A possible password in a text in which no path starts.
pub(super) fn password(text: &[u8]) -> Option<Secret>
    ensures place { result ≡ spec.password text.now }
    ensures within { IfSome result (λ s. s.at + s.len ≤ length text.now) }
{
    let colon = Mark::Colon.first(text)?;
    up_to_at(text, Mark::Colon.end(text, colon))
}

/// The bytes from an index to the last `@`, if there is one after it.
fn up_to_at(text: &[u8], at: usize) -> Option<Secret>
    requires { at ≤ length text.now }
    ensures place { result ≡ spec.up_to_at text.now at }
    ensures within { IfSome result (λ s. s.at + s.len ≤ length text.now) }
{
    let len = Mark::At.last(text.split_at(at).1)?;
    Some(Secret { at, len })
}

/// A possible password with a `/` in it.
pub(super) fn wide_password(web: bool, text: &[u8]) -> Option<Secret>
    ensures place { result ≡ spec.wide_password web text.now }
    ensures within { IfSome result (λ s. s.at + s.len ≤ length text.now) }
{
    let authority = Mark::Authority.first(text)?;
    wide_after(web, text, Mark::Authority.end(text, authority))
}

/// A possible password with a `/` in it, after this many bytes.
fn wide_after(web: bool, text: &[u8], at: usize) -> Option<Secret>
    requires { at ≤ length text.now }
    ensures place { result ≡ spec.wide_after web text.now at }
    ensures within { IfSome result (λ s. s.at + s.len ≤ length text.now) }
{
    let rest = text.split_at(at).1;
    let found = wide_in(before_path(web, rest), rest)?;
    Some(Secret {
        at: at + found.at,
        len: found.len,
    })
}

/// The text before the first byte at which a path may start, or all of it.
fn before_path(web: bool, text: &[u8]) -> &[u8]
    ensures { result.now ≡ spec.before_path web text.now }
{
    match Class::Path(web).first(text) {
        Some(at) => text.split_at(at).0,
        None => text.split_at(text.len()).0,
    }
}

/// A possible password with a `/` in it, in a text that begins with this authority.
fn wide_in(authority: &[u8], text: &[u8]) -> Option<Secret>
    requires { length authority.now ≤ length text.now }
    ensures place { result ≡ spec.wide_in authority.now text.now }
    ensures within { IfSome result (λ s. s.at + s.len ≤ length text.now) }
{
    let colon = Mark::Colon.first(authority)?;
    let at = Mark::Colon.end(authority, colon);
    if is_whole(authority, at) {
        return None;
    }
    up_to_at(text, at)
}

/// Whether an authority, whose first `:` ends at this index, has a password to its own last `@`, a port, or
/// brackets.
fn is_whole(authority: &[u8], at: usize) -> bool
    requires { at ≤ length authority.now }
    ensures { result ≡ spec.is_whole authority.now at }
{
    let rest = authority.split_at(at).1;
    has_brackets(authority) || are_digits(rest) || Mark::At.last(rest).is_some()
}

/// Whether the text begins with `[` and has a `]`.
fn has_brackets(text: &[u8]) -> bool
    ensures { result ≡ spec.has_brackets text.now }
{
    starts_with_byte(text, b'[') && holds_bracket(text)
}

/// Whether the text has a `]`.
fn holds_bracket(text: &[u8]) -> bool
    ensures { result ≡ list_any (λ b. b == right_bracket) text.now }
{
    text.iter().any(|byte| *byte == b']')
}

/// The length of the name of a remote helper with its `::` at the front of a text, or 0 if there is none.
pub(super) fn helper_len(text: &[u8]) -> usize
    ensures place { result ≡ spec.helper_len text.now }
    ensures within { result ≤ length text.now }
{
    match Mark::Helper.first(text) {
        Some(at) if is_helper_name(text.split_at(at).0) => Mark::Helper.end(text, at),
        _ => 0,
    }
}

/// Whether the text consists of digits.
fn are_digits(text: &[u8]) -> bool
    ensures { result ≡ list_all is_ascii_digit text.now }
{
    text.iter().all(|byte| byte.is_ascii_digit())
}

/// Whether the text begins as an HTTP URL.
pub(super) fn is_web(text: &[u8]) -> bool
    ensures { result ≡ spec.is_web text.now }
{
    has_front(text, "http://") || has_front(text, "https://")
}
