//! The host of a URL as Secure Shell takes it: without brackets around it, and without a colon after it.

ghost use Rattle.std.specs.Prelude.{◌≡◌, ℕ, List, MatchOption, false, string_bytes, true};
ghost use Rattle.git_syntax.specs.Bytes.{begins_with, left_bracket};
ghost use Rattle.git_syntax.specs.Internal.FoundPieces.{ssh_host};
ghost use Rattle.git_syntax.specs.Grammar.{IsSshHost};
ghost use Rattle.git_syntax.specs.Internal.UrlPieces.{DropsLast, InBrackets};

use crate::bytes::{after, before, is_free_of, starts_with_byte};
use crate::text::into_text;

/// The host as Secure Shell takes it: without brackets around it, and without a colon after it. It is edited in
/// place.
pub fn ssh_host(host: String) -> String
    ensures { string_bytes result ≡ ssh_host (string_bytes host) }
{
    into_text(ssh_host_bytes(host.into_bytes()))
}

/// The host as Secure Shell takes it, as a slice of the host.
pub fn ssh_host_text(host: &[u8]) -> &[u8]
    ensures { result.now ≡ ssh_host host.now }
{
    if starts_with_byte(host, b'[') {
        return strip_brackets(host);
    }
    strip_colon(host)
}

/// The host without brackets around it and a colon after them.
fn strip_brackets(host: &[u8]) -> &[u8]
    requires { begins_with left_bracket host.now ≡ true }
    ensures { IsSshHost host.now result.now }
{
    match in_brackets(host) {
        Some(inside) => inside,
        None => host,
    }
}

/// The host without a colon at its end, if it has no other colon.
fn strip_colon(host: &[u8]) -> &[u8]
    requires { begins_with left_bracket host.now ≡ false }
    ensures { IsSshHost host.now result.now }
{
    match before(host, b':') {
        Some(front) if is_free_of(front, b':') => front,
        _ => host,
    }
}

/// The bytes of the host as Secure Shell takes it, edited in place.
fn ssh_host_bytes(host: Vec<u8>) -> Vec<u8>
    ensures { IsSshHost host.items result.items }
{
    if starts_with_byte(host.as_slice(), b'[') {
        without_brackets(host)
    } else {
        without_colon(host)
    }
}

/// The host without brackets around it and a colon after them, edited in place.
fn without_brackets(mut host: Vec<u8>) -> Vec<u8>
    requires { begins_with left_bracket host.items ≡ true }
    ensures { IsSshHost host.items result.items }
{
    let Some(inside) = in_brackets(host.as_slice()) else {
        return host;
    };
    let size = inside.len();
    let _ = host.remove(0);
    host.truncate(size);
    host
}

/// The text in brackets, if nothing or a colon follows them.
fn in_brackets(host: &[u8]) -> Option<&[u8]>
    ensures { MatchOption result ((inside : List ℕ) → ¬ InBrackets host.now inside)
        (λ inside. InBrackets host.now inside.now) }
{
    let suffix = after(host, b'[')?;
    before(without_last(suffix, b':'), b']')
}

/// The text without a last byte `c`, if it has one.
fn without_last(text: &[u8], c: u8) -> &[u8]
    ensures { DropsLast c text.now result.now }
{
    match before(text, c) {
        Some(front) => front,
        None => text,
    }
}

/// The host without a colon at its end, if it has no other colon, edited in place.
fn without_colon(mut host: Vec<u8>) -> Vec<u8>
    requires { begins_with left_bracket host.items ≡ false }
    ensures { IsSshHost host.items result.items }
{
    let Some(front) = before(host.as_slice(), b':') else {
        return host;
    };
    if !is_free_of(front, b':') {
        return host;
    }
    let size = front.len();
    host.truncate(size);
    host
}
