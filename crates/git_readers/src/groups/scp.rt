//! The hosts that programs find in the scp form.

ghost use Rattle.std.specs.Prelude.{◌≡◌, ◌||◌, ◌++◌, ◌∷◌, IfSome, Some, option_map};
ghost use Rattle.git_syntax.specs.Bytes.{at_sign, begins_with, colon, slash};
ghost use Rattle.git_readers.specs.Groups as spec;
ghost use Rattle.git_readers.specs.Readers.{begins_port, cut_first, from, is_no_digit};

use crate::groups::cuts::{
    at_first, authority, begins_with_digit, host_in, named_in, unless_empty,
};

/// A text that is cut at its first colon.
#[derive(Clone, Copy)]
struct ScpCut<'a> {
    /// The text before the colon.
    front: &'a [u8],
    /// The text after it.
    rest: &'a [u8],
}

/// The text cut at its first colon, if that may end the host of an scp form: neither a second colon nor two
/// slashes follow it.
fn scp_cut(text: &[u8]) -> Option<ScpCut<'_>>
    ensures found { option_map (λ it. (it.front.now, it.rest.now)) result ≡ spec.scp_cut text.now }
    ensures joined { IfSome result (λ it. text.now ≡ it.front.now ++ colon ∷ it.rest.now) }
{
    match at_first(text, b':') {
        None => None,
        Some((front, rest)) => match rest {
            [b':', ..] | [b'/', b'/', ..] => None,
            _ => Some(ScpCut { front, rest }),
        },
    }
}

/// The host before the first colon, and after the last `@` before it.
pub(super) fn colon_host(text: &[u8]) -> Option<&[u8]>
    ensures { option_map (λ t. t.now) result ≡ spec.colon_host (spec.scp_cut text.now) }
{
    unless_empty(named_in(scp_cut(text)?.front))
}

/// The host of the URL as which an scp form is rewritten.
pub(super) fn made_host(text: &[u8]) -> Option<&[u8]>
    ensures { option_map (λ t. t.now) result ≡ spec.made_host (spec.scp_cut text.now) }
{
    unless_empty(host_in(authority(scp_cut(text)?.front)))
}

/// The host after the first `@` of an scp form, before the next colon.
pub(super) fn user_host(text: &[u8]) -> Option<&[u8]>
    ensures { option_map (λ t. t.now) result ≡ spec.user_host text.now (spec.scp_cut text.now) }
{
    match scp_cut(text) {
        None => None,
        Some(_) => host_after_user(text),
    }
}

/// The host between the first `@` and the next colon.
fn host_after_user(text: &[u8]) -> Option<&[u8]>
    ensures { option_map (λ t. t.now) result ≡ spec.after_user (cut_first at_sign text.now) }
{
    match at_first(text, b'@') {
        None => None,
        Some((_, rest)) => host_before_colon(rest),
    }
}

/// The host before the first colon.
fn host_before_colon(text: &[u8]) -> Option<&[u8]>
    ensures { option_map (λ t. t.now) result ≡ spec.next_host (cut_first colon text.now) }
{
    match at_first(text, b':') {
        None => None,
        Some((host, _)) => unless_empty(host),
    }
}

/// The host with its port, if the path begins with digits that may be one.
pub(super) fn port_host(text: &[u8]) -> Option<&[u8]>
    ensures { option_map (λ t. t.now) result ≡ spec.port_host (spec.scp_cut text.now) }
{
    match scp_cut(text) {
        None => None,
        Some(pair) => host_with_port(text, pair.front, pair.rest),
    }
}

/// The host with its port of a text that is cut at this colon.
fn host_with_port<'a>(text: &'a [u8], front: &'a [u8], rest: &'a [u8]) -> Option<&'a [u8]>
    requires { text.now ≡ front.now ++ colon ∷ rest.now }
    ensures { option_map (λ t. t.now) result ≡ spec.port_host (Some (front.now, rest.now)) }
{
    if begins_port(rest) {
        let suffix = from_no_digit(rest);
        Some(named_in(text.split_at(text.len() - suffix.len()).0))
    } else {
        None
    }
}

/// Whether the text begins with digits, followed by `/` or `:`.
fn begins_port(text: &[u8]) -> bool
    ensures { result ≡ begins_port text.now }
{
    begins_with_digit(text) && begins_with_mark(from_no_digit(text))
}

/// Whether the text begins with `/` or `:`.
fn begins_with_mark(text: &[u8]) -> bool
    ensures { result ≡ (begins_with slash text.now || begins_with colon text.now) }
{
    match text {
        [b'/' | b':', ..] => true,
        _ => false,
    }
}

/// The text without the digits at its front.
fn from_no_digit(text: &[u8]) -> &[u8]
    ensures { result.now ≡ from is_no_digit text.now }
{
    let mut rest = text;
    while let [b'0'..=b'9', suffix @ ..] = rest {
        rest = suffix;
    }
    rest
}
