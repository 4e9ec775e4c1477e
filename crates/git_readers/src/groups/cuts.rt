//! The authority of a text, the host in an authority, and the cuts that find them.

ghost use Rattle.std.specs.Prelude.{◌≡◌, ◌++◌, ◌∷◌, IfSome, option_map};
ghost use Rattle.std.specs.Char.{is_ascii_digit};
ghost use Rattle.git_syntax.specs.Authority.{unless_empty};
ghost use Rattle.git_syntax.specs.Bytes.{begins_by, colon};
ghost use Rattle.git_readers.specs.Groups as spec;
ghost use Rattle.git_readers.specs.Readers.{cut_first, cut_last, front_or};

use git_syntax::bytes::{cut, cut_before_path, last_cut};

/// The authority at the front of a text, by RFC 3986.
pub(super) fn authority(text: &[u8]) -> &[u8]
    ensures { result.now ≡ spec.authority text.now }
{
    cut_before_path(text, true).0
}

/// The host in an authority.
pub(super) fn host_in(authority: &[u8]) -> &[u8]
    ensures { result.now ≡ spec.host_in authority.now }
{
    host_of(named_in(authority))
}

/// The host with its port, in an authority.
pub(super) fn named_in(authority: &[u8]) -> &[u8]
    ensures { result.now ≡ spec.named_in authority.now }
{
    match at_last(authority, b'@') {
        None => authority,
        Some((_, named)) => named,
    }
}

/// The host without its port.
fn host_of(named: &[u8]) -> &[u8]
    ensures { result.now ≡ spec.host_of named.now }
{
    match named {
        [] => named,
        [b'[', rest @ ..] => before_first(rest, b']'),
        _ => before_last_colon(named),
    }
}

/// The text before the first of this byte, or the whole text.
pub(super) fn before_first(text: &[u8], byte: u8) -> &[u8]
    ensures { result.now ≡ front_or text.now (cut_first byte text.now) }
{
    match at_first(text, byte) {
        None => text,
        Some((front, _)) => front,
    }
}

/// The text before the last colon, or the whole text.
fn before_last_colon(text: &[u8]) -> &[u8]
    ensures { result.now ≡ front_or text.now (cut_last colon text.now) }
{
    match at_last(text, b':') {
        None => text,
        Some((front, _)) => front,
    }
}

/// The text cut at the first of this byte.
pub(super) fn at_first(text: &[u8], byte: u8) -> Option<(&[u8], &[u8])>
    ensures found { option_map (λ it. (it.0.now, it.1.now)) result ≡ cut_first byte text.now }
    ensures joined { IfSome result (λ it. text.now ≡ it.0.now ++ byte ∷ it.1.now) }
{
    cut(text, byte)
}

/// The text cut at the last of this byte.
fn at_last(text: &[u8], byte: u8) -> Option<(&[u8], &[u8])>
    ensures { option_map (λ it. (it.0.now, it.1.now)) result ≡ cut_last byte text.now }
{
    last_cut(text, byte)
}

/// The text, if it isn't empty.
pub(super) fn unless_empty(text: &[u8]) -> Option<&[u8]>
    ensures { option_map (λ t. t.now) result ≡ unless_empty text.now }
{
    match text {
        [] => None,
        _ => Some(text),
    }
}

/// Whether the label begins with a digit.
pub(super) fn begins_with_digit(label: &[u8]) -> bool
    ensures { result ≡ begins_by is_ascii_digit label.now }
{
    match label {
        [] => false,
        [first, ..] => first.is_ascii_digit(),
    }
}
