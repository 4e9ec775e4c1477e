//! The places of the parts of an authority: user, password, host and port.

ghost use Rattle.std.specs.Prelude.{◌≡◌, ◌+◌, ◌<◌, ◌^◌, ◌∷◌, MatchOption, false, length};
ghost use Rattle.git_syntax.specs.Bytes.{begins_with, left_bracket};
ghost use Rattle.git_parts.specs.Internal.Pieces.{HasPort, IsAuthority, IsHostAlone, IsHostPiece};
ghost use Rattle.git_parts.specs.Parts.{AuthoritySpans, HostSpans, UserSpans, span_unless_empty};

use crate::parts::Span;
use git_syntax::bytes::{after, cut, is_free_of, last_cut};

/// The parts of an authority.
#[derive(Clone, Copy)]
pub(super) struct AuthorityParts {
    /// The user.
    pub(super) user: Option<Span>,
    /// The password.
    pub(super) password: Option<Span>,
    /// The host.
    pub(super) host: Option<Span>,
    /// The digits of the port.
    pub(super) port: Option<Span>,
}

/// The parts of an authority that starts at index `start`.
pub(super) fn authority_parts(start: usize, authority: &[u8]) -> AuthorityParts
    requires held { IsAuthority authority.now }
    requires small { start + length authority.now < 2 ^ 63 }
    ensures { AuthoritySpans start authority.now result.user result.password result.host result.port }
{
    match last_cut(authority, b'@') {
        None => {
            let (host, port) = host_parts(start, authority);
            AuthorityParts {
                user: None,
                password: None,
                host,
                port,
            }
        }
        Some((information, piece)) => {
            let (user, password) = user_parts(start, information);
            let (host, port) = host_parts(start + (information.len() + 1), piece);
            AuthorityParts {
                user,
                password,
                host,
                port,
            }
        }
    }
}

/// The user and the password in user information that starts at index `start`.
fn user_parts(start: usize, information: &[u8]) -> (Option<Span>, Option<Span>)
    requires { start + length information.now < 2 ^ 63 }
    ensures { UserSpans start information.now result.0 result.1 }
{
    match cut(information, b':') {
        None => (
            Some(Span {
                at: start,
                len: information.len(),
            }),
            None,
        ),
        Some((user, password)) => (
            Some(Span {
                at: start,
                len: user.len(),
            }),
            Some(Span {
                at: start + (user.len() + 1),
                len: password.len(),
            }),
        ),
    }
}

/// The host and the port in a piece that starts at index `start`.
fn host_parts(start: usize, piece: &[u8]) -> (Option<Span>, Option<Span>)
    requires named { IsHostPiece piece.now }
    requires small { start + length piece.now < 2 ^ 63 }
    ensures { HostSpans start piece.now result.0 result.1 }
{
    match port_digits(piece) {
        None => (unless_empty(start, piece), None),
        Some(digits) => {
            let before = piece.len() - digits.len();
            (
                Some(Span {
                    at: start,
                    len: before - 1,
                }),
                Some(Span {
                    at: start + before,
                    len: digits.len(),
                }),
            )
        }
    }
}

/// The digits of the port, which follow a host and a colon.
fn port_digits(piece: &[u8]) -> Option<&[u8]>
    requires { IsHostPiece piece.now }
    ensures { MatchOption result (IsHostAlone piece.now) (λ digits. HasPort piece.now digits.now) }
{
    match after(piece, b'[') {
        Some(suffix) => digits_after_brackets(suffix),
        None => digits_after_host(piece),
    }
}

/// The digits of the port in a piece that begins with a bracket, from the text after it.
fn digits_after_brackets(suffix: &[u8]) -> Option<&[u8]>
    requires { IsHostPiece (left_bracket ∷ suffix.now) }
    ensures { MatchOption result (IsHostAlone (left_bracket ∷ suffix.now))
        (λ digits. HasPort (left_bracket ∷ suffix.now) digits.now) }
{
    let (_, rest) = cut(suffix, b']')?;
    let digits = after(rest, b':')?;
    if digits.is_empty() {
        return None;
    }
    Some(digits)
}

/// The digits of the port in a piece that doesn't begin with a bracket: only a single colon begins a port.
fn digits_after_host(piece: &[u8]) -> Option<&[u8]>
    requires { begins_with left_bracket piece.now ≡ false }
    ensures { MatchOption result (IsHostAlone piece.now) (λ digits. HasPort piece.now digits.now) }
{
    let (host, digits) = cut(piece, b':')?;
    if host.is_empty() {
        return None;
    }
    if digits.is_empty() {
        return None;
    }
    if is_free_of(digits, b':') {
        return Some(digits);
    }
    None
}

/// The piece that starts at index `start`, if it isn't empty.
pub(super) fn unless_empty(start: usize, piece: &[u8]) -> Option<Span>
    ensures { result ≡ span_unless_empty start piece.now }
{
    match piece {
        [] => None,
        [_, ..] => Some(Span {
            at: start,
            len: piece.len(),
        }),
    }
}
