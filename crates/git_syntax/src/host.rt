//! Host and port, which follow the user information in an authority.
//!
//! Both are returned, as slices of the text, exactly if the text spells a host and a port. If an error is
//! returned, the text has the flaw that the error names.

ghost use Rattle.std.specs.Prelude.{◌≡◌, ℕ, IsUtf8, ◌<◌, ◌↔◌, ◌++◌, ◌∷◌, List, Option, None, IsTrue, IfOk, IfErr, IfSome, MatchOption, false, length};
ghost use Rattle.git_syntax.specs.Bytes.{FreeOf, begins_with, left_bracket, right_bracket};
ghost use Rattle.git_syntax.specs.Flaws.{IsNoHost, IsNoInner, HostPortFlaw};
ghost use Rattle.git_syntax.specs.Hosts as spec;
ghost use Rattle.git_syntax.specs.Hosts.{HostText, IsAddressPiece, IsLiteral, IsManyColoned, SpellsHostPort, ReadsAddress};
ghost use Rattle.git_syntax.specs.Internal.HostPieces.{IsInner, IsSimpleHost, ReadsHostPort, host_of, in_brackets, denoted_host, named_text, port_of, shown_literal, host_syntax};

pub mod build;
pub mod bytes;
pub(crate) mod port;

use crate::bytes::{after, before, cut, is_free_of};
use crate::escape::decodes_to_utf8;
use crate::ipv6::is_address;
use crate::refusal::UrlFault;
use bytes::{are_http_host_bytes, are_simple_bytes, is_literal};
use port::{are_digits, ends_host, with_port, with_rest};

/// The syntax of a host, which depends on the scheme.
#[derive(Clone, Copy, PartialEq, Eq)]
pub enum HostSyntax {
    /// The syntax of HTTP: escapes are kept, and brackets contain an IPv6 literal.
    Http,
    /// The syntax of Git's own transports: an IPv6 text needs no brackets.
    Git,
    /// The syntax of any other scheme.
    Other,
}

/// The text of a host as it is in the input, and how it is decoded.
#[derive(Clone, Copy)]
pub enum HostPiece<'a> {
    /// A host of lower-case letters, digits, `-` and `.`: it is the same in every syntax.
    Simple(&'a [u8]),
    /// An IPv6 text without brackets, perhaps followed by a colon: it is lowercased.
    Address(&'a [u8]),
    /// A host of HTTP: its escapes are kept.
    Kept(&'a [u8]),
    /// Any other host outside brackets: it is decoded.
    Decoded(&'a [u8]),
    /// An IPv6 literal in brackets, in HTTP: the address is lowercased, the zone with its `%25` is kept.
    Literal(&'a [u8]),
    /// An IPv6 literal in brackets, in another scheme: it is decoded, and the address is lowercased.
    DecodedLiteral(&'a [u8]),
    /// Any other text in brackets: it is decoded.
    Bracketed(&'a [u8]),
}

/// A host, and the colon or the port after it.
#[derive(Clone, Copy)]
pub struct HostPort<'a> {
    /// The host.
    pub piece: HostPiece<'a>,
    /// Whether a colon that follows the host is part of it.
    pub keeps_colon: bool,
    /// The port.
    pub port: Option<u16>,
}

/// Reads a host and a port: `None` if the text is empty.
pub(crate) fn read_host(syntax: HostSyntax, piece: &[u8]) -> Result<Option<HostPort<'_>>, UrlFault>
    ensures named { IfOk result
        (λ named. SpellsHostPort (host_syntax syntax) piece.now (host_of named) (port_of named)) }
    ensures text { IfOk result (λ named. IfSome named (λ host. IsUtf8 (named_text host))) }
    ensures unnamed { IfErr result
        (λ fault. (host : Option (List ℕ)) (port : Option ℕ)
        → ¬ SpellsHostPort (host_syntax syntax) piece.now host port) }
    ensures flaw { IfErr result
        (λ fault. HostPortFlaw (host_syntax syntax) piece.now fault) }
{
    if piece.is_empty() {
        return Ok(None);
    }
    if let Some(named) = simple_host(piece) {
        return Ok(Some(named));
    }
    let named = read_some(syntax, piece)?;
    Ok(Some(named))
}

/// The port, if there is a host with a port.
pub fn port_of(host: Option<HostPort<'_>>) -> Option<u16>
    ensures { result ≡ port_of host.entry }
{
    match host {
        None => None,
        Some(host) => host.port,
    }
}

/// The host, if the text is a simple one, as most are.
pub(crate) fn simple_host(piece: &[u8]) -> Option<HostPort<'_>>
    ensures simple { IfSome result (λ host. IsSimpleHost piece.now) }
    ensures host { IfSome result (λ host. named_text host ≡ piece.now) }
    ensures port { IfSome result (λ host. host.port ≡ None) }
{
    if is_simple_host(piece) {
        Some(alone(HostPiece::Simple(piece)))
    } else {
        None
    }
}

/// Whether the text is known to be a simple host. If the result is `false`, nothing is known.
pub fn is_simple_host(text: &[u8]) -> bool
    ensures { IsTrue result → IsSimpleHost text.now }
{
    !text.is_empty() && are_simple_bytes(text)
}

/// Reads a host and a port from a text that isn't empty.
fn read_some(syntax: HostSyntax, piece: &[u8]) -> Result<HostPort<'_>, UrlFault>
    requires { 0 < length piece.now }
    ensures { ReadsHostPort (host_syntax syntax) piece.now result }
{
    match after(piece, b'[') {
        Some(suffix) => read_bracketed(syntax, suffix),
        None => read_unbracketed(syntax, piece),
    }
}

/// Reads the text after an opening bracket.
fn read_bracketed(syntax: HostSyntax, suffix: &[u8]) -> Result<HostPort<'_>, UrlFault>
    ensures { ReadsHostPort (host_syntax syntax) (left_bracket ∷ suffix.now) result }
{
    match cut(suffix, b']') {
        Some((inner, rest)) => read_brackets(syntax, inner, rest),
        None => Err(UrlFault::BadCharacter),
    }
}

/// Reads the text between brackets, and the text after them.
fn read_brackets<'a>(
    syntax: HostSyntax,
    inner: &'a [u8],
    rest: &'a [u8],
) -> Result<HostPort<'a>, UrlFault>
    requires { FreeOf right_bracket inner.now }
    ensures { ReadsHostPort (host_syntax syntax)
        (left_bracket ∷ (inner.now ++ right_bracket ∷ rest.now)) result }
{
    if !ends_host(rest) {
        return Err(UrlFault::BadCharacter);
    }
    let Some(host) = read_inner(syntax, inner) else {
        return Err(UrlFault::BadCharacter);
    };
    match with_rest(syntax, host, rest) {
        Some(named) => Ok(named),
        None => Err(UrlFault::BadPort),
    }
}

/// Reads a text without an opening bracket.
fn read_unbracketed(syntax: HostSyntax, piece: &[u8]) -> Result<HostPort<'_>, UrlFault>
    requires some { 0 < length piece.now }
    requires no_bracket { begins_with left_bracket piece.now ≡ false }
    ensures { ReadsHostPort (host_syntax syntax) piece.now result }
{
    let Some((text, digits)) = cut(piece, b':') else {
        return read_plain(syntax, piece);
    };
    if text.is_empty() || !is_free_of(digits, b':') {
        return read_colons(syntax, piece);
    }
    if !are_digits(digits) {
        return Err(UrlFault::BadPort);
    }
    let Some(host) = read_text(syntax, text) else {
        return Err(UrlFault::BadCharacter);
    };
    match with_port(syntax, host, digits) {
        Some(named) => Ok(named),
        None => Err(UrlFault::BadPort),
    }
}

/// Reads a text without a colon.
fn read_plain(syntax: HostSyntax, piece: &[u8]) -> Result<HostPort<'_>, UrlFault>
    requires { spec.IsPlainHost piece.now }
    ensures { ReadsHostPort (host_syntax syntax) piece.now result }
{
    match read_text(syntax, piece) {
        Some(host) => Ok(alone(host)),
        None => Err(UrlFault::BadCharacter),
    }
}

/// Reads a text whose colons don't begin a port.
fn read_colons(syntax: HostSyntax, piece: &[u8]) -> Result<HostPort<'_>, UrlFault>
    requires no_bracket { begins_with left_bracket piece.now ≡ false }
    requires colons { IsManyColoned piece.now }
    ensures { ReadsHostPort (host_syntax syntax) piece.now result }
{
    if is_http_syntax(syntax) {
        return Err(UrlFault::BadCharacter);
    }
    if reads_address(syntax, piece) {
        return Ok(alone(HostPiece::Address(piece)));
    }
    match read_text(syntax, piece) {
        Some(host) => Ok(alone(host)),
        None => Err(UrlFault::BadCharacter),
    }
}

/// A host that nothing follows.
fn alone(piece: HostPiece<'_>) -> HostPort<'_>
    ensures host { named_text result ≡ denoted_host piece.entry }
    ensures port { result.port ≡ None }
{
    HostPort {
        piece,
        keeps_colon: false,
        port: None,
    }
}

/// Whether the syntax is that of HTTP.
fn is_http_syntax(syntax: HostSyntax) -> bool
    ensures { IsTrue result ↔ (host_syntax syntax ≡ spec.HostSyntax.http_hosts) }
{
    matches!(syntax, HostSyntax::Http)
}

/// Whether the text is an address that needs no brackets.
fn reads_address(syntax: HostSyntax, piece: &[u8]) -> bool
    ensures { IsTrue result ↔ ReadsAddress (host_syntax syntax) piece.now }
{
    match syntax {
        HostSyntax::Git => is_address_piece(piece),
        HostSyntax::Http | HostSyntax::Other => false,
    }
}

/// Whether the text is an IPv6 text, perhaps followed by a colon.
pub fn is_address_piece(piece: &[u8]) -> bool
    ensures { IsTrue result ↔ IsAddressPiece piece.now }
{
    if is_address(piece) {
        return true;
    }
    match before(piece, b':') {
        Some(address) => is_address(address),
        None => false,
    }
}

/// The host that a text outside brackets denotes.
fn read_text(syntax: HostSyntax, text: &[u8]) -> Option<HostPiece<'_>>
    ensures { MatchOption result (IsNoHost (host_syntax syntax) text.now)
        (λ piece. HostText (host_syntax syntax) text.now (denoted_host piece)) }
{
    match syntax {
        HostSyntax::Http => {
            if are_http_host_bytes(text) {
                Some(HostPiece::Kept(text))
            } else {
                None
            }
        }
        HostSyntax::Git | HostSyntax::Other => {
            if decodes_to_utf8(text) {
                Some(HostPiece::Decoded(text))
            } else {
                None
            }
        }
    }
}

/// The host that a text in brackets denotes.
fn read_inner(syntax: HostSyntax, text: &[u8]) -> Option<HostPiece<'_>>
    ensures { MatchOption result (IsNoInner (host_syntax syntax) text.now)
        (λ piece. IsInner (host_syntax syntax) text.now (denoted_host piece)) }
{
    if is_literal(text) {
        return Some(literal(syntax, text));
    }
    read_no_literal(syntax, text)
}

/// The piece of a literal, which is decoded except in HTTP.
fn literal(syntax: HostSyntax, text: &[u8]) -> HostPiece<'_>
    ensures { denoted_host result ≡ in_brackets (shown_literal (host_syntax syntax) text.now) }
{
    match syntax {
        HostSyntax::Http => HostPiece::Literal(text),
        HostSyntax::Git | HostSyntax::Other => HostPiece::DecodedLiteral(text),
    }
}

/// The host that a text in brackets denotes if it isn't a literal.
fn read_no_literal(syntax: HostSyntax, text: &[u8]) -> Option<HostPiece<'_>>
    requires { ¬ IsLiteral text.now }
    ensures { MatchOption result (IsNoInner (host_syntax syntax) text.now)
        (λ piece. IsInner (host_syntax syntax) text.now (denoted_host piece)) }
{
    match syntax {
        HostSyntax::Http => None,
        HostSyntax::Git | HostSyntax::Other => {
            if decodes_to_utf8(text) {
                Some(HostPiece::Bracketed(text))
            } else {
                None
            }
        }
    }
}
