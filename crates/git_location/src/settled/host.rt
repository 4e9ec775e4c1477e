//! The settled hosts of URLs.

ghost use Rattle.std.specs.Prelude.{◌≡◌, ◌↔◌, IsTrue, Option};
ghost use Rattle.git_location.specs.Settled.{IsBareHost, IsBracketedAddress, IsBracketedHost, IsWebHost, IsWebName};
ghost use Rattle.git_location.specs.Internal.SettledPieces.{IsBracketedLiteral, IsClosedHost, IsNormalLiteral, StripsBrackets};

use crate::settled::fields::{is_normal, is_normal_address, is_normal_name};
use git_syntax::bytes::{after, before, cut};
use git_syntax::escape::{has_percent, is_sound};
use git_syntax::host::bytes::{are_http_host_bytes, is_escaped_zone};
use git_syntax::host::is_simple_host;

/// Whether the text is a settled host of HTTP, beside this port. Most are simple hosts, which one pass finds.
pub(crate) fn is_web_host(host: &[u8], port: Option<u16>) -> bool
    ensures { IsTrue result ↔ IsWebHost port host.now }
{
    is_simple_host(host) || is_any_web_host(host, port)
}

/// Whether the text is a settled host of HTTP, beside this port, by testing each form.
fn is_any_web_host(host: &[u8], port: Option<u16>) -> bool
    ensures { IsTrue result ↔ IsWebHost port host.now }
{
    match before(host, b':') {
        Some(front) => port.is_none() && is_closed_host(front),
        None => is_bracketed_literal(host) || is_web_name(host),
    }
}

/// Whether the text is a settled host of HTTP that a colon may follow.
fn is_closed_host(host: &[u8]) -> bool
    ensures { IsTrue result ↔ IsClosedHost host.now }
{
    is_bracketed_literal(host) || (is_web_name(host) && !has_percent(host))
}

/// Whether the text is a host of HTTP outside brackets that is read unchanged.
fn is_web_name(host: &[u8]) -> bool
    ensures { IsTrue result ↔ IsWebName host.now }
{
    !host.is_empty() && are_http_host_bytes(host) && is_sound(host) && is_normal(host)
}

/// Whether the text is a literal in brackets that is read unchanged.
fn is_bracketed_literal(host: &[u8]) -> bool
    ensures { IsTrue result ↔ IsBracketedLiteral host.now }
{
    match in_brackets(host) {
        Some(inner) => is_normal_literal(inner),
        None => false,
    }
}

/// The text between a first `[` and a last `]`.
fn in_brackets(host: &[u8]) -> Option<&[u8]>
    ensures { StripsBrackets host.now result }
{
    before(after(host, b'[')?, b']')
}

/// Whether the text is a literal that is read unchanged.
fn is_normal_literal(text: &[u8]) -> bool
    ensures { IsTrue result ↔ IsNormalLiteral text.now }
{
    match cut(text, b'%') {
        None => is_normal_address(text),
        Some((address, escaped)) => is_normal_address(address) && is_escaped_zone(escaped),
    }
}

/// Whether the text is a settled host of Secure Shell.
pub(crate) fn is_bare_host(host: &[u8]) -> bool
    ensures { IsTrue result ↔ IsBareHost host.now }
{
    is_normal_name(host) || is_normal_address(host)
}

/// Whether the text is a settled host of a URL whose addresses are in brackets.
pub(crate) fn is_bracketed_host(host: &[u8]) -> bool
    ensures { IsTrue result ↔ IsBracketedHost host.now }
{
    is_normal_name(host) || is_bracketed_address(host)
}

/// Whether the text is an IPv6 text in lower case, in brackets.
pub fn is_bracketed_address(host: &[u8]) -> bool
    ensures { IsTrue result ↔ IsBracketedAddress host.now }
{
    match in_brackets(host) {
        Some(address) => is_normal_address(address),
        None => false,
    }
}
